//! The options, how they are spelt, and which values they take.
ghost use Rattle.std.specs.Prelude.{◌≡◌, ◌≤◌, IfOk, option_map};
ghost use Rattle.sk_opts.specs.Settings.{setting_bytes, lowest, highest, is_flag, is_list, setting_among, value_in};
ghost use Rattle.sk_opts.specs.GivenValues.{given_value};
ghost use Rattle.sk_opts.specs.Ranges.{LiesIn};
ghost use Rattle.sk_opts.specs.declared.setting.GivenValue.TheVariants.{Number, Numbers};

use crate::number::{number_in, numbers_in};
use sk_base::List;
use std::alloc::{AllocError, Global};

/// An option.
#[derive(Debug, Drop, Clone, Copy, PartialEq, Eq)]
pub enum Setting {
    HoleBits,
    InputBits,
    Turns,
    Calls,
    IntBits,
    Rounds,
    Conflicts,
    Certificate,
    Holes,
}

/// The value of an option.
#[derive(Debug, Drop)]
pub enum GivenValue {
    /// One number; 0 where the option takes no value.
    Number(u32),
    /// Numbers with commas between them.
    Numbers(List<u64>),
}

/// An option with its value.
#[derive(Debug, Drop)]
pub struct Given {
    pub setting: Setting,
    pub value: GivenValue,
}

/// How an option is spelt.
pub fn setting_bytes(setting: Setting) -> &'static [u8]
    ensures { result.now ≡ setting_bytes setting }
{
    match setting {
        Setting::HoleBits => b"--bnd-cbits",
        Setting::InputBits => b"--bnd-inbits",
        Setting::Turns => b"--bnd-unroll-amnt",
        Setting::Calls => b"--bnd-inline-amnt",
        Setting::IntBits => b"--int-bits",
        Setting::Rounds => b"--rounds",
        Setting::Conflicts => b"--conflicts",
        Setting::Certificate => b"--cert",
        Setting::Holes => b"--holes",
    }
}

fn lowest(setting: Setting) -> u32
    ensures { result ≡ lowest setting }
{
    match setting {
        Setting::HoleBits => 1,
        Setting::InputBits => 1,
        Setting::Turns => 0,
        Setting::Calls => 1,
        Setting::IntBits => 6,
        Setting::Rounds => 0,
        Setting::Conflicts => 0,
        Setting::Certificate => 0,
        Setting::Holes => 0,
    }
}

fn highest(setting: Setting) -> u32
    ensures value { result ≡ highest setting }
    ensures within { result ≤ 1000000000 }
{
    match setting {
        Setting::HoleBits => 16,
        Setting::InputBits => 16,
        Setting::Turns => 64,
        Setting::Calls => 16,
        Setting::IntBits => 32,
        Setting::Rounds => 1000000,
        Setting::Conflicts => 1000000000,
        Setting::Certificate => 0,
        Setting::Holes => 0,
    }
}

/// Whether an option stands without a value.
pub fn is_flag(setting: Setting) -> bool
    ensures { result ≡ is_flag setting }
{
    match setting {
        Setting::Certificate => true,
        Setting::HoleBits => false,
        Setting::InputBits => false,
        Setting::Turns => false,
        Setting::Calls => false,
        Setting::IntBits => false,
        Setting::Rounds => false,
        Setting::Conflicts => false,
        Setting::Holes => false,
    }
}

/// Whether the value of an option is a list of numbers.
fn is_list(setting: Setting) -> bool
    ensures { result ≡ is_list setting }
{
    match setting {
        Setting::Holes => true,
        Setting::HoleBits => false,
        Setting::InputBits => false,
        Setting::Turns => false,
        Setting::Calls => false,
        Setting::IntBits => false,
        Setting::Rounds => false,
        Setting::Conflicts => false,
        Setting::Certificate => false,
    }
}

/// The one of these options that is spelt so.
pub fn setting_among(settings: &[Setting], word: &[u8]) -> Option<Setting>
    ensures { result ≡ setting_among settings.now word.now }
{
    let mut rest = settings;
    while let [setting, others @ ..] = rest {
        if word == setting_bytes(*setting) {
            return Some(*setting);
        }
        rest = others;
    }
    None
}

/// The number that a word gives an option, in its range; none for one that takes no number.
pub fn value_in(setting: Setting, word: &[u8]) -> Option<u32>
    ensures value { result ≡ value_in setting word.now }
    ensures range { LiesIn setting result }
{
    if is_flag(setting) {
        return None;
    }
    number_in(lowest(setting), highest(setting), word)
}

/// The value that a word gives an option: a list of numbers, or a number in its range.
pub fn given_value(
    alloc: Global,
    setting: Setting,
    word: &[u8],
) -> Result<Option<GivenValue>, AllocError>
    ensures { IfOk result (λ value. value ≡ given_value setting word.now) }
{
    if is_list(setting) {
        let numbers = numbers_in(alloc, word)?;
        Ok(as_list(numbers))
    } else {
        Ok(as_number(value_in(setting, word)))
    }
}

fn as_list(numbers: Option<List<u64>>) -> Option<GivenValue>
    ensures { result ≡ option_map Numbers numbers }
{
    match numbers {
        None => None,
        Some(numbers) => Some(GivenValue::Numbers(numbers)),
    }
}

fn as_number(number: Option<u32>) -> Option<GivenValue>
    ensures { result ≡ option_map Number number }
{
    match number {
        None => None,
        Some(number) => Some(GivenValue::Number(number)),
    }
}
