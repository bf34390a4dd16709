//! The commands of `clap` with which words are read, and what its matches say of an option.
ghost use Rattle.std.specs.Prelude.{◌≡◌, false, option_map, codes, IfOk};
ghost use Rattle.std.specs.Str.{bytes_eq};
ghost use Rattle.clap.specs.Walk.{rule_of};
ghost use Rattle.clap.specs.Simple.{app_of};
ghost use Rattle.sk_opts.specs.Settings.{is_flag};
ghost use Rattle.sk_opts.specs.GivenValues.{given_value};
ghost use Rattle.sk_opts.specs.Matching.{setting_name, setting_action as action_as, option_rule, words_rule, bare_app, command_app, flag_match, value_match, match_of};

use crate::setting::{GivenValue, Setting, given_value, is_flag};
use clap::{Arg, ArgAction, Command};
use std::alloc::{AllocError, Global};

/// What the matches say of an option.
#[derive(Debug, Drop)]
pub enum Matched {
    /// It was not given.
    Absent,
    /// It was given this value.
    Value(GivenValue),
    /// It was given a text that is no value of it.
    NoValue,
}

/// The name of an option, without its two minus signs.
pub fn setting_name<'a>(setting: Setting) -> &'a str
    ensures { result.now ≡ setting_name setting }
{
    match setting {
        Setting::HoleBits => "bnd-cbits",
        Setting::InputBits => "bnd-inbits",
        Setting::Turns => "bnd-unroll-amnt",
        Setting::Calls => "bnd-inline-amnt",
        Setting::IntBits => "int-bits",
        Setting::Rounds => "rounds",
        Setting::Conflicts => "conflicts",
        Setting::Certificate => "cert",
        Setting::Holes => "holes",
    }
}

fn setting_action(setting: Setting) -> ArgAction
    ensures { result ≡ action_as (is_flag setting) }
{
    if is_flag(setting) {
        ArgAction::SetTrue
    } else {
        ArgAction::Set
    }
}

fn option_arg<'a>(alloc: Global, setting: Setting) -> Arg<'a>
    ensures rule { rule_of result ≡ option_rule setting }
    ensures local { result.global ≡ false }
{
    let name = setting_name(setting);
    Arg::new(alloc, name)
        .long(name)
        .action(setting_action(setting))
}

fn words_arg<'a>(alloc: Global) -> Arg<'a>
    ensures rule { rule_of result ≡ words_rule }
    ensures local { result.global ≡ false }
{
    Arg::new(alloc, "words").action(ArgAction::Append)
}

fn bare_command<'a>(alloc: Global) -> Command<'a>
    ensures { app_of result ≡ bare_app }
{
    Command::new(alloc, "sketch")
        .no_binary_name(true)
        .disable_help_flag(true)
        .disable_version_flag(true)
}

/// The command that has these options, and positionals.
pub fn command_of<'a>(alloc: Global, has: &[Setting]) -> Result<Command<'a>, AllocError>
    ensures { IfOk result (λ command. app_of command ≡ command_app has.now) }
{
    let mut command = bare_command(alloc);
    let mut rest = has;
    while let [setting, others @ ..] = rest {
        command = command.arg(option_arg(alloc, *setting))?;
        rest = others;
    }
    command.arg(words_arg(alloc))
}

fn flag_match(text: &str) -> Matched
    ensures { result ≡ flag_match (bytes_eq text.now (codes "true")) }
{
    if text == "true" {
        Matched::Value(GivenValue::Number(0))
    } else {
        Matched::Absent
    }
}

fn value_match(alloc: Global, setting: Setting, text: &str) -> Result<Matched, AllocError>
    ensures { IfOk result (λ matched. matched ≡ value_match (given_value setting text.now)) }
{
    match given_value(alloc, setting, text.as_bytes())? {
        None => Ok(Matched::NoValue),
        Some(value) => Ok(Matched::Value(value)),
    }
}

/// What the text of an option in the matches says of it.
pub fn match_of(alloc: Global, setting: Setting, text: Option<&str>) -> Result<Matched, AllocError>
    ensures { IfOk result (λ matched. matched ≡ match_of setting (option_map (λ s. s.now) text.entry)) }
{
    match text {
        None => Ok(Matched::Absent),
        Some(text) => {
            if is_flag(setting) {
                Ok(flag_match(text))
            } else {
                value_match(alloc, setting, text)
            }
        }
    }
}
