//! The commands and their options.
ghost use Rattle.std.specs.Prelude.{◌≡◌};
ghost use Rattle.sk_explain_notes.specs.Options.{command_word, command_range, command_among, command_of, choice_name, choice_among, choice_of, is_holes, is_bound, is_of_pragmas, command_has, choice_bit, one_of, choice_takes, range_of, range_has, takes_word};

use crate::numbers::{are_numbers, number_of};

/// A command.
#[derive(Debug, Clone, Copy, PartialEq, Eq)]
pub enum Command {
    Synth,
    Exec,
    Trace,
    Lower,
    Prune,
    All,
    Why,
    Check,
    Itself,
}

impl Command {
    /// The command that a word is.
    pub fn of(word: &[u8]) -> Option<Command>
        ensures { result ≡ command_of word.now }
    {
        command_among(&COMMANDS, word)
    }

    /// The word of a command.
    pub fn word(self) -> &'static [u8]
        ensures { result.now ≡ command_word self }
    {
        match self {
            Command::Synth => b"synth",
            Command::Exec => b"exec",
            Command::Trace => b"trace",
            Command::Lower => b"lower",
            Command::Prune => b"prune",
            Command::All => b"all",
            Command::Why => b"why",
            Command::Check => b"check",
            Command::Itself => b"self",
        }
    }

    /// Whether it has an option.
    pub fn has(self, choice: Choice) -> bool
        ensures { result ≡ command_has self choice }
    {
        match self {
            Command::Synth => !choice.is_holes(),
            Command::Trace => choice.is_holes() || choice.is_bound(),
            Command::Exec | Command::Lower | Command::Prune => choice.is_bound(),
            Command::Check => choice.is_bound(),
            Command::All | Command::Why => choice.is_bound(),
            Command::Itself => false,
        }
    }

    /// The numbers that it takes, where it takes one.
    pub fn range(self) -> Range
        ensures { result ≡ command_range self }
    {
        match self {
            Command::All => Range { low: 1, high: 100 },
            Command::Synth | Command::Exec | Command::Trace => Range { low: 0, high: 60 },
            Command::Lower | Command::Prune | Command::Why => Range { low: 0, high: 60 },
            Command::Check | Command::Itself => Range { low: 0, high: 60 },
        }
    }
}

/// All commands.
const COMMANDS: [Command; 9] = [
    Command::Synth,
    Command::Exec,
    Command::Trace,
    Command::Lower,
    Command::Prune,
    Command::All,
    Command::Why,
    Command::Check,
    Command::Itself,
];

// The one of these commands that a word is.
fn command_among(commands: &[Command], word: &[u8]) -> Option<Command>
    ensures { result ≡ command_among commands.now word.now }
{
    let mut rest = commands;
    while let [command, others @ ..] = rest {
        if word == command.word() {
            return Some(*command);
        }
        rest = others;
    }
    None
}

/// An option.
#[derive(Debug, Clone, Copy, PartialEq, Eq)]
pub enum Choice {
    HoleBits,
    InputBits,
    Turns,
    Calls,
    IntBits,
    Rounds,
    Conflicts,
    Certificate,
    Holes,
}

/// All options.
pub const CHOICES: [Choice; 9] = [
    Choice::HoleBits,
    Choice::InputBits,
    Choice::Turns,
    Choice::Calls,
    Choice::IntBits,
    Choice::Rounds,
    Choice::Conflicts,
    Choice::Certificate,
    Choice::Holes,
];

/// The numbers that an option takes.
#[derive(Debug, Clone, Copy, PartialEq, Eq)]
pub struct Range {
    pub low: u64,
    pub high: u64,
}

/// What stands behind an option.
#[derive(Debug, Clone, Copy, PartialEq, Eq)]
pub enum Takes {
    Nothing,
    Number(Range),
    /// Numbers with commas between them.
    Numbers,
}

impl Choice {
    /// How it is spelt.
    pub fn name(self) -> &'static [u8]
        ensures { result.now ≡ choice_name self }
    {
        match self {
            Choice::HoleBits => b"--bnd-cbits",
            Choice::InputBits => b"--bnd-inbits",
            Choice::Turns => b"--bnd-unroll-amnt",
            Choice::Calls => b"--bnd-inline-amnt",
            Choice::IntBits => b"--int-bits",
            Choice::Rounds => b"--rounds",
            Choice::Conflicts => b"--conflicts",
            Choice::Certificate => b"--cert",
            Choice::Holes => b"--holes",
        }
    }

    /// The option that is spelt so.
    pub fn of(word: &[u8]) -> Option<Choice>
        ensures { result ≡ choice_of word.now }
    {
        choice_among(&CHOICES, word)
    }

    /// What stands behind it.
    pub fn takes(self) -> Takes
        ensures { result ≡ choice_takes self }
    {
        match self {
            Choice::HoleBits | Choice::InputBits | Choice::Calls => number(1, 16),
            Choice::Turns => number(0, 64),
            Choice::IntBits => number(6, 32),
            Choice::Rounds => number(0, 1_000_000),
            Choice::Conflicts => number(0, 1_000_000_000),
            Choice::Certificate => Takes::Nothing,
            Choice::Holes => Takes::Numbers,
        }
    }

    /// The numbers of which it takes one; none where it takes no single number.
    pub fn range(self) -> Option<Range>
        ensures { result ≡ range_of (choice_takes self) }
    {
        match self.takes() {
            Takes::Number(range) => Some(range),
            Takes::Nothing | Takes::Numbers => None,
        }
    }

    /// Whether it sets a bound. These all commands but `self` have too.
    pub fn is_bound(self) -> bool
        ensures { result ≡ is_bound self }
    {
        match self {
            Choice::HoleBits
            | Choice::InputBits
            | Choice::Turns
            | Choice::Calls
            | Choice::IntBits => true,
            Choice::Rounds | Choice::Conflicts | Choice::Certificate | Choice::Holes => false,
        }
    }

    /// Whether a pragma can set it.
    pub fn is_of_pragmas(self) -> bool
        ensures { result ≡ is_of_pragmas self }
    {
        match self {
            Choice::HoleBits | Choice::InputBits | Choice::Turns | Choice::Calls => true,
            Choice::IntBits | Choice::Rounds | Choice::Conflicts => false,
            Choice::Certificate | Choice::Holes => false,
        }
    }

    // Whether it is the one that takes numbers with commas between them.
    fn is_holes(self) -> bool
        ensures { result ≡ is_holes self }
    {
        match self {
            Choice::Holes => true,
            Choice::HoleBits | Choice::InputBits | Choice::Turns | Choice::Calls => false,
            Choice::IntBits | Choice::Rounds | Choice::Conflicts | Choice::Certificate => false,
        }
    }

    /// A bit that no other option has.
    pub fn bit(self) -> u32
        ensures { result ≡ choice_bit self }
    {
        match self {
            Choice::HoleBits => 1,
            Choice::InputBits => 2,
            Choice::Turns => 4,
            Choice::Calls => 8,
            Choice::IntBits => 16,
            Choice::Rounds => 32,
            Choice::Conflicts => 64,
            Choice::Certificate => 128,
            Choice::Holes => 256,
        }
    }
}

// The one of these options that is spelt so.
fn choice_among(choices: &[Choice], word: &[u8]) -> Option<Choice>
    ensures { result ≡ choice_among choices.now word.now }
{
    let mut rest = choices;
    while let [choice, others @ ..] = rest {
        if word == choice.name() {
            return Some(*choice);
        }
        rest = others;
    }
    None
}

// One number from `low` to `high`.
fn number(low: u64, high: u64) -> Takes
    ensures { result ≡ one_of low high }
{
    Takes::Number(Range { low, high })
}

impl Takes {
    /// Whether a word is what stands behind the option.
    pub fn has(self, word: &[u8]) -> bool
        ensures { result ≡ takes_word self word.now }
    {
        match self {
            Takes::Nothing => false,
            Takes::Number(range) => range.has(word),
            Takes::Numbers => are_numbers(word),
        }
    }
}

impl Range {
    /// Whether a word spells one of the numbers.
    pub fn has(self, word: &[u8]) -> bool
        ensures { result ≡ range_has self word.now }
    {
        match number_of(word) {
            Some(number) => self.low <= number && number <= self.high,
            None => false,
        }
    }
}
