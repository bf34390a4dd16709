//! Why words are no command line: the first word that is not as it should be.
ghost use Rattle.std.specs.Prelude.{◌≡◌, ◌&&◌, not, map, option_map, is_some};
ghost use Rattle.std.specs.String.{string_bytes};
ghost use Rattle.sk_explain_notes.specs.Numbers.{front_of, back_of};
ghost use Rattle.sk_explain_notes.specs.Options.{choice_takes, choice_of};
ghost use Rattle.sk_explain_notes.specs.Slips.{wrong_of, of_none, is_option, is_lonely, value_slip, given_slip, is_seen, choice_slip, option_slip, number_slip, other_slip, is_other, free_slip, word_slip, awaited, see_choice, see_free, see, wants_word, end_slip, slip_from, begun, lonely_slip, first_slip, slip_of};

use crate::numbers::parts_at;
use crate::options::{Choice, Command, Takes};

/// What is wrong with words.
#[derive(Debug, Clone, Copy, PartialEq, Eq)]
pub enum Slip {
    /// There are none.
    NoWords,
    /// The first word is no command.
    NoCommand,
    /// An option stands before the command.
    Early(Choice),
    /// `--help` or `--version` stands beside other words.
    NotAlone,
    /// The command has no such option.
    NoOption(Command),
    /// The option is of other commands.
    OfOthers(Command, Choice),
    /// The option has no value.
    NoValue(Choice),
    /// The value is none of the option.
    BadValue(Choice),
    /// The option takes no value.
    Valued(Choice),
    /// The option stands twice.
    Twice(Choice),
    /// The command takes no such word.
    Extra(Command),
    /// The command wants a word more.
    Missing(Command),
    /// The word is none of the numbers that the command takes.
    BadNumber(Command),
    /// Nothing: they are a line.
    Nothing,
}

/// A slip, with the word or the value that it is of; no bytes where it is of none.
#[derive(Debug, Clone, Copy, PartialEq, Eq)]
pub struct Found<'a> {
    pub slip: Slip,
    pub word: &'a [u8],
}

// What was seen of the words behind a command.
#[derive(Debug, Clone, Copy)]
struct Walk {
    command: Command,
    // The option whose value comes next.
    waiting: Option<Choice>,
    // Whether `--` has ended the options.
    ended: bool,
    // The bits of the options.
    seen: u32,
    // Whether a word stood there that is no option.
    others: bool,
}

// Whether a word is an option.
fn is_option(word: &[u8]) -> bool
    ensures { result ≡ is_option word.now }
{
    match word {
        [first, _, ..] => *first == b'-',
        _ => false,
    }
}

/// The front of a word before its first `=`, and what stands behind that.
pub fn halves<'a>(word: &'a [u8]) -> (&'a [u8], Option<&'a [u8]>)
    ensures front { result.0.now ≡ front_of 61 word.now }
    ensures back { option_map (λ back. back.now) result.1 ≡ back_of 61 word.now }
{
    parts_at(b'=', word)
}

// What is wrong with a value.
fn value_slip<'a>(choice: Choice, value: &'a [u8]) -> Option<Found<'a>>
    ensures { option_map wrong_of result ≡ value_slip choice value.now }
{
    if choice.takes().has(value) {
        None
    } else {
        Some(Found {
            slip: Slip::BadValue(choice),
            word: value,
        })
    }
}

// What is wrong with an option, with the value that stands in its word.
fn given_slip<'a>(choice: Choice, value: Option<&'a [u8]>) -> Option<Found<'a>>
    ensures { option_map wrong_of result ≡ given_slip choice (choice_takes choice) (option_map (λ value. value.now) value.entry) }
{
    match (choice.takes(), value) {
        (Takes::Nothing, Some(_)) => Some(Found {
            slip: Slip::Valued(choice),
            word: b"",
        }),
        (Takes::Number(_) | Takes::Numbers, Some(value)) => value_slip(choice, value),
        (Takes::Nothing | Takes::Number(_) | Takes::Numbers, None) => None,
    }
}

// The option whose value comes next, behind one with or without a value in its word.
fn awaited(choice: Choice, has_value: bool) -> Option<Choice>
    ensures { result ≡ awaited choice (choice_takes choice) has_value }
{
    match choice.takes() {
        Takes::Nothing => None,
        Takes::Number(_) | Takes::Numbers => if has_value { None } else { Some(choice) },
    }
}

impl Walk {
    // Whether an option stood there before.
    fn has_seen(&self, choice: Choice) -> bool
        ensures { result ≡ is_seen self.now.seen choice }
    {
        self.seen & choice.bit() != 0
    }

    // What is wrong with an option.
    fn option_slip<'a>(&self, word: &'a [u8]) -> Option<Found<'a>>
        ensures { option_map wrong_of result ≡ option_slip self.now word.now }
    {
        if is_lonely(word) {
            return Some(Found {
                slip: Slip::NotAlone,
                word,
            });
        }
        let (name, value) = halves(word);
        match Choice::of(name) {
            None => Some(Found {
                slip: Slip::NoOption(self.command),
                word,
            }),
            Some(choice) => self.choice_slip(choice, value),
        }
    }

    // What is wrong with an option of this name.
    fn choice_slip<'a>(&self, choice: Choice, value: Option<&'a [u8]>) -> Option<Found<'a>>
        ensures { option_map wrong_of result ≡ choice_slip self.now choice (option_map (λ value. value.now) value.entry) }
    {
        if !self.command.has(choice) {
            return Some(Found {
                slip: Slip::OfOthers(self.command, choice),
                word: b"",
            });
        }
        if self.has_seen(choice) {
            return Some(Found {
                slip: Slip::Twice(choice),
                word: b"",
            });
        }
        given_slip(choice, value)
    }

    // What is wrong with a word that is no option.
    fn other_slip<'a>(&self, word: &'a [u8]) -> Option<Found<'a>>
        ensures { option_map wrong_of result ≡ other_slip self.now.command self.now.others word.now }
    {
        match self.command {
            Command::Exec | Command::Trace => None,
            Command::Synth | Command::Lower | Command::Prune => Some(Found {
                slip: Slip::Extra(self.command),
                word,
            }),
            Command::Why | Command::Check => Some(Found {
                slip: Slip::Extra(self.command),
                word,
            }),
            Command::All | Command::Itself => {
                if self.others {
                    Some(Found {
                        slip: Slip::Extra(self.command),
                        word,
                    })
                } else {
                    number_slip(self.command, word)
                }
            }
        }
    }

    // Whether a word is taken as no option.
    fn is_other(&self, word: &[u8]) -> bool
        ensures { result ≡ is_other self.now word.now }
    {
        self.ended || !is_option(word)
    }

    // What is wrong with the next word.
    fn slip<'a>(&self, word: &'a [u8]) -> Option<Found<'a>>
        ensures { option_map wrong_of result ≡ word_slip self.now word.now }
    {
        match self.waiting {
            Some(choice) => value_slip(choice, word),
            None => self.free_slip(word),
        }
    }

    // What is wrong with a word that is no value.
    fn free_slip<'a>(&self, word: &'a [u8]) -> Option<Found<'a>>
        ensures { option_map wrong_of result ≡ free_slip self.now word.now }
    {
        if self.is_other(word) {
            return self.other_slip(word);
        }
        if word == b"--".as_slice() {
            return None;
        }
        self.option_slip(word)
    }

    // What was seen with a word that is an option, or none.
    fn see_choice(self, word: &[u8]) -> Walk
        ensures { result ≡ see_choice self (choice_of (front_of 61 word.now)) (is_some (back_of 61 word.now)) }
    {
        let (name, value) = halves(word);
        match Choice::of(name) {
            None => self,
            Some(choice) => Walk {
                waiting: awaited(choice, value.is_some()),
                seen: self.seen | choice.bit(),
                ..self
            },
        }
    }

    // What was seen with the next word.
    fn see(self, word: &[u8]) -> Walk
        ensures { result ≡ see self word.now }
    {
        match self.waiting {
            Some(_) => Walk {
                waiting: None,
                ..self
            },
            None => self.see_free(word),
        }
    }

    // What was seen with a word that is no value.
    fn see_free(self, word: &[u8]) -> Walk
        ensures { result ≡ see_free self word.now }
    {
        if self.is_other(word) {
            return Walk {
                others: true,
                ..self
            };
        }
        if word == b"--".as_slice() {
            return Walk {
                ended: true,
                ..self
            };
        }
        self.see_choice(word)
    }

    // Whether a word is wanting that is no option.
    fn wants_word(&self) -> bool
        ensures { result ≡ (wants_word self.now.command && not self.now.others) }
    {
        match self.command {
            Command::Exec | Command::Trace => !self.others,
            Command::All | Command::Itself => !self.others,
            Command::Synth | Command::Lower | Command::Prune => false,
            Command::Why | Command::Check => false,
        }
    }

    // What is wanting behind the last word.
    fn end(&self) -> Slip
        ensures { of_none result ≡ end_slip self.now }
    {
        match self.waiting {
            Some(choice) => Slip::NoValue(choice),
            None => {
                if self.wants_word() {
                    Slip::Missing(self.command)
                } else {
                    Slip::Nothing
                }
            }
        }
    }
}

// What is wrong with a word that is to be a number of a command.
fn number_slip<'a>(command: Command, word: &'a [u8]) -> Option<Found<'a>>
    ensures { option_map wrong_of result ≡ number_slip command word.now }
{
    let range = command.range();
    if range.has(word) {
        None
    } else {
        Some(Found {
            slip: Slip::BadNumber(command),
            word,
        })
    }
}

// A word that is a line of its own.
fn is_lonely(word: &[u8]) -> bool
    ensures { result ≡ is_lonely word.now }
{
    word == b"--help".as_slice() || word == b"--version".as_slice()
}

// What is wrong with a first word that is no command.
fn first_slip<'a>(word: &'a [u8], behind: &[String]) -> Found<'a>
    ensures { wrong_of result ≡ first_slip word.now (map string_bytes behind.now) }
{
    if is_lonely(word) {
        return lonely_slip(word, behind);
    }
    let (name, _) = halves(word);
    match Choice::of(name) {
        Some(choice) => Found {
            slip: Slip::Early(choice),
            word: b"",
        },
        None => Found {
            slip: Slip::NoCommand,
            word,
        },
    }
}

// What is wrong with a word that is a line of its own.
fn lonely_slip<'a>(word: &'a [u8], behind: &[String]) -> Found<'a>
    ensures { wrong_of result ≡ lonely_slip word.now (map string_bytes behind.now) }
{
    match behind.split_first() {
        None => Found {
            slip: Slip::Nothing,
            word: b"",
        },
        Some(_) => Found {
            slip: Slip::NotAlone,
            word,
        },
    }
}

// What is wrong with the words behind a command, where so much was seen before.
fn slip_from<'a>(walk: Walk, words: &'a [String]) -> Found<'a>
    ensures { wrong_of result ≡ slip_from walk (map string_bytes words.now) }
{
    let mut seen = walk;
    let mut rest = words;
    while let Some((word, behind)) = rest.split_first() {
        if let Some(found) = seen.slip(word.as_bytes()) {
            return found;
        }
        seen = seen.see(word.as_bytes());
        rest = behind;
    }
    Found {
        slip: seen.end(),
        word: b"",
    }
}

/// What is wrong with words, from the left.
pub fn slip_of<'a>(words: &'a [String]) -> Found<'a>
    ensures slip { result.slip ≡ (slip_of (map string_bytes words.now)).slip }
    ensures word { result.word.now ≡ (slip_of (map string_bytes words.now)).word }
{
    let Some((first, behind)) = words.split_first() else {
        return Found {
            slip: Slip::NoWords,
            word: b"",
        };
    };
    match Command::of(first.as_bytes()) {
        None => first_slip(first.as_bytes(), behind),
        Some(command) => slip_from(begun(command), behind),
    }
}

// Nothing was seen behind a command.
fn begun(command: Command) -> Walk
    ensures { result ≡ begun command }
{
    Walk {
        command,
        waiting: None,
        ended: false,
        seen: 0,
        others: false,
    }
}
