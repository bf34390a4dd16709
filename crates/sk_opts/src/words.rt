//! The words behind a command, read by `clap`: options and positionals.
ghost use Rattle.std.specs.Prelude.{◌≡◌, map, IfOk};
ghost use Rattle.std.specs.String.{string_bytes};
ghost use Rattle.clap.specs.Lexer.{is_short_word};
ghost use Rattle.clap.specs.Matches.{found_of};
ghost use Rattle.clap.specs.Walk.{first_of, rows_of};
ghost use Rattle.sk_opts.specs.Reader.{words_of};
ghost use Rattle.sk_opts.specs.Matching.{setting_name, match_of, has_short_word, matched_settings, matched_positionals, matched_words, SameReading, IsOptions};
ghost use Rattle.sk_opts.specs.Steps.{GoesOnBy};

use crate::matching::{Matched, command_of, match_of, setting_name};
use crate::setting::{Given, Setting};
use clap::ArgMatches;
use clap::error::ErrorKind;
use sk_base::{List, Name};
use std::alloc::{AllocError, Global};

/// The settings and the positionals of words.
#[derive(Debug, Drop)]
pub struct Words {
    pub settings: List<Given>,
    pub positionals: List<Name>,
}

// One minus sign, and another byte behind it.
fn is_short_word(word: &[u8]) -> bool
    ensures { result ≡ is_short_word word.now }
{
    match word {
        [first, second, ..] => *first == b'-' && *second != b'-',
        _ => false,
    }
}

// Whether a word `-x` stands before `--`. No option has a name of one letter.
fn has_short_word(words: &[String]) -> bool
    ensures { result ≡ has_short_word (map string_bytes words.now) }
{
    let mut rest = words;
    while let [word, after @ ..] = rest {
        if word.as_bytes() == b"--".as_slice() {
            return false;
        }
        if is_short_word(word.as_bytes()) {
            return true;
        }
        rest = after;
    }
    false
}

fn with_match(
    settings: List<Given>,
    setting: Setting,
    matched: Matched,
) -> Result<Option<List<Given>>, AllocError>
    ensures { IfOk result (GoesOnBy settings setting matched) }
{
    let mut settings = settings;
    match matched {
        Matched::Absent => Ok(Some(settings)),
        Matched::Value(value) => {
            settings.push(Given { setting, value })?;
            Ok(Some(settings))
        }
        Matched::NoValue => Ok(None),
    }
}

fn matched_option(
    alloc: Global,
    matches: &ArgMatches<'_>,
    setting: Setting,
) -> Result<Matched, AllocError>
    ensures { IfOk result (λ matched. matched ≡ match_of setting (first_of (setting_name setting) (rows_of (found_of matches.now)))) }
{
    match_of(alloc, setting, matches.get_str(setting_name(setting)))
}

// One more option, with what the matches say of it.
fn with_option(
    alloc: Global,
    settings: List<Given>,
    setting: Setting,
    matches: &ArgMatches<'_>,
) -> Result<Option<List<Given>>, AllocError>
    ensures { IfOk result (GoesOnBy settings setting (match_of setting (first_of (setting_name setting) (rows_of (found_of matches.now))))) }
{
    let matched = matched_option(alloc, matches, setting)?;
    Ok(with_match(settings, setting, matched)?)
}

// What the matches give these options; none where a text is no value of its option.
fn matched_settings(
    alloc: Global,
    has: &[Setting],
    matches: &ArgMatches<'_>,
) -> Result<Option<List<Given>>, AllocError>
    ensures { IfOk result (λ settings. settings ≡ matched_settings has.now (rows_of (found_of matches.now))) }
{
    let mut settings = List::new(alloc);
    let mut rest = has;
    while let [setting, others @ ..] = rest {
        match with_option(alloc, settings, *setting, matches)? {
            None => return Ok(None),
            Some(more) => settings = more,
        }
        rest = others;
    }
    Ok(Some(settings))
}

fn names_of(alloc: Global, words: &[&str]) -> Result<List<Name>, AllocError>
    ensures { IfOk result (λ names. names ≡ map (λ w. w.now) words.now) }
{
    let mut names = List::new(alloc);
    let mut rest = words;
    while let [word, after @ ..] = rest {
        names.push(Name::from_slice(alloc, word.as_bytes())?)?;
        rest = after;
    }
    Ok(names)
}

fn matched_positionals(alloc: Global, matches: &ArgMatches<'_>) -> Result<List<Name>, AllocError>
    ensures { IfOk result (λ names. names ≡ matched_positionals (rows_of (found_of matches.now))) }
{
    match matches.get_strs("words") {
        None => Ok(List::new(alloc)),
        Some(words) => Ok(names_of(alloc, words)?),
    }
}

fn matched_words(
    alloc: Global,
    has: &[Setting],
    matches: &ArgMatches<'_>,
) -> Result<Option<Words>, AllocError>
    ensures { IfOk result (λ words. words ≡ matched_words has.now (rows_of (found_of matches.now))) }
{
    let positionals = matched_positionals(alloc, matches)?;
    match matched_settings(alloc, has, matches)? {
        None => Ok(None),
        Some(settings) => Ok(Some(Words {
            settings,
            positionals,
        })),
    }
}

/// The words behind a command that has these options, each at most once: each option has the value
/// that it has in the reading of the words one after the other, and the positionals are the same.
pub fn words_of(
    alloc: Global,
    has: &[Setting],
    words: &[String],
) -> Result<Option<Words>, AllocError>
    requires { IsOptions has.now }
    ensures { IfOk result (λ found. SameReading found (words_of has.now (map string_bytes words.now))) }
{
    if has_short_word(words) {
        return Ok(None);
    }
    match command_of(alloc, has)?.try_get_matches_from(words) {
        Ok(matches) => Ok(matched_words(alloc, has, &matches)?),
        Err(error) => match error.kind() {
            ErrorKind::OutOfMemory => Err(AllocError),
            _ => Ok(None),
        },
    }
}
