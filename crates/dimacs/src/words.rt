//! What the words of a call ask for, read by `clap`.
ghost use Rattle.std.specs.Prelude.{◌≡◌, None, MatchOption, codes, option_map};
ghost use Rattle.clap.specs.Matches.{found_of};
ghost use Rattle.clap.specs.Walk.{first_of, rows_of};
ghost use Rattle.dimacs.specs.Asked.{IsJob, IsAsked};

use clap::{Arg, ArgAction, ArgMatches, Command, Error};
use std::alloc::{AllocError, Global};

/// What is to be done with a formula.
#[derive(Debug, Drop, Clone, Copy)]
pub enum Job<'a> {
    /// Say whether it can be met.
    Solve,
    /// The same, and keep the log of a refutation in this file.
    Keep(&'a str),
    /// Say whether the log in this file refutes it.
    Check(&'a str),
}

/// The file of a formula, and what is to be done with it.
#[derive(Debug, Drop, Clone, Copy)]
pub struct Asked<'a> {
    pub file: &'a str,
    pub job: Job<'a>,
}

fn file_arg<'a>(alloc: Global) -> Arg<'a> {
    Arg::new(alloc, "file")
        .value_name("FILE")
        .required(true)
        .action(ArgAction::Set)
        .help("the formula, in the DIMACS format")
}

fn log_arg<'a>(alloc: Global) -> Result<Arg<'a>, AllocError> {
    let log = Arg::new(alloc, "log")
        .long("log")
        .value_name("LOG")
        .action(ArgAction::Set)
        .help("keep the log of a refutation in this file");
    Ok(log.conflicts_with("check")?)
}

fn check_arg<'a>(alloc: Global) -> Arg<'a> {
    Arg::new(alloc, "check")
        .long("check")
        .value_name("LOG")
        .action(ArgAction::Set)
        .help("say whether the log in this file refutes the formula")
}

fn command<'a>(alloc: Global) -> Result<Command<'a>, AllocError> {
    let command = Command::new(alloc, "dimacs").arg(file_arg(alloc))?;
    let command = command.arg(log_arg(alloc)?)?;
    Ok(command.arg(check_arg(alloc))?)
}

/// The matches of the words, of which the first is the program's name.
pub fn matches_of<'a>(alloc: Global, words: &'a [String]) -> Result<ArgMatches<'a>, Error> {
    command(alloc)?.try_get_matches_from(words)
}

// The first value of an argument, by the rows of the matches.
fn text_of<'a>(matches: &ArgMatches<'a>, name: &str) -> Option<&'a str>
    ensures { option_map (λ text. text.now) result ≡ first_of name.now (rows_of (found_of matches.now)) }
{
    matches.get_str(name)
}

fn job_of<'a>(matches: &ArgMatches<'a>) -> Job<'a>
    ensures { IsJob (first_of (codes "log") (rows_of (found_of matches.now))) (first_of (codes "check") (rows_of (found_of matches.now))) result }
{
    match text_of(matches, "check") {
        Some(from) => Job::Check(from),
        None => match text_of(matches, "log") {
            Some(to) => Job::Keep(to),
            None => Job::Solve,
        },
    }
}

/// What the matches ask for; none where they name no file.
pub fn asked_of<'a>(matches: &ArgMatches<'a>) -> Option<Asked<'a>>
    ensures { MatchOption result (first_of (codes "file") (rows_of (found_of matches.now)) ≡ None) (IsAsked (rows_of (found_of matches.now))) }
{
    match text_of(matches, "file") {
        None => None,
        Some(file) => Some(Asked {
            file,
            job: job_of(matches),
        }),
    }
}
