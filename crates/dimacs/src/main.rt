//! Reads a formula in the DIMACS format from a file and says whether it can be met, as SAT solvers do: `dimacs FILE`
//! prints `s SATISFIABLE` with a line `v`, or `s UNSATISFIABLE`, and ends with status 10 or 20. With `--log LOG` it
//! also writes the log of a refutation to a file, a clause a line. `dimacs FILE --check LOG` says whether such a log
//! refutes the formula, and ends with status 0 or 1. A file in another form gets a message with its line, and status 1.
#![tactic(auto)]

mod solve;
#[cfg(test)]
mod tests;
mod words;

use crate::solve::{Verdict, solve};
use crate::words::{Asked, Job, asked_of, matches_of};
use clap::Error;
use dimacs_text::{Fault, log_text, read_clauses, read_log, value_text};
use itoa::Buffer;
use sk_clause::{Clauses, Log};
use sk_rup::refutes;
use std::process::ExitCode;
use std::{env, fs, io};

// Says what is wrong in a file.
fn refuse(rt: &HostRuntime, path: &str, fault: Fault) -> io::Result<ExitCode> {
    eprintln!(rt; "{path}:{fault}")?;
    Ok(ExitCode::from(1))
}

// Writes the log to a file, if one is wanted.
fn keep(rt: &HostRuntime, to: Option<&str>, log: &Log) -> io::Result<()> {
    if let Some(path) = to {
        let text = log_text(rt.alloc(), log)?;
        fs::write(rt, path, text.as_str())?;
    }
    Ok(())
}

// Says whether the clauses can be met.
fn answer(rt: &HostRuntime, clauses: &Clauses, log_path: Option<&str>) -> io::Result<ExitCode> {
    let found = solve(rt.alloc(), clauses)?;
    let mut buffer = Buffer::new();
    let learnt = buffer.format(found.learnt);
    println!(rt; "c {learnt} clauses learnt")?;
    match found.verdict {
        Verdict::Sat(values) => {
            let text = value_text(rt.alloc(), values.as_slice())?;
            println!(rt; "s SATISFIABLE\n{text}")?;
            Ok(ExitCode::from(10))
        }
        Verdict::Unsat(log) => {
            keep(rt, log_path, &log)?;
            println!(rt; "s UNSATISFIABLE")?;
            Ok(ExitCode::from(20))
        }
    }
}

// Says whether a log refutes the clauses.
fn check(rt: &HostRuntime, clauses: &Clauses, path: &str) -> io::Result<ExitCode> {
    let text = fs::read_to_string(rt, path)?;
    match read_log(rt.alloc(), text.as_str()) {
        Ok(log) => {
            if refutes(rt.alloc(), clauses, &log)? {
                println!(rt; "s VERIFIED")?;
                Ok(ExitCode::from(0))
            } else {
                println!(rt; "s NOT VERIFIED")?;
                Ok(ExitCode::from(1))
            }
        }
        Err(fault) => refuse(rt, path, fault),
    }
}

// Does what was asked for.
fn run(rt: &HostRuntime, asked: Asked<'_>) -> io::Result<ExitCode> {
    let text = fs::read_to_string(rt, asked.file)?;
    match read_clauses(rt.alloc(), text.as_str()) {
        Ok(clauses) => match asked.job {
            Job::Solve => answer(rt, &clauses, None),
            Job::Keep(to) => answer(rt, &clauses, Some(to)),
            Job::Check(from) => check(rt, &clauses, from),
        },
        Err(fault) => refuse(rt, asked.file, fault),
    }
}

// Says what is wrong in the words, or how they are used.
fn tell(rt: &HostRuntime, error: &Error) -> io::Result<ExitCode> {
    error.print(rt)?;
    Ok(ExitCode::from(if error.use_stderr() { 1 } else { 0 }))
}

// The words of the call, the program's name first.
fn words_given(rt: &HostRuntime) -> io::Result<Vec<String>> {
    let mut words = Vec::new(rt.alloc());
    for word in env::args(rt)? {
        words.push(word)?;
    }
    Ok(words)
}

fn main(rt: HostRuntime) -> io::Result<ExitCode> {
    let words = words_given(&rt)?;
    match matches_of(rt.alloc(), words.as_slice()) {
        Ok(matches) => match asked_of(&matches) {
            Some(asked) => run(&rt, asked),
            // the file is required, so this is never reached
            None => Ok(ExitCode::from(1)),
        },
        Err(error) => tell(&rt, &error),
    }
}
