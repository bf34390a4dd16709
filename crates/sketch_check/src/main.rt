//! The checker of certificates: reads a sketch and its certificate from standard input, and writes to standard output whether the
//! certificate is right.
#![tactic(auto)]

ghost use Rattle.std.specs.Prelude.{◌≡◌};
ghost use Rattle.sk_check_app.specs.Ending.{status_of};

use sk_check_app::{Ending, StdSink, StdSource, judge, message, status};
use sk_stack::{least_message, short_of_process};
use std::env;
use std::io::Write;
use std::process::ExitCode;

/// The status where the runtime does not give the words.
const NO_WORDS: u8 = 24;
/// The status where the stack may take less than a run needs: that of want of memory.
const SMALL_STACK: u8 = 17;
/// The first status that a line on standard error tells more of.
const FIRST_TOLD: u8 = 10;

/// Writes a line to standard error. Where that fails, nothing else is to be done.
fn say(errors: &mut impl Write, line: &[u8]) {
    let _ = errors.write_all(line);
    let _ = errors.write_all(b"\n");
}

/// Says that the stack may take no more than this, and answers the status to end with, also where there is no memory for the line.
fn small_stack(rt: &HostRuntime, limit: u64) -> u8
    ensures { result ≡ 17 }
{
    if let Ok(line) = least_message(rt.alloc(), limit) {
        say(&mut rt.stderr(), line.as_slice());
    }
    SMALL_STACK
}

/// Says what an ending has to say, and answers the status to end with: the ending's, also where there is no memory for the line.
fn ended(rt: &HostRuntime, ending: &Ending) -> u8
    ensures { result ≡ status_of ending.now }
{
    let code = status(ending);
    if code >= FIRST_TOLD {
        if let Ok(line) = message(rt.alloc(), ending) {
            say(&mut rt.stderr(), line.as_bytes());
        }
    }
    code
}

fn main(rt: HostRuntime) -> ExitCode {
    if let Some(limit) = short_of_process(&rt) {
        return ExitCode::from(small_stack(&rt, limit));
    }
    let Ok(words) = words(&rt) else {
        say(&mut rt.stderr(), b"no words");
        return ExitCode::from(NO_WORDS);
    };
    let mut source = StdSource::new(rt.stdin());
    let mut sink = StdSink::new(rt.stdout());
    let ending = judge(rt.alloc(), words.as_slice(), &mut source, &mut sink);
    let code = ended(&rt, &ending);
    ExitCode::from(code)
}

/// The words behind the program's own name.
fn words(rt: &HostRuntime) -> std::io::Result<Vec<String>> {
    let mut words = Vec::new(rt.alloc());
    for word in env::args(rt)?.skip(1) {
        words.push(word)?;
    }
    Ok(words)
}
