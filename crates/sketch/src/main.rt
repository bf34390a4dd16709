//! The Sketch synthesiser: reads a sketch from standard input, and writes it completed to standard
//! output.
#![tactic(auto)]

mod wanted;

ghost use Rattle.std.specs.Prelude.{◌≡◌};
ghost use Rattle.sk_app.specs.Ending.{status_of};

use sk_app::{Ending, StdSink, StdSource, message, run, status};
use sk_explain::{KeptSink, KeptSource, explain};
use sk_explain_search::{ClearingSink, Watcher};
use sk_stack::{least_message, short_of_process};
use std::cell::Cell;
use std::env;
use std::io::Write;
use std::process::ExitCode;
use wanted::{is_counted, is_explained, wanted};

/// The status where the runtime does not give the words.
const NO_WORDS: u8 = 24;
/// The status where the stack may take less than a run needs: that of want of memory.
const SMALL_STACK: u8 = 17;
/// The first status that a line on standard error tells more of.
const FIRST_TOLD: u8 = 10;

/// Writes a line to standard error. Where that fails, nothing else is to be done.
fn say(errors: &mut impl Write, line: &[u8]) {
    let _ = errors.write_all(line);
    let _ = errors.write_all(b"\n");
}

/// Says that the stack may take no more than this, and answers the status to end with, also where there is no memory for the line.
fn small_stack(rt: &HostRuntime, limit: u64) -> u8
    ensures { result ≡ 17 }
{
    if let Ok(line) = least_message(rt.alloc(), limit) {
        say(&mut rt.stderr(), line.as_slice());
    }
    SMALL_STACK
}

/// Says what an ending has to say, and answers the status to end with: the ending's, also where there is no memory for the line.
fn ended(rt: &HostRuntime, ending: &Ending) -> u8
    ensures { result ≡ status_of ending.now }
{
    let code = status(ending);
    if code >= FIRST_TOLD {
        if let Ok(line) = message(rt.alloc(), ending) {
            say(&mut rt.stderr(), line.as_bytes());
        }
    }
    code
}

/// Writes the lines for people, where there was memory for the text that was read and the answer that was written. They change
/// nothing else: where they cannot be made or written, there are none.
fn say_more(
    rt: &HostRuntime,
    words: &[String],
    text: Option<&[u8]>,
    answer: Option<&[u8]>,
    ending: &Ending,
) {
    if let (Some(text), Some(answer)) = (text, answer) {
        if let Ok(lines) = explain(rt.alloc(), words, text, answer, ending) {
            let _ = rt.stderr().write_all(lines.as_bytes());
        }
    }
}

fn main(rt: HostRuntime) -> ExitCode {
    if let Some(limit) = short_of_process(&rt) {
        return ExitCode::from(small_stack(&rt, limit));
    }
    let alloc = rt.alloc();
    let Ok(words) = words(&rt) else {
        say(&mut rt.stderr(), b"no words");
        return ExitCode::from(NO_WORDS);
    };
    let shown = Cell::new(false);
    let mut watcher = Watcher::new(alloc, &rt, rt.stderr(), wanted(&rt), &shown);
    let mut source = KeptSource::new(alloc, StdSource::new(rt.stdin()));
    let output = StdSink::new(rt.stdout());
    let mut sink = KeptSink::new(alloc, ClearingSink::new(output, rt.stderr(), &shown));
    let ending = run(
        alloc,
        words.as_slice(),
        &mut source,
        &mut sink,
        &mut watcher,
    );
    watcher.finish();
    let code = ended(&rt, &ending);
    if is_explained(&rt) {
        say_more(&rt, words.as_slice(), source.kept(), sink.kept(), &ending);
    }
    if is_counted(&rt) {
        watcher.say_counts();
    }
    ExitCode::from(code)
}

/// The words behind the program's own name.
fn words(rt: &HostRuntime) -> std::io::Result<Vec<String>> {
    let mut words = Vec::new(rt.alloc());
    for word in env::args(rt)?.skip(1) {
        words.push(word)?;
    }
    Ok(words)
}
