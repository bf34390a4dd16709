//! Which lines for people are wanted, as the environment says.
use sk_explain_search::Wanted;
use std::env;
use std::io::IsTerminal;

/// What an environment variable says by `1` or `0`.
fn said(rt: &HostRuntime, name: &str) -> Option<bool> {
    match env::var(rt, name) {
        Ok(word) if word.as_str() == "1" => Some(true),
        Ok(word) if word.as_str() == "0" => Some(false),
        _ => None,
    }
}

// What an environment variable says, and else whether standard error is a terminal.
fn said_or_seen(rt: &HostRuntime, name: &str) -> bool {
    match said(rt, name) {
        Some(it) => it,
        None => rt.stderr().is_terminal(),
    }
}

/// Whether lines for people are written: the environment variable `SKETCH_EXPLAIN` says so by `1` or `0`, and else they
/// are where standard error is a terminal.
pub fn is_explained(rt: &HostRuntime) -> bool {
    said_or_seen(rt, "SKETCH_EXPLAIN")
}

/// Whether it is written at the end what was counted: the environment variable `SKETCH_STATS` says so by `1`.
pub fn is_counted(rt: &HostRuntime) -> bool {
    said(rt, "SKETCH_STATS") == Some(true)
}

/// What is shown while a search goes on: a line that it does, as the environment variable `SKETCH_PROGRESS` says by `1` or `0`, and else
/// where standard error is a terminal; and better completions, where lines for people are written.
pub fn wanted(rt: &HostRuntime) -> Wanted {
    Wanted {
        progress: said_or_seen(rt, "SKETCH_PROGRESS"),
        better: is_explained(rt),
    }
}
