//! What blocks set: sources, sinks, which texts are run, what is compared, and whether a completion is run again.
ghost use Rattle.std.specs.Prelude.{◌<◌};

use row_files::{first_line, words_of};
use sk_base::List;
use std::alloc::{AllocError, Global};

/// How many bytes a source gives, or a sink takes, at a time, and which of its calls fail.
#[derive(Debug, Drop)]
pub struct Stream {
    pub step: u32,
    pub fails: List<u32>,
    ghost positive: { 0 < step },
}

/// Which texts are made of the text of a row.
#[derive(Debug, Clone, Copy, PartialEq, Eq, Drop)]
pub enum Texts {
    Whole,
    /// Each front of it, from the empty one to the whole.
    Fronts,
    /// Each of its bytes.
    Bytes,
}

/// What a row sets.
#[derive(Debug, Drop)]
pub struct Settings {
    pub source: Stream,
    pub sink: Stream,
    /// How many blanks the source gives behind the text.
    pub blanks: u32,
    /// Whether the source gives `Bytes(0)` where it has ended, in place of `End`.
    pub gives_zero: bool,
    /// Whether the sink refuses to make room.
    pub is_full: bool,
    /// Whether the streams are a reader and a writer, behind the adapters of standard input and output.
    pub adapted: bool,
    /// Whether the completion of the text is not to be completed again.
    pub once: bool,
    /// Whether what is told to people of the ending is compared, and not what is written.
    pub explained: bool,
    /// Whether what a watcher is told of the search is compared, and not what is written.
    pub counted: bool,
    pub texts: Texts,
}

impl Settings {
    /// Whether a stream fails, and it is what is written that is compared.
    pub fn is_damaged(&self) -> bool {
        let fails = self.is_full
            || !self.source.fails.as_slice().is_empty()
            || !self.sink.fails.as_slice().is_empty();
        fails && !self.explained && !self.counted
    }
}

// A stream that gives or takes all there is, and never fails.
fn calm(alloc: Global) -> Stream {
    Stream {
        step: u32::MAX,
        fails: List::new(alloc),
    }
}

// Numbers in decimal, up to the first word that is none.
fn numbers(alloc: Global, words: &[String]) -> Result<List<u32>, AllocError> {
    let mut found = List::new(alloc);
    for word in words {
        match word.as_str().parse::<u32>() {
            Ok(number) => found.push(number)?,
            Err(_) => break,
        }
    }
    Ok(found)
}

// The stream that words set: its step, the word `fails` and the numbers of the calls that fail.
fn make_stream(alloc: Global, step: &str, fails: &[String]) -> Result<Option<Stream>, AllocError> {
    let fails = numbers(alloc, fails)?;
    match step.parse::<u32>() {
        Ok(step) if step > 0 => Ok(Some(Stream { step, fails })),
        _ => Ok(None),
    }
}

// The words behind the word `fails`, if any stand there.
fn failing<'a>(words: &'a [String]) -> Option<&'a [String]> {
    match words {
        [] => Some(words),
        [word, numbers @ ..] if word.as_str() == "fails" => Some(numbers),
        _ => None,
    }
}

// Sets how many blanks stand behind the text; nothing is set where the word is no number.
fn set_blanks(settings: &mut Settings, count: &str) -> bool {
    match count.parse::<u32>() {
        Ok(blanks) => {
            settings.blanks = blanks;
            true
        }
        Err(_) => false,
    }
}

// Sets the stream of this name; nothing is set where there is none.
fn set_stream(settings: &mut Settings, name: &str, stream: Stream) -> bool {
    match name {
        "source" => {
            settings.source = stream;
            true
        }
        "sink" => {
            settings.sink = stream;
            true
        }
        _ => false,
    }
}

// Sets what a word alone sets; nothing is set where it sets nothing.
fn set_word(settings: &mut Settings, word: &str) -> bool {
    match word {
        "zero" => settings.gives_zero = true,
        "full" => settings.is_full = true,
        "once" => settings.once = true,
        "adapted" => settings.adapted = true,
        "explained" => settings.explained = true,
        "counted" => settings.counted = true,
        "fronts" => settings.texts = Texts::Fronts,
        "bytes" => settings.texts = Texts::Bytes,
        _ => return false,
    }
    true
}

// Whether words set something; nothing is set where they do not.
fn set(alloc: Global, settings: &mut Settings, words: &[String]) -> Result<bool, AllocError> {
    match words {
        [word] => Ok(set_word(settings, word.as_str())),
        [word, count] if word.as_str() == "blanks" => Ok(set_blanks(settings, count.as_str())),
        [name, step, rest @ ..] => set_numbers(alloc, settings, name.as_str(), step.as_str(), rest),
        _ => Ok(false),
    }
}

// The same of the words of a stream.
fn set_numbers(
    alloc: Global,
    settings: &mut Settings,
    name: &str,
    step: &str,
    rest: &[String],
) -> Result<bool, AllocError> {
    let Some(fails) = failing(rest) else {
        return Ok(false);
    };
    match make_stream(alloc, step, fails)? {
        Some(stream) => Ok(set_stream(settings, name, stream)),
        None => Ok(false),
    }
}

/// Streams that never fail, the whole text, and completions that are run again.
pub fn calm_settings(alloc: Global) -> Settings {
    Settings {
        source: calm(alloc),
        sink: calm(alloc),
        blanks: 0,
        gives_zero: false,
        is_full: false,
        adapted: false,
        once: false,
        explained: false,
        counted: false,
        texts: Texts::Whole,
    }
}

/// What lines set, beside those settings. There is nothing where one of them sets nothing.
pub fn settings_of(alloc: Global, lines: &[u8]) -> Result<Option<Settings>, AllocError> {
    let mut settings = calm_settings(alloc);
    let mut rest = lines;
    while let Some(first) = first_line(rest) {
        rest = first.rest;
        let words = words_of(alloc, first.line)?;
        if !set(alloc, &mut settings, words.as_slice())? {
            return Ok(None);
        }
    }
    Ok(Some(settings))
}
