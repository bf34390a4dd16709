//! A watcher that shows people that a search goes on.
use crate::lines::{better_line, push_counts, push_findings, push_times, shown_line};
use crate::shown::{is_due, is_looked};
use crate::statistics::Statistics;
use crate::times::Times;
use sk_explain_notes::Note;
use sk_watch::{News, Phase, Watch};
use std::alloc::{AllocError, Global};
use std::cell::Cell;
use std::io::Write;
use std::rt::Clock;
use std::time::Instant;

/// Brings the cursor to the beginning of its line.
const BACK: &[u8] = b"\r";

/// Erases what stands behind the cursor in its line.
const ERASED: &[u8] = b"\x1b[K";

/// Which lines people are shown while a search goes on.
#[derive(Clone, Copy, Debug, Drop)]
pub struct Wanted {
    /// The line that shows that it goes on.
    pub progress: bool,
    /// A line for each completion that is found with a value.
    pub better: bool,
}

/// A watcher that counts what it is told, and shows people that a search goes on. Where a line cannot be made or written, or the clock
/// does not tell, there is none.
#[derive(Drop)]
pub struct Watcher<'a, C, W> {
    alloc: Global,
    clock: &'a C,
    errors: W,
    wanted: Wanted,
    /// Whether the line that shows that a search goes on stands there.
    shown: &'a Cell<bool>,
    /// When it began; none where the clock failed.
    start: Option<Instant>,
    statistics: Statistics,
    times: Times,
    /// When the line was last written.
    written: Option<u64>,
}

/// Erases the line that shows that a search goes on, where it stands there.
pub fn clear<W: Write>(errors: &mut W, shown: &Cell<bool>) {
    if shown.get() {
        let _ = errors.write_all(BACK);
        let _ = errors.write_all(ERASED);
        shown.set(false);
    }
}

impl<'a, C: Clock, W: Write> Watcher<'a, C, W> {
    /// A watcher whose clock begins now. Whether its line stands there is kept where others can see it, to erase it before they write.
    pub fn new(
        alloc: Global,
        clock: &'a C,
        errors: W,
        wanted: Wanted,
        shown: &'a Cell<bool>,
    ) -> Watcher<'a, C, W> {
        Watcher {
            alloc,
            clock,
            errors,
            wanted,
            shown,
            start: Instant::now(clock).ok(),
            statistics: Statistics::new(),
            times: Times::new(),
            written: None,
        }
    }

    // How many milliseconds have passed since it began.
    fn now(&self) -> Option<u64> {
        let start = self.start?;
        match start.elapsed(self.clock) {
            Ok(time) => Some(time.as_millis().min(u128::from(u64::MAX)) as u64),
            Err(_) => None,
        }
    }

    // The same; a clock that fails is not asked again.
    fn read(&mut self) -> Option<u64> {
        let now = self.now();
        if now.is_none() {
            self.start = None;
        }
        now
    }

    // It is so late, and this part goes on.
    fn pass(&mut self, now: Option<u64>, phase: Option<Phase>) {
        if let Some(now) = now {
            self.times.pass(now, phase);
        }
    }

    // Writes the line that shows that a search goes on.
    fn show(&mut self, now: u64) {
        if let Ok(line) = shown_line(self.alloc, &self.statistics, now / 1000) {
            let _ = self.errors.write_all(line.as_slice());
            self.shown.set(true);
        }
        self.written = Some(now);
    }

    // Writes that line, where it is wanted and time for it.
    fn show_due(&mut self, now: Option<u64>) {
        if let Some(now) = now {
            if self.wanted.progress && is_due(self.written, now) {
                self.show(now);
            }
        }
    }

    // Writes the line of a completion that is found with a value.
    fn say_better(&mut self, value: u64, holes: &[u64]) {
        if let Ok(line) = better_line(self.alloc, value, holes) {
            clear(&mut self.errors, self.shown);
            let _ = self.errors.write_all(line.as_bytes());
        }
    }

    // Takes the time of a piece of news, and writes what is wanted of it.
    fn look(&mut self, news: News<'_>) {
        let now = self.read();
        match news {
            News::Phase(phase) => self.pass(now, Some(phase)),
            News::Better { value, holes } if self.wanted.better => self.say_better(value, holes),
            _ => {}
        }
        self.show_due(now);
    }

    /// The search is over: erases the line, and takes the time of the last part.
    pub fn finish(&mut self) {
        clear(&mut self.errors, self.shown);
        let now = self.read();
        self.pass(now, None);
    }

    // The lines of what was counted, and of the times where the clock told them.
    fn counts(&self) -> Result<Note, AllocError> {
        let mut note = Note::new(self.alloc);
        push_findings(&mut note, &self.statistics)?;
        push_counts(&mut note, &self.statistics)?;
        if self.start.is_some() {
            push_times(&mut note, &self.times)?;
        }
        Ok(note)
    }

    /// Writes what was counted, and how long the parts of the search took.
    pub fn say_counts(&mut self) {
        if let Ok(lines) = self.counts() {
            let _ = self.errors.write_all(lines.as_bytes());
        }
    }
}

impl<'a, C: Clock, W: Write> Watch for Watcher<'a, C, W> {
    /// Counts what is told, and shows what is wanted of it.
    fn tell(&mut self, news: News<'_>) {
        self.statistics.tell(news);
        if is_looked(news, self.statistics.conflicts) {
            self.look(news);
        }
    }
}
