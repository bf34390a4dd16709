//! What people see of news, on a clock that moves by itself.
use crate::{ClearingSink, Wanted, Watcher};
use sk_base::{List, MemSink, Put, Sink};
use sk_watch::{News, Phase, Watch};
use std::alloc::{AllocError, Global};
use std::cell::Cell;
use std::io;
use std::rt::Clock;
use std::test::Fail;
use std::time::Duration;

/// A clock that moves on by so many milliseconds where it is looked at.
#[derive(Drop)]
struct Moving {
    now: Cell<u64>,
    step: u64,
}

impl Clock for Moving {
    fn monotonic(&self) -> io::Result<Duration> {
        let now = self.now.get();
        self.now.set(now.saturating_add(self.step));
        Ok(Duration::from_millis(now))
    }

    fn since_1970(&self) -> io::Result<Duration> {
        self.monotonic()
    }
}

fn clock_of(step: u64) -> Moving {
    Moving {
        now: Cell::new(0),
        step,
    }
}

const BOTH: Wanted = Wanted {
    progress: true,
    better: true,
};

// What a watcher writes of a short search.
fn seen(alloc: Global, clock: &Moving, wanted: Wanted) -> Result<Vec<u8>, AllocError> {
    let shown = Cell::new(false);
    let mut out = Vec::new(alloc);
    let mut watcher = Watcher::new(alloc, clock, &mut out, wanted, &shown);
    watcher.tell(News::Phase(Phase::Proposing));
    watcher.tell(News::Graph { nodes: 50 });
    watcher.tell(News::Graph { nodes: 20 });
    watcher.tell(News::Formula {
        variables: 30,
        clauses: 70,
    });
    for restarts in [0, 0, 1] {
        watcher.tell(News::Conflict { restarts });
    }
    watcher.tell(News::Phase(Phase::Countering));
    watcher.tell(News::Input { count: 1 });
    watcher.tell(News::Better {
        value: 12,
        holes: &[3, 0, 1],
    });
    watcher.finish();
    watcher.say_counts();
    Ok(out)
}

#[test]
fn a_slow_search_is_shown(rt: HostRuntime) -> Result<(), Fail> {
    let out = seen(rt.alloc(), &clock_of(500), BOTH)?;
    let wanted: &[u8] = b"\r\x1b[?7l1 rounds, 0 inputs, 0 conflicts, 0 clauses, 1 s\x1b[K\x1b[?7h\
\r\x1b[?7l1 rounds, 0 inputs, 0 conflicts, 0 clauses, 1 s\x1b[K\x1b[?7h\
\r\x1b[?7l1 rounds, 0 inputs, 0 conflicts, 70 clauses, 2 s\x1b[K\x1b[?7h\
\r\x1b[?7l1 rounds, 0 inputs, 3 conflicts, 70 clauses, 2 s\x1b[K\x1b[?7h\
\r\x1b[?7l1 rounds, 1 inputs, 3 conflicts, 70 clauses, 3 s\x1b[K\x1b[?7h\
\r\x1b[Kbest so far: value 12, holes 3 0 1\n\
\r\x1b[?7l1 rounds, 1 inputs, 3 conflicts, 70 clauses, best value 12, 3 s\x1b[K\x1b[?7h\
\r\x1b[K\
rounds: 1\ninputs: 1\nnodes: 50\nvariables: 30\nclauses: 70\nconflicts: 3\nrestarts: 1\n\
seconds before the search: 0.500\nseconds of looking for choices: 2.000\nseconds of looking for inputs: 1.500\n\
seconds of proofs: 0.000\nseconds in all: 4.000\n";
    assert_eq!(rt; out.as_slice(), wanted);
    Ok(())
}

#[test]
fn a_fast_search_is_not(rt: HostRuntime) -> Result<(), Fail> {
    let out = seen(rt.alloc(), &clock_of(1), BOTH)?;
    assert!(rt;
        out.as_slice()
            .starts_with(b"best so far: value 12, holes 3 0 1\nrounds: 1\n")
    );
    Ok(())
}

#[test]
fn what_is_not_wanted_is_not_shown(rt: HostRuntime) -> Result<(), Fail> {
    let none = Wanted {
        progress: false,
        better: false,
    };
    let out = seen(rt.alloc(), &clock_of(5000), none)?;
    assert!(rt; out.as_slice().starts_with(b"rounds: 1\n"));
    Ok(())
}

#[test]
fn the_line_is_erased_before_the_answer(rt: HostRuntime) -> Result<(), Fail> {
    let alloc = rt.alloc();
    let shown = Cell::new(true);
    let mut out = Vec::new(alloc);
    let memory = MemSink::new(alloc, List::new(alloc), u32::MAX);
    let mut sink = ClearingSink::new(memory, &mut out, &shown);
    sink.reserve(2)?;
    assert_eq!(rt; sink.write(b"a"), Put::Wrote(1));
    assert_eq!(rt; sink.write(b"b"), Put::Wrote(1));
    drop(sink);
    assert!(rt; !shown.get());
    assert_eq!(rt; out.as_slice(), b"\r\x1b[K".as_slice());
    Ok(())
}
