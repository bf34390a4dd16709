//! Programs that are too large.
ghost use Rattle.std.specs.Prelude.{◌≡◌, ◌++◌, OnOk};
ghost use Rattle.sk_explain_causes.specs.Titles.{size_title, size_notes};

use crate::phrases::{push_title, tell_one, tell_two};
use sk_expand_sizes::SizeFault;
use sk_explain_notes::Told;
use std::alloc::AllocError;

/// Tells which limit an expansion passes, and what drives the count. Want of memory has an ending of its own. After a refusal
/// title and notes are given up: nothing is told.
pub fn tell_size(told: &mut Told, reason: SizeFault) -> Result<(), AllocError>
    ensures title { OnOk result (told.new.title.bytes.items ≡ told.old.title.bytes.items ++ size_title reason) }
    ensures notes { OnOk result (told.new.notes.bytes.items ≡ told.old.notes.bytes.items ++ size_notes reason) }
{
    match reason {
        SizeFault::Copies => tell_copies(told),
        SizeFault::Sites => tell_sites(told),
        SizeFault::Steps => tell_steps(told),
        SizeFault::News => tell_news(told),
        SizeFault::Memory => push_title(told, b"out of memory"),
    }
}

fn tell_copies(told: &mut Told) -> Result<(), AllocError>
    ensures title { OnOk result (told.new.title.bytes.items ≡ told.old.title.bytes.items ++ size_title SizeFault.Copies) }
    ensures notes { OnOk result (told.new.notes.bytes.items ≡ told.old.notes.bytes.items ++ size_notes SizeFault.Copies) }
{
    tell_two(
        told,
        b"the program has more than 262144 statements and expressions",
        b"each call of a generator is a copy: --bnd-inline-amnt says how deep",
        b"a repeat is its count of copies; an open one, as minrepeat, --bnd-unroll-amnt",
    )
}

fn tell_sites(told: &mut Told) -> Result<(), AllocError>
    ensures title { OnOk result (told.new.title.bytes.items ≡ told.old.title.bytes.items ++ size_title SizeFault.Sites) }
    ensures notes { OnOk result (told.new.notes.bytes.items ≡ told.old.notes.bytes.items ++ size_notes SizeFault.Sites) }
{
    tell_two(
        told,
        b"the program leaves more than 4096 choices open",
        b"a hole is one, one of type bit[n] n, a pattern one, a reorder of n statements n - 1",
        b"each copy of a generator or of the body of a repeat has its own",
    )
}

fn tell_steps(told: &mut Told) -> Result<(), AllocError>
    ensures title { OnOk result (told.new.title.bytes.items ≡ told.old.title.bytes.items ++ size_title SizeFault.Steps) }
    ensures notes { OnOk result (told.new.notes.bytes.items ≡ told.old.notes.bytes.items ++ size_notes SizeFault.Steps) }
{
    tell_two(
        told,
        b"the runs of what is asked may take more than 262144 steps in all",
        b"a loop counts --bnd-unroll-amnt times its body, loops inside it as often each",
        b"a call counts its function, one that calls itself --bnd-inline-amnt times",
    )
}

fn tell_news(told: &mut Told) -> Result<(), AllocError>
    ensures title { OnOk result (told.new.title.bytes.items ≡ told.old.title.bytes.items ++ size_title SizeFault.News) }
    ensures notes { OnOk result (told.new.notes.bytes.items ≡ told.old.notes.bytes.items ++ size_notes SizeFault.News) }
{
    tell_one(
        told,
        b"the runs of one harness or implements may make more than 256 records",
        b"a new counts as often as its loop turns (--bnd-unroll-amnt) and its function is called",
    )
}
