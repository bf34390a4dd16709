//! Heaps of a few slots: what their fields are, and how many nodes each call adds.

use crate::program::{ITEM, ITEMS, MARK, MARKS, NEXT, NUMBER, NUMBERS, PAIR, PAIR_OF};
use crate::seen::Leaf;
use crate::steps::{Row, Step, see_all, take_all};
use crate::values::Given;
use crate::world::World;
use row_tables::{Fault, Report, expect};
use std::alloc::{AllocError, Global};

/// The values that each of the tests begins with, by their numbers, and the nodes that they take.
const BEGIN: &[(Step, usize)] = &[
    (Step::Give(Given::Flag(true)), 1),
    (Step::Give(Given::Flag(false)), 1),
    (Step::Give(Given::InputBit(0)), 1),
    (Step::Give(Given::InputBit(1)), 1),
    (Step::Give(Given::Word(0)), 1),
    (Step::Give(Given::Word(5)), 1),
    (Step::Give(Given::Word(7)), 1),
    (Step::Give(Given::InputWord(2)), 1),
    (Step::Give(Given::Null(ITEM)), 0),
];

const YES: usize = 0;

const NO: usize = 1;

/// The first scalar of the input, as a bit.
const C: usize = 2;

/// The second.
const D: usize = 3;

const FIVE: usize = 5;

const SEVEN: usize = 6;

/// The third scalar of the input, which is 9.
const X: usize = 7;

const NULL: usize = 8;

/// The number of the next value.
const NEW: usize = 9;

const T: &[Leaf] = &[Leaf::Bit(true)];

const F: &[Leaf] = &[Leaf::Bit(false)];

const I0: &[Leaf] = &[Leaf::Int(0)];

const I5: &[Leaf] = &[Leaf::Int(5)];

const I7: &[Leaf] = &[Leaf::Int(7)];

const I9: &[Leaf] = &[Leaf::Int(9)];

const NONE: &[Leaf] = &[Leaf::Null];

const SLOT_0: &[Leaf] = &[Leaf::Slot(0)];

const SLOT_1: &[Leaf] = &[Leaf::Slot(1)];

const SLOT_2: &[Leaf] = &[Leaf::Slot(2)];

/// A field that was read by a reference which is null is left open.
const OPEN: &[Leaf] = &[];

const BOTH_0: &[Leaf] = &[Leaf::Int(0), Leaf::Int(0)];

const FIVE_AND_X: &[Leaf] = &[Leaf::Int(5), Leaf::Int(9)];

const NO_ITEMS: &[Leaf] = &[Leaf::Null, Leaf::Null];

const ONE_ITEM: &[Leaf] = &[Leaf::Slot(1), Leaf::Null];

const TWO_ITEMS: &[Leaf] = &[Leaf::Slot(2), Leaf::Slot(1)];

const NO_MARKS: &[Leaf] = &[
    Leaf::Bit(false),
    Leaf::Bit(false),
    Leaf::Bit(false),
    Leaf::Bit(false),
];

const MARKS_OF_BOTH: &[Leaf] = &[
    Leaf::Bit(true),
    Leaf::Bit(true),
    Leaf::Bit(false),
    Leaf::Bit(true),
];

const MARKS_OF_C: &[Leaf] = &[
    Leaf::Bit(true),
    Leaf::Bit(true),
    Leaf::Bit(false),
    Leaf::Bit(false),
];

const MARKS_OF_D: &[Leaf] = &[
    Leaf::Bit(true),
    Leaf::Bit(false),
    Leaf::Bit(false),
    Leaf::Bit(true),
];

const MARKS_OF_NONE: &[Leaf] = &[
    Leaf::Bit(true),
    Leaf::Bit(false),
    Leaf::Bit(false),
    Leaf::Bit(false),
];

/// Slots under a guard that holds, under a symbolic one, and under one that does not hold, and all their fields.
const ALLOCATIONS: &[(Step, usize)] = &[
    (Step::Alloc(YES, ITEM), 0),
    (Step::Alloc(C, PAIR), 0),
    (Step::Alloc(NO, ITEM), 0),
    (Step::Read(NEW, NUMBER), 0),
    (Step::Read(NEW, NEXT), 0),
    (Step::Read(NEW, PAIR_OF), 0),
    // Where a reference is null is one node more, once.
    (Step::Read(NEW + 1, MARK), 1),
    (Step::Read(NEW + 1, NUMBERS), 0),
    (Step::Read(NEW + 1, ITEMS), 0),
    (Step::Read(NEW + 1, MARKS), 0),
    (Step::Read(NEW + 2, NUMBER), 0),
];

const ALLOCATED: &[Row] = &[
    (NEW, [SLOT_0; 4]),
    (NEW + 1, [SLOT_1, SLOT_1, NONE, NONE]),
    (NEW + 2, [NONE; 4]),
    (NEW + 3, [I0; 4]),
    (NEW + 4, [F; 4]),
    (NEW + 5, [NONE; 4]),
    (NEW + 6, [F; 4]),
    (NEW + 7, [NONE; 4]),
    (NEW + 8, [F; 4]),
    (NEW + 9, [F, F, OPEN, OPEN]),
    (NEW + 10, [F, F, T, T]),
    (NEW + 11, [BOTH_0, BOTH_0, OPEN, OPEN]),
    (NEW + 12, [F, F, T, T]),
    (NEW + 13, [NO_ITEMS, NO_ITEMS, OPEN, OPEN]),
    (NEW + 14, [F, F, T, T]),
    (NEW + 15, [NO_MARKS, NO_MARKS, OPEN, OPEN]),
    (NEW + 16, [F, F, T, T]),
    (NEW + 17, [OPEN; 4]),
    (NEW + 18, [T; 4]),
];

/// A write by the one reference to a slot, and one by a reference to either of two, under a guard.
const WRITES: &[(Step, usize)] = &[
    (Step::Alloc(YES, ITEM), 0),
    (Step::Alloc(YES, ITEM), 0),
    // Two guards.
    (Step::Choose(C, NEW, NEW + 1), 2),
    (Step::Write(YES, NEW, NUMBER, FIVE), 0),
    (Step::Read(NEW, NUMBER), 0),
    (Step::Read(NEW + 1, NUMBER), 0),
    // Whether one of the guards holds, whether none does, and a number that is chosen.
    (Step::Read(NEW + 2, NUMBER), 3),
    // For each slot, whether to write, and a number that is chosen.
    (Step::Write(D, NEW + 2, NUMBER, SEVEN), 4),
    (Step::Read(NEW, NUMBER), 0),
    (Step::Read(NEW + 1, NUMBER), 0),
    (Step::Read(NEW + 2, NUMBER), 1),
];

const WRITTEN: &[Row] = &[
    (NEW + 2, [SLOT_0, SLOT_0, SLOT_1, SLOT_1]),
    (NEW + 3, [F; 4]),
    (NEW + 4, [I5; 4]),
    (NEW + 6, [I0; 4]),
    (NEW + 8, [I5, I5, I0, I0]),
    (NEW + 9, [F; 4]),
    (NEW + 10, [F; 4]),
    (NEW + 11, [I7, I5, I5, I5]),
    (NEW + 13, [I0, I0, I7, I0]),
    (NEW + 15, [I7, I5, I7, I0]),
    (NEW + 16, [F; 4]),
];

/// Writes under guards, and by references that are null somewhere or everywhere.
const GUARDS: &[(Step, usize)] = &[
    (Step::Alloc(YES, ITEM), 0),
    (Step::Write(NO, NEW, NUMBER, FIVE), 0),
    (Step::Read(NEW, NUMBER), 0),
    (Step::Write(C, NEW, NUMBER, FIVE), 1),
    (Step::Read(NEW, NUMBER), 0),
    (Step::Write(YES, NEW, NUMBER, X), 0),
    (Step::Read(NEW, NUMBER), 0),
    (Step::Alloc(C, ITEM), 0),
    // Where it is null.
    (Step::Write(NO, NEW + 10, NUMBER, FIVE), 1),
    (Step::Read(NEW + 10, NUMBER), 0),
    // Whether to write, and a number that is chosen.
    (Step::Write(D, NEW + 10, NUMBER, SEVEN), 2),
    (Step::Read(NEW + 10, NUMBER), 0),
    (Step::Write(YES, NULL, NUMBER, FIVE), 0),
    (Step::Read(NULL, NUMBER), 0),
    (Step::Read(NEW, NUMBER), 0),
];

const GUARDED: &[Row] = &[
    (NEW + 1, [F; 4]),
    (NEW + 2, [I0; 4]),
    (NEW + 4, [F; 4]),
    (NEW + 5, [I5, I5, I0, I0]),
    (NEW + 8, [I9; 4]),
    (NEW + 10, [SLOT_1, SLOT_1, NONE, NONE]),
    (NEW + 11, [F, F, T, T]),
    (NEW + 12, [I0, I0, OPEN, OPEN]),
    (NEW + 13, [F, F, T, T]),
    (NEW + 14, [F, F, T, T]),
    (NEW + 15, [I7, I0, OPEN, OPEN]),
    (NEW + 16, [F, F, T, T]),
    (NEW + 17, [T; 4]),
    (NEW + 19, [T; 4]),
    (NEW + 20, [I9; 4]),
    (NEW + 21, [F; 4]),
];

/// Fields of each type: bits, arrays of numbers, of references and of arrays, and references to either struct.
const KINDS: &[(Step, usize)] = &[
    (Step::Alloc(YES, PAIR), 0),
    (Step::Alloc(YES, ITEM), 0),
    (Step::Alloc(YES, ITEM), 0),
    (Step::Write(C, NEW, MARK, D), 1),
    (Step::Read(NEW, MARK), 0),
    (Step::Pair(FIVE, X), 0),
    (Step::Write(C, NEW, NUMBERS, NEW + 6), 2),
    (Step::Read(NEW, NUMBERS), 0),
    (Step::Pair(NEW + 1, NULL), 0),
    // The guard of the one target.
    (Step::Write(D, NEW, ITEMS, NEW + 10), 1),
    (Step::Read(NEW, ITEMS), 0),
    (Step::Pair(NEW + 2, NEW + 1), 0),
    (Step::Write(YES, NEW, ITEMS, NEW + 14), 0),
    (Step::Read(NEW, ITEMS), 0),
    (Step::Pair(YES, C), 0),
    (Step::Pair(NO, D), 0),
    (Step::Pair(NEW + 18, NEW + 19), 0),
    (Step::Write(YES, NEW, MARKS, NEW + 20), 0),
    (Step::Read(NEW, MARKS), 0),
    // From one slot to the next, and a write there.
    (Step::Write(YES, NEW + 1, NEXT, NEW + 2), 0),
    (Step::Read(NEW + 1, NEXT), 0),
    (Step::Write(YES, NEW + 25, NUMBER, SEVEN), 0),
    (Step::Read(NEW + 2, NUMBER), 0),
    (Step::Read(NEW + 1, NUMBER), 0),
    // From a slot to one of the other struct.
    (Step::Write(YES, NEW + 1, PAIR_OF, NEW), 0),
    (Step::Read(NEW + 1, PAIR_OF), 0),
    (Step::Read(NEW + 33, MARK), 0),
];

const KINDS_SEEN: &[Row] = &[
    (NEW + 4, [T, F, F, F]),
    (NEW + 5, [F; 4]),
    (NEW + 8, [FIVE_AND_X, FIVE_AND_X, BOTH_0, BOTH_0]),
    (NEW + 12, [ONE_ITEM, NO_ITEMS, ONE_ITEM, NO_ITEMS]),
    (NEW + 16, [TWO_ITEMS; 4]),
    (
        NEW + 22,
        [MARKS_OF_BOTH, MARKS_OF_C, MARKS_OF_D, MARKS_OF_NONE],
    ),
    (NEW + 25, [SLOT_2; 4]),
    (NEW + 26, [F; 4]),
    (NEW + 28, [I7; 4]),
    (NEW + 30, [I0; 4]),
    (NEW + 33, [SLOT_0; 4]),
    (NEW + 35, [T, F, F, F]),
    (NEW + 36, [F; 4]),
];

/// References to one of two slots with one of the other struct between them, or null.
const CHOICES: &[(Step, usize)] = &[
    (Step::Alloc(YES, ITEM), 0),
    (Step::Alloc(YES, PAIR), 0),
    (Step::Alloc(YES, ITEM), 0),
    (Step::Choose(D, NEW + 2, NULL), 1),
    (Step::Choose(C, NEW, NEW + 3), 2),
    // Whether one of the guards holds, and whether none does; the numbers are one.
    (Step::Read(NEW + 4, NUMBER), 2),
    (Step::Write(YES, NEW + 4, NUMBER, FIVE), 2),
    (Step::Read(NEW, NUMBER), 0),
    (Step::Read(NEW + 2, NUMBER), 0),
    (Step::Read(NEW + 1, MARK), 0),
    // The first slot is in both.
    (Step::Choose(D, NEW + 4, NEW), 2),
    (Step::Read(NEW + 14, NUMBER), 3),
];

const CHOSEN: &[Row] = &[
    (NEW + 3, [SLOT_2, NONE, SLOT_2, NONE]),
    (NEW + 4, [SLOT_0, SLOT_0, SLOT_2, NONE]),
    (NEW + 5, [I0, I0, I0, OPEN]),
    (NEW + 6, [F, F, F, T]),
    (NEW + 7, [F, F, F, T]),
    (NEW + 8, [I5, I5, I0, I0]),
    (NEW + 10, [I0, I0, I5, I0]),
    (NEW + 12, [F; 4]),
    (NEW + 14, [SLOT_0, SLOT_0, SLOT_2, SLOT_0]),
    (NEW + 15, [I5, I5, I5, I0]),
    (NEW + 16, [F; 4]),
];

/// Takes the steps, and sees what the values are then and how many slots there are.
fn expect_in(
    alloc: Global,
    world: &mut World,
    steps: &[(Step, usize)],
    rows: &[Row],
    slots: u32,
) -> Result<(), Fault> {
    take_all(world, begin())?;
    take_all(world, steps)?;
    see_all(alloc, world, rows)?;
    expect(world.slots() == slots)
}

/// In a new world.
fn expect_heap(
    alloc: Global,
    steps: &[(Step, usize)],
    rows: &[Row],
    slots: u32,
) -> Result<(), Fault> {
    let mut world = World::new(alloc)?;
    expect_in(alloc, &mut world, steps, rows, slots)
}

/// Steps, what their values are, and how many slots there are.
type Table = (&'static [(Step, usize)], &'static [Row], u32);

const TABLES: &[Table] = &[
    (ALLOCATIONS, ALLOCATED, 3),
    (WRITES, WRITTEN, 2),
    (GUARDS, GUARDED, 2),
    (KINDS, KINDS_SEEN, 3),
    (CHOICES, CHOSEN, 3),
];

/// The tables. Proofs see no row of them.
fn tables() -> &'static [Table] {
    TABLES
}

/// In an empty graph.
const FIRST: &[(Step, usize)] = &[
    (Step::Give(Given::Flag(true)), 1),
    // The number 0.
    (Step::Alloc(0, ITEM), 1),
    (Step::Alloc(0, ITEM), 0),
    // The bit 0.
    (Step::Alloc(0, PAIR), 1),
    (Step::Read(1, NUMBER), 0),
];

fn begin() -> &'static [(Step, usize)] {
    BEGIN
}

fn first() -> &'static [(Step, usize)] {
    FIRST
}

fn takes_first(world: &mut World) -> Result<(), Fault> {
    take_all(world, first())?;
    expect(world.nodes() == 3)
}

fn an_empty_graph(alloc: Global) -> Result<(), Fault> {
    let mut world = World::new(alloc)?;
    takes_first(&mut world)
}

fn fills(world: &mut World) -> Result<(), Fault> {
    world.give(Given::Flag(true))?;
    for _ in 0..256 {
        world.allocate(0, ITEM)?;
    }
    expect(world.slots() == 256 && world.nodes() == 2)
}

/// As many slots as there may be.
fn a_full_heap(alloc: Global) -> Result<(), Fault> {
    let mut world = World::new(alloc)?;
    fills(&mut world)
}

/// Tells of the tables of heaps.
pub fn tell(alloc: Global, report: &mut Report) -> Result<(), AllocError> {
    for (steps, rows, slots) in tables() {
        report.row(expect_heap(alloc, steps, rows, *slots))?;
    }
    report.end("small heaps")?;
    report.row(an_empty_graph(alloc))?;
    report.end("heaps in an empty graph")?;
    report.row(a_full_heap(alloc))?;
    report.end("full heaps")
}
