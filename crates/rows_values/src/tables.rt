//! The tables.

use crate::calls::Call;
use crate::kinds::{Kind, kinds};
use crate::rows::{Guard, Index, Row, Try, tried};
use row_tables::{Fault, Report};
use std::alloc::{AllocError, Global};

// A row without a guard and without an index of the input.
fn plain(call: Call, kind: Kind, count: u32, most: usize) -> Row {
    Row {
        call,
        kind,
        count,
        guard: Guard::Given(false),
        index: Index::Given(0),
        most,
    }
}

// A row by an index.
fn indexed(call: Call, kind: Kind, count: u32, index: Index, most: usize) -> Row {
    Row {
        call,
        kind,
        count,
        guard: Guard::Given(false),
        index,
        most,
    }
}

// ---- one of two shapes

// The scalars of both shapes, and then the truth value between them.
const CHOICES: &[Try] = &[
    [5, -7, 0],
    [5, -7, 1],
    [0, 9, 0],
    [0, 9, 1],
    [31, 0, 0],
    [31, 0, 1],
    [0, 0, 0],
    [0, 0, 1],
];

// The table. Proofs see no row of it, nor of those below.
fn choices() -> &'static [Try] {
    CHOICES
}

// How many nodes a choice between elements of different scalars adds: a multiplexer for each scalar part, and for references
// one for each slot that either of them names.
fn of_choice(kind: Kind) -> usize {
    match kind {
        Kind::Bit | Kind::Int => 1,
        Kind::Reference | Kind::Array => 2,
        Kind::Either | Kind::Nested => 3,
    }
}

// A choice between so many shapes: two, or one and itself.
fn choice(
    alloc: Global,
    kind: Kind,
    count: u32,
    guard: Guard,
    most: usize,
    tries: &[Try],
) -> Result<(), Fault> {
    let row = Row {
        call: Call::Choose,
        kind,
        count,
        guard,
        index: Index::Given(0),
        most,
    };
    tried(alloc, 6, row, tries)
}

// By a truth value of the input, and by one that is given, where no node is added. Between equal shapes none is added.
fn tell_choices(alloc: Global, report: &mut Report) -> Result<(), AllocError> {
    for kind in kinds() {
        let most = of_choice(*kind);
        report.row(choice(alloc, *kind, 2, Guard::Input(2), most, choices()))?;
    }
    report.end("choices by the input")?;
    for kind in kinds() {
        report.row(choice(alloc, *kind, 2, Guard::Given(true), 0, &[[5, -7, 1]]))?;
        report.row(choice(alloc, *kind, 2, Guard::Given(false), 0, &[[5, -7, 0]]))?;
    }
    report.end("choices that are given")?;
    for kind in kinds() {
        report.row(choice(alloc, *kind, 1, Guard::Input(2), 0, choices()))?;
    }
    report.end("choices of one")
}

// ---- whether two shapes are equal

// The scalars of both shapes.
const PAIRS: &[Try] = &[
    [0, 0, 0],
    [0, 5, 0],
    [5, 0, 0],
    [5, 5, 0],
    [5, -7, 0],
    [-7, -7, 0],
    [-32, 31, 0],
];

// The slots that both name: the same one, two, and one that is the other slot of each reference of two targets.
const SLOTS: &[(u32, u32)] = &[(3, 3), (3, 4), (3, 8), (8, 3)];

fn pairs() -> &'static [Try] {
    PAIRS
}

fn slots() -> &'static [(u32, u32)] {
    SLOTS
}

// How many nodes a comparison of elements of different scalars adds at most.
fn of_comparison(kind: Kind) -> usize {
    match kind {
        Kind::Int => 1,
        Kind::Bit => 2,
        Kind::Reference | Kind::Array => 4,
        Kind::Nested => 6,
        Kind::Either => 8,
    }
}

// A shape is equal to itself; of one without references no node is added.
fn of_itself(kind: Kind) -> usize {
    match kind {
        Kind::Bit | Kind::Int | Kind::Array => 0,
        _ => usize::MAX,
    }
}

fn tell_comparisons(alloc: Global, report: &mut Report) -> Result<(), AllocError> {
    for kind in kinds() {
        for (a, b) in slots() {
            let row = plain(Call::Same(*a, *b), *kind, 2, of_comparison(*kind));
            report.row(tried(alloc, 6, row, pairs()))?;
        }
    }
    report.end("comparisons")?;
    for kind in kinds() {
        let row = plain(Call::Same(3, 3), *kind, 1, of_itself(*kind));
        report.row(tried(alloc, 6, row, &[[0, 0, 0], [5, 5, 0]]))?;
    }
    report.end("comparisons with itself")
}

// ---- reads

// Indexes inside and outside of lists of up to four, and the least and the greatest word of 6 bits.
const INDEXES: &[Try] = &[
    [-32, 0, 0],
    [-2, 0, 0],
    [-1, 0, 0],
    [0, 0, 0],
    [1, 0, 0],
    [2, 0, 0],
    [3, 0, 0],
    [4, 0, 0],
    [5, 0, 0],
    [31, 0, 0],
];

// All words of 2 bits.
const NARROW: &[Try] = &[[-2, 0, 0], [-1, 0, 0], [0, 0, 0], [1, 0, 0]];

const NARROW_KINDS: &[Kind] = &[Kind::Bit, Kind::Reference, Kind::Either];

fn indexes() -> &'static [Try] {
    INDEXES
}

fn narrow() -> &'static [Try] {
    NARROW
}

fn narrow_kinds() -> &'static [Kind] {
    NARROW_KINDS
}

// How many nodes a read adds at most: some comparisons and multiplexers for each element, and for each scalar in it.
fn of_read(kind: Kind, count: u32) -> usize {
    let count = count as usize;
    let times = match kind {
        Kind::Bit | Kind::Int => 3,
        Kind::Array => 4,
        Kind::Reference | Kind::Either | Kind::Nested => count.wrapping_add(4),
    };
    count.wrapping_mul(times).wrapping_add(6)
}

// By an index of the input.
fn tell_reads(
    alloc: Global,
    report: &mut Report,
    bits: u32,
    kinds: &[Kind],
    tries: &[Try],
) -> Result<(), AllocError> {
    for kind in kinds {
        for count in 1..5 {
            let most = of_read(*kind, count);
            let row = indexed(Call::Read, *kind, count, Index::Input(7), most);
            report.row(tried(alloc, bits, row, tries))?;
        }
    }
    Ok(())
}

// By an index that is given: no node is added.
fn read_given(alloc: Global, kind: Kind, count: u32, it: &Try) -> Result<(), Fault> {
    let row = indexed(Call::Read, kind, count, Index::Given(it[0]), 0);
    tried(alloc, 6, row, &[*it])
}

fn tell_reads_given(alloc: Global, report: &mut Report) -> Result<(), AllocError> {
    for kind in kinds() {
        for it in indexes() {
            report.row(read_given(alloc, *kind, 1, it))?;
            report.row(read_given(alloc, *kind, 4, it))?;
        }
    }
    report.end("reads by given indexes")
}

// Lists may be longer than the words of an index are many. In a long list the index is the scalar behind its elements.
fn tell_all_reads(alloc: Global, report: &mut Report) -> Result<(), AllocError> {
    tell_reads(alloc, report, 6, kinds(), indexes())?;
    report.end("reads by the input")?;
    tell_reads(alloc, report, 2, narrow_kinds(), narrow())?;
    report.end("reads by narrow words")?;
    tell_reads_given(alloc, report)?;
    let most = of_read(Kind::Int, 20);
    let row = indexed(Call::Read, Kind::Int, 20, Index::Input(20), most);
    report.row(tried(alloc, 6, row, &[]))?;
    report.end("reads of many")
}

// ---- writes

const GUARDS: &[Guard] = &[Guard::Given(true), Guard::Given(false), Guard::Input(6)];

// Indexes inside and outside of a list of three, and the least and the greatest word of 6 bits, each with both values of
// the scalar of a guard.
const WRITES: &[Try] = &[
    [-32, 0, 0],
    [-32, 1, 0],
    [-2, 0, 0],
    [-2, 1, 0],
    [-1, 0, 0],
    [-1, 1, 0],
    [0, 0, 0],
    [0, 1, 0],
    [1, 0, 0],
    [1, 1, 0],
    [2, 0, 0],
    [2, 1, 0],
    [3, 0, 0],
    [3, 1, 0],
    [4, 0, 0],
    [4, 1, 0],
    [31, 0, 0],
    [31, 1, 0],
];

const WRITTEN: &[i64] = &[-32, -2, -1, 0, 1, 2, 3, 4, 31];

fn guards() -> &'static [Guard] {
    GUARDS
}

fn writes() -> &'static [Try] {
    WRITES
}

fn places() -> &'static [i64] {
    WRITTEN
}

// How many nodes a write by an index of the input adds at most: five for whether it is outside; for each element its
// place and a comparison, and, unless the guard is false, a choice; and where the guard is not given, whether both hold.
fn of_write(kind: Kind, guard: Guard) -> usize {
    let choices = of_choice(kind).wrapping_mul(3);
    match guard {
        Guard::Given(false) => 11,
        Guard::Given(true) => choices.wrapping_add(11),
        Guard::Input(_) => choices.wrapping_add(14),
    }
}

// How many nodes a write at an index that is given adds: none where the guard is given too, and where the index is
// outside; else a choice.
fn of_write_given(kind: Kind, guard: Guard, at: i64) -> usize {
    match guard {
        Guard::Input(_) if at >= 0 && at < 3 => of_choice(kind),
        _ => 0,
    }
}

fn write_at(
    alloc: Global,
    kind: Kind,
    guard: Guard,
    index: Index,
    most: usize,
    tries: &[Try],
) -> Result<(), Fault> {
    let row = Row {
        call: Call::Write,
        kind,
        count: 3,
        guard,
        index,
        most,
    };
    tried(alloc, 6, row, tries)
}

fn tell_writes_given(alloc: Global, report: &mut Report) -> Result<(), AllocError> {
    for kind in kinds() {
        for guard in guards() {
            for at in places() {
                let most = of_write_given(*kind, *guard, *at);
                let (index, tries) = (Index::Given(*at), [[*at, 0, 0], [*at, 1, 0]]);
                report.row(write_at(alloc, *kind, *guard, index, most, &tries))?;
            }
        }
    }
    report.end("writes by given indexes")
}

fn tell_writes(alloc: Global, report: &mut Report) -> Result<(), AllocError> {
    for kind in kinds() {
        for guard in guards() {
            let most = of_write(*kind, *guard);
            report.row(write_at(alloc, *kind, *guard, Index::Input(7), most, writes()))?;
        }
    }
    report.end("writes by the input")?;
    tell_writes_given(alloc, report)
}

// ---- parts of lists, and lists made longer

// By an index of the input a part of bits or integers adds some comparisons for each place where it may begin, which its
// elements share, and for each element a multiplexer for each but one of these places.
fn of_part(kind: Kind) -> usize {
    match kind {
        Kind::Bit | Kind::Int => 18,
        _ => usize::MAX,
    }
}

// By an index that is given no node is added.
fn tell_parts_given(alloc: Global, report: &mut Report, kind: Kind) -> Result<(), AllocError> {
    for count in 1..5 {
        for it in indexes() {
            let row = indexed(Call::Slice(count), kind, 4, Index::Given(it[0]), 0);
            report.row(tried(alloc, 6, row, &[*it]))?;
        }
    }
    Ok(())
}

fn tell_parts(alloc: Global, report: &mut Report) -> Result<(), AllocError> {
    for kind in kinds() {
        for count in 1..5 {
            let row = indexed(
                Call::Slice(count),
                *kind,
                4,
                Index::Input(7),
                of_part(*kind),
            );
            report.row(tried(alloc, 6, row, indexes()))?;
        }
    }
    report.end("parts by the input")?;
    for kind in kinds() {
        tell_parts_given(alloc, report, *kind)?;
    }
    report.end("parts by given indexes")
}

// No node is added.
fn tell_made_longer(alloc: Global, report: &mut Report) -> Result<(), AllocError> {
    for kind in kinds() {
        for long in 0..4 {
            for count in long..6 {
                let row = plain(Call::Pad(count), *kind, long, 0);
                report.row(tried(alloc, 6, row, &[[0, 0, 0]]))?;
            }
        }
    }
    report.end("lists made longer")
}

// ---- sums of numbers of bits, bit 0 first

// A number of bits, and two numbers and the sum of their bits.
const SUMS: &[(u32, Try)] = &[
    (0, [0, 0, 0]),
    (1, [0, 1, 1]),
    (1, [1, 1, 0]),
    (2, [3, 1, 0]),
    (2, [2, 3, 1]),
    (5, [21, 10, 31]),
    (5, [31, 31, 30]),
    (8, [255, 1, 0]),
    (8, [1, 255, 0]),
    (8, [200, 100, 44]),
    (8, [170, 85, 255]),
    (8, [127, 1, 128]),
];

fn sums() -> &'static [(u32, Try)] {
    SUMS
}

// At most five nodes are added for each bit of the input.
fn sum(alloc: Global, count: u32, tries: &[Try]) -> Result<(), Fault> {
    let most = 5usize.wrapping_mul(count as usize);
    let row = plain(Call::Sum(None, None), Kind::Bit, count, most);
    tried(alloc, 6, row, tries)
}

// The sums of a number of three bits and each.
fn sums_with(alloc: Global, x: i64) -> Result<(), Fault> {
    let mut tries = [[x, 0, x]; 8];
    for y in 0..8 {
        tries[y] = [x, y as i64, x.wrapping_add(y as i64)];
    }
    sum(alloc, 3, &tries)
}

// Of bits that are given, and of a number and 0, no node is added.
fn sum_given(
    alloc: Global,
    first: Option<i64>,
    second: Option<i64>,
    count: u32,
    tries: &[Try],
) -> Result<(), Fault> {
    let row = plain(Call::Sum(first, second), Kind::Bit, count, 0);
    tried(alloc, 6, row, tries)
}

fn tell_sums_given(alloc: Global, report: &mut Report) -> Result<(), AllocError> {
    for (count, it) in sums() {
        let (x, y) = (Some(it[0]), Some(it[1]));
        report.row(sum_given(alloc, x, y, *count, &[*it]))?;
    }
    report.end("sums of given bits")?;
    let behind = [[0, 0, 0], [5, 0, 5], [10, 0, 10], [15, 0, 15]];
    let before = [[0, 0, 0], [0, 5, 5], [0, 10, 10], [0, 15, 15]];
    report.row(sum_given(alloc, None, Some(0), 4, &behind))?;
    report.row(sum_given(alloc, Some(0), None, 4, &before))?;
    report.end("sums with zero")
}

fn tell_sums(alloc: Global, report: &mut Report) -> Result<(), AllocError> {
    for (count, it) in sums() {
        report.row(sum(alloc, *count, &[*it]))?;
    }
    report.end("sums of the input")?;
    for x in 0..8 {
        report.row(sums_with(alloc, x))?;
    }
    report.end("sums of three bits")?;
    tell_sums_given(alloc, report)
}

// ---- shifts of numbers of bits, bit 0 first

// Whether to higher places, a number of bits, and a number, a count and the bits moved by it. Where the count is negative
// nothing is said of these.
type Move = (bool, u32, Try);

const MOVES: &[Move] = &[
    (true, 4, [11, 0, 11]),
    (true, 4, [11, 1, 6]),
    (true, 4, [11, 2, 12]),
    (true, 4, [11, 3, 8]),
    (true, 4, [11, 4, 0]),
    (true, 4, [11, 5, 0]),
    (true, 4, [11, 31, 0]),
    (true, 4, [11, -1, -1]),
    (true, 4, [11, -4, -1]),
    (true, 4, [11, -32, -1]),
    (true, 4, [6, 1, 12]),
    (true, 4, [6, 2, 8]),
    (true, 4, [6, 3, 0]),
    (false, 4, [11, 0, 11]),
    (false, 4, [11, 1, 5]),
    (false, 4, [11, 2, 2]),
    (false, 4, [11, 3, 1]),
    (false, 4, [11, 4, 0]),
    (false, 4, [11, 5, 0]),
    (false, 4, [11, 31, 0]),
    (false, 4, [11, -1, -1]),
    (false, 4, [11, -4, -1]),
    (false, 4, [11, -32, -1]),
    (false, 4, [6, 1, 3]),
    (false, 4, [6, 2, 1]),
    (false, 4, [6, 3, 0]),
    (true, 0, [0, 0, 0]),
    (true, 0, [0, 1, 0]),
    (true, 0, [0, -1, -1]),
    (false, 0, [0, 0, 0]),
    (false, 0, [0, 1, 0]),
    (false, 0, [0, -1, -1]),
    (true, 1, [1, 0, 1]),
    (true, 1, [1, 1, 0]),
    (false, 1, [1, 0, 1]),
    (false, 1, [1, 1, 0]),
    (true, 8, [219, 3, 216]),
    (true, 8, [219, 7, 128]),
    (false, 8, [219, 3, 27]),
    (false, 8, [219, 7, 1]),
];

// At words of 2 bits, of which 1 is the greatest.
const NARROW_MOVES: &[Move] = &[
    (true, 4, [11, 0, 11]),
    (true, 4, [11, 1, 6]),
    (true, 4, [11, -1, -1]),
    (true, 4, [11, -2, -1]),
    (false, 4, [11, 0, 11]),
    (false, 4, [11, 1, 5]),
    (false, 4, [11, -1, -1]),
    (false, 4, [11, -2, -1]),
];

fn moves() -> &'static [Move] {
    MOVES
}

fn narrow_moves() -> &'static [Move] {
    NARROW_MOVES
}

// How many nodes a shift by a count of the input adds at most: a multiplexer for each bit and each place from which it may
// come, some comparisons for each place, and one for whether the count is negative.
fn of_move(count: u32) -> usize {
    let count = count as usize;
    count
        .wrapping_mul(count)
        .wrapping_add(count.wrapping_mul(2))
        .wrapping_add(2)
}

// By a count of the input, which is the scalar behind the bits and so many more.
fn moved(alloc: Global, bits: u32, it: &Move) -> Result<(), Fault> {
    let (left, count, numbers) = *it;
    let index = Index::Input(count.wrapping_mul(2));
    let row = indexed(Call::Shift(left), Kind::Bit, count, index, of_move(count));
    tried(alloc, bits, row, &[numbers])
}

// By a count that is given: no node is added.
fn moved_given(alloc: Global, it: &Move) -> Result<(), Fault> {
    let (left, count, numbers) = *it;
    let index = Index::Given(numbers[1]);
    let row = indexed(Call::Shift(left), Kind::Bit, count, index, 0);
    tried(alloc, 6, row, &[numbers])
}

fn tell_moves(alloc: Global, report: &mut Report) -> Result<(), AllocError> {
    for it in moves() {
        report.row(moved(alloc, 6, it))?;
    }
    for it in narrow_moves() {
        report.row(moved(alloc, 2, it))?;
    }
    report.end("shifts by the input")?;
    for it in moves() {
        report.row(moved_given(alloc, it))?;
    }
    report.end("shifts by given counts")
}

/// Tells of each table.
pub fn tell(alloc: Global, report: &mut Report) -> Result<(), AllocError> {
    tell_choices(alloc, report)?;
    tell_comparisons(alloc, report)?;
    tell_all_reads(alloc, report)?;
    tell_writes(alloc, report)?;
    tell_parts(alloc, report)?;
    tell_made_longer(alloc, report)?;
    tell_sums(alloc, report)?;
    tell_moves(alloc, report)
}
