ghost use Rattle.std.specs.Prelude.{◌≡◌, ℕ, ◌≤◌, ◌<◌, length, IfOk};
ghost use Rattle.sk_clause.specs.Problem.{IsWithin};
ghost use Rattle.sk_gates.specs.Bits.{AreOver, reach};

use crate::forced::{make_true, propagate};
use row_tables::{Fault, Report, expect};
use sk_base::List;
use sk_clause::{Clauses, Lit};
use sk_gates::{
    Bit, SharedGates, add_bits, adder, and, div_bits, divider, less, mul_bits, multiplier, mux,
    mux_each, padded, xor,
};
use std::alloc::{AllocError, Global};

const A: Lit = Lit { var: 0, neg: false };

const B: Lit = Lit { var: 1, neg: false };

const C: Lit = Lit { var: 2, neg: false };

const D: Lit = Lit { var: 3, neg: false };

const E: Lit = Lit { var: 4, neg: false };

const F: Lit = Lit { var: 5, neg: false };

const G: Lit = Lit { var: 6, neg: false };

const H: Lit = Lit { var: 7, neg: false };

const I: Lit = Lit { var: 8, neg: false };

const J: Lit = Lit { var: 9, neg: false };

const K: Lit = Lit {
    var: 10,
    neg: false,
};

const NOT_A: Lit = Lit { var: 0, neg: true };

// The number that literals stand for, bit 0 first.
fn number(values: &[Option<bool>], lits: &[Lit]) -> usize {
    let mut number = 0usize;
    for i in 0..lits.len() {
        if values.get(lits[i].var) == Some(&Some(!lits[i].neg)) {
            number |= 1 << (i % 64);
        }
    }
    number
}

// The number that the literals stand for in the only extension of eleven values that meets the clauses, where the clauses
// force each further value.
fn only(
    alloc: Global,
    to: &Clauses,
    bits: usize,
    lits: &[Lit],
) -> Result<Option<usize>, AllocError> {
    let mut values = vec![in alloc; None; to.vars()]?;
    for var in 0..11 {
        let neg = bits >> var & 1 == 0;
        make_true(&mut values, Lit { var, neg });
    }
    match propagate(to, &mut values) {
        Some(true) => Ok(Some(number(&values, lits))),
        _ => Ok(None),
    }
}

// What the four gates of three literals are to answer, as a number.
fn of_literals(bits: usize) -> usize {
    let (a, b, c) = (bits % 2 == 1, bits / 2 % 2 == 1, bits / 4 % 2 == 1);
    let both = if a && b { 1 } else { 0 };
    let one = if a != b { 4 } else { 0 };
    let chosen = if c && a || !c && b { 8 } else { 0 };
    both + one + chosen
}

// The literals stand for this number in the only extension of eleven values that meets the clauses.
fn expect_only(
    alloc: Global,
    to: &Clauses,
    bits: usize,
    lits: &[Lit],
    wanted: usize,
) -> Result<(), Fault> {
    let answered = only(alloc, to, bits, lits)?;
    expect(answered == Some(wanted))
}

fn four_gates(to: &mut Clauses) -> Result<[Lit; 4], AllocError>
    requires { to.old.vars ≡ 11 }
{
    let both = and(to, A, B)?;
    let never = and(to, A, NOT_A)?;
    let one = xor(to, A, B)?;
    let chosen = mux(to, C, A, B)?;
    Ok([both, never, one, chosen])
}

fn gates_of_literals(alloc: Global, bits: usize) -> Result<(), Fault> {
    let mut to = Clauses::with_vars(alloc, 11);
    let answer = four_gates(&mut to)?;
    expect_only(alloc, &to, bits, &answer, of_literals(bits))
}

fn tell_literals(alloc: Global, report: &mut Report) -> Result<(), AllocError> {
    for bits in 0..8 {
        report.row(gates_of_literals(alloc, bits))?;
    }
    report.end("gates of literals")
}

#[derive(Clone, Copy)]
enum Gate {
    Sum,
    // Of signed words or not.
    Less(bool),
    Product,
    Division,
}

// How many numbers of so many bits there are, up to four.
fn count_of(len: usize) -> usize
    ensures least { 2 ≤ result }
    ensures most { result ≤ 16 }
{
    match len {
        1 => 2,
        2 => 4,
        3 => 8,
        _ => 16,
    }
}

// What a gate is to answer: for a division the quotient, and above it the remainder.
fn want(gate: Gate, len: usize, a: usize, b: usize, carry: usize) -> usize {
    let count = count_of(len);
    let half = count / 2;
    match gate {
        Gate::Sum => a.wrapping_add(b).wrapping_add(carry) % count,
        Gate::Less(false) => (a < b) as usize,
        Gate::Less(true) => ((a ^ half) < (b ^ half)) as usize,
        Gate::Product => a.wrapping_mul(b) % count,
        Gate::Division => {
            if b == 0 {
                0
            } else {
                (a / b).wrapping_add((a % b).wrapping_mul(count))
            }
        }
    }
}

// Whether one word is below the other.
fn comparison(
    alloc: Global,
    to: &mut Clauses,
    signed: bool,
    a: &[Lit],
    b: &[Lit],
) -> Result<List<Lit>, AllocError>
    requires vars { to.old.vars ≡ 11 }
    requires some { 1 ≤ length a.now }
    requires most { length a.now ≤ 4 }
    requires lengths { length a.now ≡ length b.now }
    requires a { IsWithin 11 a.now }
    requires b { IsWithin 11 b.now }
{
    let below = less(alloc, to, a, b, signed)?;
    List::from_slice(alloc, &[below])
}

// The quotient, and behind it the remainder.
fn division(alloc: Global, to: &mut Clauses, a: &[Lit], b: &[Lit]) -> Result<List<Lit>, AllocError>
    requires vars { to.old.vars ≡ 11 }
    requires some { 1 ≤ length a.now }
    requires most { length a.now ≤ 4 }
    requires lengths { length a.now ≡ length b.now }
    requires a { IsWithin 11 a.now }
    requires b { IsWithin 11 b.now }
{
    let (mut quotient, remainder) = divider(alloc, to, a, b)?;
    quotient.append(remainder)?;
    Ok(quotient)
}

// Makes the gate of two words and a carry.
fn made(
    alloc: Global,
    to: &mut Clauses,
    gate: Gate,
    a: &[Lit],
    b: &[Lit],
) -> Result<List<Lit>, AllocError>
    requires vars { to.old.vars ≡ 11 }
    requires some { 1 ≤ length a.now }
    requires most { length a.now ≤ 4 }
    requires lengths { length a.now ≡ length b.now }
    requires a { IsWithin 11 a.now }
    requires b { IsWithin 11 b.now }
{
    match gate {
        Gate::Sum => adder(alloc, to, a, b, I),
        Gate::Less(signed) => comparison(alloc, to, signed, a, b),
        Gate::Product => multiplier(alloc, to, a, b),
        Gate::Division => division(alloc, to, a, b),
    }
}

// At each assignment of the variables of these words and of the carry, the answer is the right one in exactly one extension.
fn answers_right(
    alloc: Global,
    to: &Clauses,
    gate: Gate,
    len: usize,
    answer: &[Lit],
) -> Result<(), Fault> {
    let count = count_of(len);
    for bits in 0..512usize {
        let (x, y) = (bits % count, bits / 16 % count);
        let right = want(gate, len, x, y, bits / 256 % 2);
        expect_only(alloc, to, bits, answer, right)?;
    }
    Ok(())
}

// The gate of these words.
fn is_right(alloc: Global, gate: Gate, a: &[Lit], b: &[Lit]) -> Result<(), Fault>
    requires some { 1 ≤ length a.now }
    requires most { length a.now ≤ 4 }
    requires lengths { length a.now ≡ length b.now }
    requires a { IsWithin 11 a.now }
    requires b { IsWithin 11 b.now }
{
    let mut to = Clauses::with_vars(alloc, 11);
    let answer = made(alloc, &mut to, gate, a, b)?;
    answers_right(alloc, &to, gate, a.len(), answer.as_slice())
}

fn tell_gate(alloc: Global, report: &mut Report, gate: Gate) -> Result<(), AllocError> {
    report.row(is_right(alloc, gate, &[A], &[E]))?;
    report.row(is_right(alloc, gate, &[A, B], &[E, F]))?;
    report.row(is_right(alloc, gate, &[A, B, C], &[E, F, G]))?;
    report.row(is_right(alloc, gate, &[A, B, C, D], &[E, F, G, H]))
}

// Each gate of words of one to four bits.
fn tell_words(alloc: Global, report: &mut Report) -> Result<(), AllocError> {
    for gate in [
        Gate::Sum,
        Gate::Less(false),
        Gate::Less(true),
        Gate::Product,
        Gate::Division,
    ] {
        tell_gate(alloc, report, gate)?;
    }
    report.end("gates of words")
}

// What a gate of two words of four bits answers in its only extension.
fn answers(alloc: Global, gate: Gate, bits: usize, wanted: usize) -> Result<(), Fault> {
    let mut to = Clauses::with_vars(alloc, 11);
    let answer = made(alloc, &mut to, gate, &[A, B, C, D], &[E, F, G, H])?;
    expect_only(alloc, &to, bits, answer.as_slice(), wanted)
}

// 7 times 5 is 35, whose four lowest bits are 3. 13 is 3 times 4 and 1 more. Divided by 0 it gives 0 and 0.
fn tell_numbers(alloc: Global, report: &mut Report) -> Result<(), AllocError> {
    report.row(answers(alloc, Gate::Product, 7 + 5 * 16, 3))?;
    report.row(answers(alloc, Gate::Division, 13 + 4 * 16, 3 + 16))?;
    report.row(answers(alloc, Gate::Division, 13, 0))?;
    report.end("numbers of four bits")
}

// Words of 16 bits that are false from the sixth on.
#[derive(Clone, Copy)]
enum Word {
    First,
    Second,
    Ten,
}

fn low_bits(alloc: Global, word: Word) -> Result<List<Bit>, AllocError>
    ensures length { IfOk result (λ r. length r ≡ 5) }
    ensures within { IfOk result (λ r. AreOver 11 r) }
{
    match word {
        Word::First => List::from_slice(
            alloc,
            &[
                Bit::Literal(A),
                Bit::Literal(B),
                Bit::Literal(C),
                Bit::Literal(D),
                Bit::Literal(E),
            ],
        ),
        Word::Second => List::from_slice(
            alloc,
            &[
                Bit::Literal(F),
                Bit::Literal(G),
                Bit::Literal(H),
                Bit::Literal(I),
                Bit::Literal(J),
            ],
        ),
        Word::Ten => List::from_slice(
            alloc,
            &[
                Bit::Constant(false),
                Bit::Constant(true),
                Bit::Constant(false),
                Bit::Constant(true),
                Bit::Constant(false),
            ],
        ),
    }
}

fn bits_of(alloc: Global, word: Word) -> Result<List<Bit>, AllocError>
    ensures length { IfOk result (λ r. length r ≡ 16) }
    ensures within { IfOk result (λ r. AreOver 11 r) }
{
    let low = low_bits(alloc, word)?;
    let r = padded(low, 16)?;
    Ok(r)
}

// Gates over two words of bits.
#[derive(Clone, Copy)]
enum Wide {
    Sum,
    Product,
    Division,
    Choice,
}

fn put_wide(
    alloc: Global,
    to: &mut SharedGates,
    gate: Wide,
    a: &[Bit],
    b: &[Bit],
) -> Result<(), AllocError>
    requires vars { to.old.vars ≡ 11 }
    requires some { 1 ≤ length a.now }
    requires lengths { length a.now ≡ length b.now }
    requires a { AreOver 11 a.now }
    requires b { AreOver 11 b.now }
{
    match gate {
        Wide::Sum => {
            add_bits(alloc, to, a, b, Bit::Constant(false))?;
        }
        Wide::Product => {
            mul_bits(alloc, to, a, b)?;
        }
        Wide::Division => {
            div_bits(alloc, to, a, b)?;
        }
        Wide::Choice => {
            mux_each(alloc, to, Bit::Literal(K), a, b)?;
        }
    }
    Ok(())
}

/// A gate, its words, and how many variables and clauses it adds to eleven variables.
type Size = (Wide, Word, Word, usize, usize);

// The sizes are counted by hand from these: a gate of two bits that is true where both are has 1 variable and 3 clauses, one
// that is true where one of them is has 1 and 4, and a choice 1 and 4. A half adder has one of each of the first two: 2 and
// 7. A full adder has two of the second and a choice: 3 and 12. Where both bits are false and there is no carry nothing
// is added.
const SIZES: &[Size] = &[
    // A half adder, and four full ones: 2 + 4 * 3 and 7 + 4 * 12. The sixth bit is the carry.
    (Wide::Sum, Word::First, Word::Second, 14, 55),
    // Five rows of five bits: 25 and 75. The second row is added by a half adder, three full ones, and a half one for its
    // top bit and the carry: 13 and 50. Each later row by a half adder and four full ones, since the sum has a bit above:
    // three times 14 and 55.
    (Wide::Product, Word::First, Word::Second, 80, 290),
    // The word moved up by one and the word moved up by three: their sum has a half adder, two full ones and two half
    // ones.
    (Wide::Product, Word::Ten, Word::First, 12, 45),
    // Whether the upper bits of the divisor are false: 4 and 12. The five steps compare and subtract 1 to 5 bits, the
    // lowest by 2 and 7 and each other one by a full adder. Each step has a choice for each bit, and all but the last ask
    // for the upper bits of the divisor: 4 and 14, 8 and 30, 12 and 46, 16 and 62, 19 and 75. The five bits of both answers
    // are 0 where the divisor is: 10 and 30.
    (Wide::Division, Word::First, Word::Second, 73, 269),
    // No upper bits are asked for, since the divisor is known, and its highest bit makes the first three steps nothing. The
    // fourth: the third bit compares and subtracts by 2 and 7, and the fourth too; three bits are chosen: 7 and 26. The
    // fifth: the same, with a test of the bit above: 8 and 29.
    (Wide::Division, Word::First, Word::Ten, 15, 55),
    // A choice for each of five bits.
    (Wide::Choice, Word::First, Word::Second, 5, 20),
];

// The table. Proofs see no row of it.
fn sizes() -> &'static [Size] {
    SIZES
}

fn expect_size(to: &Clauses, vars: usize, clauses: usize) -> Result<(), Fault> {
    expect(to.vars() == vars && to.len() == clauses)
}

fn is_of_size(alloc: Global, row: Size) -> Result<(), Fault> {
    let (gate, a, b, vars, clauses) = row;
    let a = bits_of(alloc, a)?;
    let b = bits_of(alloc, b)?;
    let mut to = SharedGates::new(alloc, Clauses::with_vars(alloc, 11));
    put_wide(alloc, &mut to, gate, a.as_slice(), b.as_slice())?;
    expect_size(to.clauses(), vars.saturating_add(11), clauses)
}

fn tell_sizes(alloc: Global, report: &mut Report) -> Result<(), AllocError> {
    for row in sizes() {
        report.row(is_of_size(alloc, *row))?;
    }
    report.end("sizes of gates")
}

/// Tells of the tables of gates.
pub fn tell(alloc: Global, report: &mut Report) -> Result<(), AllocError> {
    tell_literals(alloc, report)?;
    tell_words(alloc, report)?;
    tell_numbers(alloc, report)?;
    tell_sizes(alloc, report)
}
