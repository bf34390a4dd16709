//! The bits that stand for the values of nodes, and how they are read.

ghost use Rattle.std.specs.Prelude.{◌≡◌, ℕ, ◌≤◌, Bool, length};
ghost use Rattle.sk_base.specs.Word.{signed};
ghost use Rattle.sk_dag.specs.Eval.{bool_at, word_at, cost_at};
ghost use Rattle.sk_gates.specs.Bits.{bit_true, reach, AreOver};
ghost use Rattle.sk_gates.specs.Words.{bits_word};
ghost use Rattle.sk_cnf.specs.Codes.{coded_at, table_values, TableFits};
ghost use Rattle.std.specs.Option.{option_copied};

use sk_base::{List, at};
use sk_dag::{BoolId, CostId, WordId};
use sk_gates::Bit;

// The bits that stand for the value of a node, the least first.
#[derive(Debug, Drop)]
pub enum Code {
    Truth(Bit),
    Word(List<Bit>),
    Cost(List<Bit>),
}

const ZEROS: [Bit; 64] = [Bit::Constant(false); 64];

// A number of so many bits that is 0.
fn zero(len: usize) -> &'static [Bit]
    requires { len ≤ 64 }
    ensures length { length result.now ≡ len }
    ensures within { (vars : ℕ) → AreOver vars result.now }
    ensures value { (v : ℕ → Bool) → bits_word v result.now ≡ 0 }
{
    &ZEROS[..len]
}

// The code at a place of the table, if there is one.
pub fn code_at(codes: &[Option<Code>], i: usize) -> Option<&Code>
    ensures { option_copied result ≡ coded_at codes.now i }
{
    match at(codes, i) {
        Some(Some(code)) => Some(code),
        Some(None) => None,
        None => None,
    }
}

// The bit of a truth value.
pub fn truth_of(codes: &[Option<Code>], a: BoolId) -> Bit
    ensures value { (w : ℕ) (v : ℕ → Bool) → bit_true v result ≡ bool_at (table_values w v codes.now) a }
    ensures within { (w vars : ℕ) → TableFits w vars codes.now → reach result ≤ vars }
{
    match code_at(codes, a.index) {
        Some(Code::Truth(bit)) => *bit,
        Some(Code::Word(_)) => Bit::Constant(false),
        Some(Code::Cost(_)) => Bit::Constant(false),
        None => Bit::Constant(false),
    }
}

// The bits of a word.
pub fn word_of<'a>(codes: &'a [Option<Code>], width: usize, a: WordId) -> &'a [Bit]
    requires width { width ≤ 64 }
    ensures length { (vars : ℕ) → TableFits width vars codes.now → length result.now ≡ width }
    ensures within { (vars : ℕ) → TableFits width vars codes.now → AreOver vars result.now }
    ensures value { (v : ℕ → Bool) → signed width (bits_word v result.now) ≡ word_at (table_values width v codes.now) a }
{
    match code_at(codes, a.index) {
        Some(Code::Word(bits)) => bits.as_slice(),
        Some(Code::Truth(_)) => zero(width),
        Some(Code::Cost(_)) => zero(width),
        None => zero(width),
    }
}

// The bits of a cost.
pub fn cost_of(codes: &[Option<Code>], a: CostId) -> &[Bit]
    ensures length { (w vars : ℕ) → TableFits w vars codes.now → length result.now ≡ 64 }
    ensures within { (w vars : ℕ) → TableFits w vars codes.now → AreOver vars result.now }
    ensures value { (w : ℕ) (v : ℕ → Bool) → bits_word v result.now ≡ cost_at (table_values w v codes.now) a }
{
    match code_at(codes, a.index) {
        Some(Code::Cost(bits)) => bits.as_slice(),
        Some(Code::Truth(_)) => zero(64),
        Some(Code::Word(_)) => zero(64),
        None => zero(64),
    }
}
