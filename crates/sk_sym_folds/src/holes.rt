//! What is chosen for a site, as nodes. A site has the number of its place. Where a choice is given, its values are
//! constants, and no node of the graph depends on the choice of the environment.

ghost use Rattle.std.specs.Prelude.{◌≡◌, ◌<◌, ◌==◌, ◌&&◌, ◌||◌, ◌%◌, ◌^◌, IfOk, if◌then◌else◌, nat_lt, pos, slice_index};
ghost use Rattle.std.specs.Option.{option_copied};
ghost use Rattle.sk_base.specs.Word.{wrapped};
ghost use Rattle.sk_dag.specs.declared.env.Env.{Env};
ghost use Rattle.sk_dag.specs.Word.{bit_of};
ghost use Rattle.sk_dag.specs.Graph.{Graph, Grows, HasBool, HasWord};
ghost use Rattle.sk_dag.specs.Eval.{bool_value, word_value, Keeps};
ghost use Rattle.sk_model.specs.Parts.{value};
ghost use Rattle.sk_model.specs.Values.{same_bit};
ghost use Rattle.sk_sym_folds.specs.Chosen.{chosen_values};

use crate::bits::{and, not, or};
use sk_dag::word::wrap_unsigned;
use sk_dag::{BoolId, Dag, WordId};
use sk_limits::number_of;
use sk_model::Choice;
use std::alloc::AllocError;

// The value of a site under a choice.
fn value_of(choice: &Choice, site: usize) -> u64
    ensures { result ≡ value choice.now.values site }
{
    choice.values.as_slice().get(site).copied().unwrap_or(0)
}

// Whether bit `k` of a number is 1.
fn has_bit(n: u64, k: u32) -> bool
    ensures { result ≡ (nat_lt k 64 && bit_of n k) }
{
    k < 64 && n >> k & 1 == 1
}

/// Bit `k` of what is chosen for a site. Bit 0 is the lowest; a value has 64 bits.
///
/// # Errors
///
/// Memory is wanting, or the place of the site is 2^32 or more.
pub fn hole_flag(
    dag: &mut Dag,
    site: usize,
    k: u32,
    chosen: Option<&Choice>,
) -> Result<BoolId, AllocError>
    ensures keeps { Keeps dag.old dag.new }
    ensures there { IfOk result (λ r. HasBool dag.new.nodes r) }
    ensures value { IfOk result (λ r. (g : Graph) → Grows dag.new g → (e : Env) →
        bool_value g e r ≡ (nat_lt k 64 && bit_of (value (chosen_values (option_copied chosen.entry) e) site) k)) }
{
    match chosen {
        Some(choice) => {
            let r = dag.flag(has_bit(value_of(choice, site), k))?;
            Ok(r)
        }
        None => {
            let number = number_of(site)?;
            let r = dag.hole_bit(number, k)?;
            Ok(r)
        }
    }
}

/// What is chosen for a site, as a word: wrapped to the width.
///
/// # Errors
///
/// Memory is wanting, or the place of the site is 2^32 or more.
#[tactic(auto, using(crate::proofs::Makers::arithmetic))]
pub fn hole_number(
    dag: &mut Dag,
    site: usize,
    chosen: Option<&Choice>,
) -> Result<WordId, AllocError>
    ensures keeps { Keeps dag.old dag.new }
    ensures there { IfOk result (λ r. HasWord dag.new.nodes r) }
    ensures value { IfOk result (λ r. (g : Graph) → Grows dag.new g → (e : Env) →
        word_value g e r ≡ wrapped dag.old.bits (pos (value (chosen_values (option_copied chosen.entry) e) site))) }
{
    match chosen {
        Some(choice) => {
            let r = given_number(dag, value_of(choice, site))?;
            Ok(r)
        }
        None => {
            let number = number_of(site)?;
            let r = dag.hole_word(number)?;
            Ok(r)
        }
    }
}

// A number that is given, as a word.
#[tactic(auto, using(crate::proofs::Makers::arithmetic))]
fn given_number(dag: &mut Dag, n: u64) -> Result<WordId, AllocError>
    ensures keeps { Keeps dag.old dag.new }
    ensures there { IfOk result (λ r. HasWord dag.new.nodes r) }
    ensures value { IfOk result (λ r. (g : Graph) → Grows dag.new g → (e : Env) →
        word_value g e r ≡ wrapped dag.old.bits (pos n)) }
{
    let bits = dag.int_bits();
    let r = dag.word(wrap_unsigned(bits, n))?;
    Ok(r)
}

// A number of bits with which each number up to the greatest can be written.
fn width_of(greatest: u64) -> u32
    ensures wide { greatest < 2 ^ result }
    ensures few { result < 65 }
{
    for width in 0..64 {
        if greatest >> width == 0 {
            return width;
        }
    }
    64
}

// Whether the lowest bits of what is chosen for a site are those of `k`.
#[tactic(auto, using(crate::proofs::LowBits::matching))]
fn matches_low(dag: &mut Dag, site: u32, width: u32, k: u64) -> Result<BoolId, AllocError>
    requires { width < 65 }
    ensures keeps { Keeps dag.old dag.new }
    ensures there { IfOk result (λ r. HasBool dag.new.nodes r) }
    ensures value { IfOk result (λ r. (g : Graph) → Grows dag.new g → (e : Env) →
        bool_value g e r ≡ (slice_index e.choice site % 2 ^ width == k % 2 ^ width)) }
{
    let yes = dag.flag(true)?;
    let mut same = yes;
    for j in 0..width {
        let next = matches_bit(dag, site, j, k, same)?;
        same = next;
    }
    Ok(same)
}

// Whether a test holds, and bit `j` of what is chosen for a site is that of `k`.
fn matches_bit(
    dag: &mut Dag,
    site: u32,
    j: u32,
    k: u64,
    below: BoolId,
) -> Result<BoolId, AllocError>
    requires j { j < 64 }
    requires below { HasBool dag.old.nodes below }
    ensures keeps { Keeps dag.old dag.new }
    ensures there { IfOk result (λ r. HasBool dag.new.nodes r) }
    ensures value { IfOk result (λ r. (g : Graph) → Grows dag.new g → (e : Env) →
        bool_value g e r ≡ (bool_value g e below && same_bit (bit_of (slice_index e.choice site) j) (bit_of k j))) }
{
    let bit = dag.hole_bit(site, j)?;
    if has_bit(k, j) {
        let r = and(dag, below, bit)?;
        return Ok(r);
    }
    let other = not(dag, bit)?;
    let r = and(dag, below, other)?;
    Ok(r)
}

// Whether the number of the lowest bits of what is chosen for a site is above that of `k`.
#[tactic(auto, using(crate::proofs::LowBits::matching))]
fn exceeds_low(dag: &mut Dag, site: u32, width: u32, k: u64) -> Result<BoolId, AllocError>
    requires { width < 65 }
    ensures keeps { Keeps dag.old dag.new }
    ensures there { IfOk result (λ r. HasBool dag.new.nodes r) }
    ensures value { IfOk result (λ r. (g : Graph) → Grows dag.new g → (e : Env) →
        bool_value g e r ≡ nat_lt (k % 2 ^ width) (slice_index e.choice site % 2 ^ width)) }
{
    let no = dag.flag(false)?;
    let mut above = no;
    for j in 0..width {
        let next = exceeds_bit(dag, site, j, k, above)?;
        above = next;
    }
    Ok(above)
}

// Whether bit `j` of what is chosen for a site is above that of `k`, or is the same and a test holds.
fn exceeds_bit(
    dag: &mut Dag,
    site: u32,
    j: u32,
    k: u64,
    below: BoolId,
) -> Result<BoolId, AllocError>
    requires j { j < 64 }
    requires below { HasBool dag.old.nodes below }
    ensures keeps { Keeps dag.old dag.new }
    ensures there { IfOk result (λ r. HasBool dag.new.nodes r) }
    ensures value { IfOk result (λ r. (g : Graph) → Grows dag.new g → (e : Env) →
        bool_value g e r ≡ (if bit_of k j then (bit_of (slice_index e.choice site) j && bool_value g e below) else (bit_of (slice_index e.choice site) j || bool_value g e below))) }
{
    let bit = dag.hole_bit(site, j)?;
    if has_bit(k, j) {
        let r = and(dag, bit, below)?;
        return Ok(r);
    }
    let r = or(dag, bit, below)?;
    Ok(r)
}

/// Whether `k` is what is chosen for a site, by bits. It is exact for a choice in range: where the value is below the
/// site's number of values, `size`.
///
/// # Errors
///
/// Memory is wanting, or the place of the site is 2^32 or more.
#[tactic(auto, using(crate::proofs::Makers::staying))]
pub fn site_is(
    dag: &mut Dag,
    site: usize,
    size: u64,
    k: u64,
    chosen: Option<&Choice>,
) -> Result<BoolId, AllocError>
    ensures keeps { Keeps dag.old dag.new }
    ensures there { IfOk result (λ r. HasBool dag.new.nodes r) }
    ensures value { IfOk result (λ r. (g : Graph) → Grows dag.new g → (e : Env) →
        value (chosen_values (option_copied chosen.entry) e) site < size →
        bool_value g e r ≡ (value (chosen_values (option_copied chosen.entry) e) site == k)) }
{
    match chosen {
        Some(choice) => {
            let r = dag.flag(value_of(choice, site) == k)?;
            Ok(r)
        }
        None => {
            let r = open_is(dag, site, size, k)?;
            Ok(r)
        }
    }
}

// Whether `k` is what the environment chooses for a site.
#[tactic(auto, using(crate::proofs::Makers::staying))]
fn open_is(dag: &mut Dag, site: usize, size: u64, k: u64) -> Result<BoolId, AllocError>
    ensures keeps { Keeps dag.old dag.new }
    ensures there { IfOk result (λ r. HasBool dag.new.nodes r) }
    ensures value { IfOk result (λ r. (g : Graph) → Grows dag.new g → (e : Env) →
        value e.choice site < size → bool_value g e r ≡ (value e.choice site == k)) }
{
    if k >= size {
        let r = dag.flag(false)?;
        return Ok(r);
    }
    let number = number_of(site)?;
    let r = matches_low(dag, number, width_of(size - 1), k)?;
    Ok(r)
}

/// Whether what is chosen for a site is above `k`, by bits. It is exact for a choice in range: where the value is below
/// the site's number of values, `size`.
///
/// # Errors
///
/// Memory is wanting, or the place of the site is 2^32 or more.
#[tactic(auto, using(crate::proofs::Makers::staying))]
pub fn site_above(
    dag: &mut Dag,
    site: usize,
    size: u64,
    k: u64,
    chosen: Option<&Choice>,
) -> Result<BoolId, AllocError>
    ensures keeps { Keeps dag.old dag.new }
    ensures there { IfOk result (λ r. HasBool dag.new.nodes r) }
    ensures value { IfOk result (λ r. (g : Graph) → Grows dag.new g → (e : Env) →
        value (chosen_values (option_copied chosen.entry) e) site < size →
        bool_value g e r ≡ nat_lt k (value (chosen_values (option_copied chosen.entry) e) site)) }
{
    match chosen {
        Some(choice) => {
            let r = dag.flag(value_of(choice, site) > k)?;
            Ok(r)
        }
        None => {
            let r = open_above(dag, site, size, k)?;
            Ok(r)
        }
    }
}

// Whether what the environment chooses for a site is above `k`.
#[tactic(auto, using(crate::proofs::Makers::staying))]
fn open_above(dag: &mut Dag, site: usize, size: u64, k: u64) -> Result<BoolId, AllocError>
    ensures keeps { Keeps dag.old dag.new }
    ensures there { IfOk result (λ r. HasBool dag.new.nodes r) }
    ensures value { IfOk result (λ r. (g : Graph) → Grows dag.new g → (e : Env) →
        value e.choice site < size → bool_value g e r ≡ nat_lt k (value e.choice site)) }
{
    if k >= size {
        let r = dag.flag(false)?;
        return Ok(r);
    }
    let number = number_of(site)?;
    let r = exceeds_low(dag, number, width_of(size - 1), k)?;
    Ok(r)
}
