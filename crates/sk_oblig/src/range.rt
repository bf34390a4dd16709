//! Whether a choice is in range, by its bits.

ghost use Rattle.std.specs.Prelude.{◌≡◌, ◌+◌, ◌<◌, ◌%◌, ◌^◌, ◌&&◌, ◌||◌, if◌then◌else◌, nat_lt, slice_index, IfOk};
ghost use Rattle.sk_dag.specs.declared.env.Env.{Env};
ghost use Rattle.sk_dag.specs.Graph.{Graph, Grows, HasBool};
ghost use Rattle.sk_dag.specs.Eval.{bool_value, Keeps};
ghost use Rattle.sk_dag.specs.Word.{bit_of};
ghost use Rattle.sk_oblig_queries.specs.Numbers.{bits_of_size};
ghost use Rattle.sk_oblig.specs.Nodes.{SaysInRange};

use sk_dag::{BoolId, Dag};
use sk_limits::behind;
use sk_model::Site;
use sk_sym_folds::{and, flag, not, or};
use std::alloc::AllocError;

// A number of bits with which each number up to the greatest can be written.
fn width_of(greatest: u64) -> u32
    ensures wide { greatest < 2 ^ result }
    ensures few { result < 65 }
{
    for width in 0..64 {
        if greatest >> width == 0 {
            return width;
        }
    }
    64
}

// Whether bit `j` of a number is set.
fn has_bit(number: u64, j: u32) -> bool
    requires { j < 64 }
    ensures { result ≡ bit_of number j }
{
    number >> j & 1 == 1
}

// Whether bit `j` of a site's value is above that of `k`, or is the same and a test holds.
fn exceeds_bit(
    dag: &mut Dag,
    site: u32,
    j: u32,
    k: u64,
    below: BoolId,
) -> Result<BoolId, AllocError>
    requires j { j < 64 }
    requires below { HasBool dag.old.nodes below }
    ensures keeps { Keeps dag.old dag.new }
    ensures there { IfOk result (λ r. HasBool dag.new.nodes r) }
    ensures value { IfOk result (λ r. (g : Graph) → Grows dag.new g → (e : Env) →
        bool_value g e r ≡ (if bit_of k j then (bit_of (slice_index e.choice site) j && bool_value g e below) else (bit_of (slice_index e.choice site) j || bool_value g e below))) }
{
    let bit = dag.hole_bit(site, j)?;
    if has_bit(k, j) {
        let r = and(dag, bit, below)?;
        return Ok(r);
    }
    let r = or(dag, bit, below)?;
    Ok(r)
}

// Whether the number of the lowest bits of a site's value is above that of `k`.
#[tactic(auto, using(sk_sym_folds::proofs::LowBits::matching))]
fn exceeds_low(dag: &mut Dag, site: u32, width: u32, k: u64) -> Result<BoolId, AllocError>
    requires { width < 65 }
    ensures keeps { Keeps dag.old dag.new }
    ensures there { IfOk result (λ r. HasBool dag.new.nodes r) }
    ensures value { IfOk result (λ r. (g : Graph) → Grows dag.new g → (e : Env) →
        bool_value g e r ≡ nat_lt (k % 2 ^ width) (slice_index e.choice site % 2 ^ width)) }
{
    let no = flag(dag, false)?;
    let mut above = no;
    for j in 0..width {
        let next = exceeds_bit(dag, site, j, k, above)?;
        above = next;
    }
    Ok(above)
}

// Whether a site's value is below its size, of one that has no more bits than the size asks for.
#[tactic(auto, using(crate::proofs::Ranges::below_size))]
fn is_below(dag: &mut Dag, site: u32, size: u64) -> Result<BoolId, AllocError>
    ensures keeps { Keeps dag.old dag.new }
    ensures there { IfOk result (λ r. HasBool dag.new.nodes r) }
    ensures value { IfOk result (λ r. (g : Graph) → Grows dag.new g → (e : Env) →
        slice_index e.choice site < 2 ^ bits_of_size size → bool_value g e r ≡ nat_lt (slice_index e.choice site) size) }
{
    if size == 0 {
        let r = flag(dag, false)?;
        return Ok(r);
    }
    let above = exceeds_low(dag, site, width_of(size - 1), size - 1)?;
    let r = not(dag, above)?;
    Ok(r)
}

/// Whether each value of the choice is below the size of its site, where none has more bits than the size asks for.
#[tactic(auto, using(crate::proofs::Ranges::in_range))]
pub fn in_range(dag: &mut Dag, sites: &[Site]) -> Result<BoolId, AllocError>
    ensures keeps { Keeps dag.old dag.new }
    ensures range { IfOk result (λ r. SaysInRange dag.new sites.now r) }
{
    let mut all = flag(dag, true)?;
    let mut place = 0;
    for site in sites {
        let one = is_below(dag, place, site.size)?;
        all = and(dag, all, one)?;
        place = behind(place)?;
    }
    Ok(all)
}
