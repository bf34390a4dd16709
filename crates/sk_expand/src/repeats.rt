//! How many copies repeats hold.
ghost use Rattle.std.specs.Prelude.{◌≡◌, ◌-◌, ◌^◌, min};
ghost use Rattle.sk_model.specs.Expand.{most_copies, copies_held};

use sk_base::Bounds;
use sk_expand_sites::hole_bits;
use sk_prog::PEForm;

/// A number, or the greatest one of so many bits where that is smaller.
#[tactic(auto, using(crate::proofs::Widths::wide))]
fn capped(number: u32, bits: u32) -> u32
    ensures { result ≡ min (2 ^ bits - 1) number }
{
    if bits >= 32 {
        return number;
    }
    let greatest = ((1u64 << bits) - 1) as u32;
    if greatest < number { greatest } else { number }
}

/// How many copies are held that a hole of so many bits may keep.
pub fn most_copies(bounds: &Bounds, bits: u32) -> u32
    ensures { result ≡ most_copies bounds.now bits }
{
    let turns = capped(bounds.unroll, bounds.int_bits.saturating_sub(1));
    capped(turns, bits)
}

/// How many copies a repeat with this count holds.
pub fn copies_held(bounds: &Bounds, count: &PEForm) -> u32
    ensures { result ≡ copies_held bounds.now count.now }
{
    match count {
        PEForm::Number(n) => *n,
        PEForm::Hole(width) => most_copies(bounds, hole_bits(bounds, *width)),
        _ => 0,
    }
}
