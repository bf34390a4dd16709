//! How many bits and values holes have.
ghost use Rattle.std.specs.Prelude.{◌≡◌, ◌≤◌, ◌^◌, IfSome};
ghost use Rattle.sk_model.specs.Sites.{hole_bits};

use sk_base::Bounds;

/// How many bits a hole has: as many as it names, or else the width for all holes.
pub fn hole_bits(bounds: &Bounds, width: Option<u32>) -> u32
    ensures { result ≡ hole_bits bounds.now width }
{
    match width {
        Some(bits) => bits,
        None => bounds.cbits,
    }
}

/// How many values a hole of so many bits has, where these are no more than 32.
pub fn values_of(bits: u32) -> Option<u64>
    ensures { IfSome result (λ size. size ≡ 2 ^ bits) }
{
    if bits > 32 {
        return None;
    }
    Some(1u64 << bits)
}
