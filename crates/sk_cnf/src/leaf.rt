//! The bits of which an environment is made.

/// One bit of the value of a hole or of a scalar of the input. Bit 0 is the lowest.
#[derive(Clone, Copy, PartialEq, Eq, Hash, Debug)]
pub enum Leaf {
    /// Bit `k` of the value of the hole at `site`.
    Hole { site: u32, k: u32 },
    /// Bit `k` of a scalar of the input.
    Input { scalar: u32, k: u32 },
}
