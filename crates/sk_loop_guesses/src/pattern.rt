//! The bits of guesses. No contract says which they are: a guess counts only where it speaks against a choice.

use sk_base::List;
use std::alloc::{AllocError, Global};

/// At so many places, as far apart as there are bits, one bit alone is set.
const PLACES: u64 = 16;

/// The seeds of guesses by random bits of which a quarter is set. Of eight beginnings that were tried these, and those below, are good
/// on all sketches of the bench.
const QUARTERS: [u64; 3] = [317, 318, 319];

/// The seeds of guesses by random bits of which a half is set.
const HALVES: [u64; 3] = [320, 321, 322];

/// Which bits of an input a guess sets.
#[derive(Debug, Clone, Copy)]
pub(crate) enum Pattern {
    /// None.
    Zeros,
    /// One alone, at the place with this number.
    Single(u64),
    /// About a quarter of them, by a seed.
    Quarter(u64),
    /// About half of them, by a seed.
    Half(u64),
}

// The next number of a sequence that looks random in its high bits.
fn next(state: u64) -> u64 {
    state
        .wrapping_mul(6_364_136_223_846_793_005)
        .wrapping_add(1_442_695_040_888_963_407)
}

// The bit at which a place stands among so many. Few bits have a place each.
fn bit_of(place: u64, count: u64) -> u64 {
    if count <= PLACES {
        place
    } else {
        count.saturating_mul(place) / PLACES
    }
}

// Puts so many bits behind the others, of which one alone is set.
fn push_single(bits: &mut List<bool>, bit: u64, count: u64) -> Result<(), AllocError> {
    for i in 0..count {
        bits.push(i == bit)?;
    }
    Ok(())
}

// Puts so many random bits behind the others. Those of the mask are 0 where a bit is set.
fn push_random(bits: &mut List<bool>, seed: u64, mask: u64, count: u64) -> Result<(), AllocError> {
    let mut state = next(seed);
    for _bit in 0..count {
        state = next(state);
        bits.push((state >> 40) & mask == 0)?;
    }
    Ok(())
}

impl Pattern {
    /// Puts so many bits of the pattern behind the others.
    pub(crate) fn push_bits(self, bits: &mut List<bool>, count: u64) -> Result<(), AllocError> {
        match self {
            Pattern::Zeros => push_single(bits, count, count),
            Pattern::Single(place) => push_single(bits, bit_of(place, count), count),
            Pattern::Quarter(seed) => push_random(bits, seed, 3, count),
            Pattern::Half(seed) => push_random(bits, seed, 1, count),
        }
    }
}

/// The patterns in the order in which they are tried, where no obligation has more bits: those that set few bits first.
pub(crate) fn patterns(alloc: Global, most: u64) -> Result<List<Pattern>, AllocError> {
    let mut listed = List::new(alloc);
    listed.push(Pattern::Zeros)?;
    for place in 0..PLACES {
        if place < most {
            listed.push(Pattern::Single(place))?;
        }
    }
    for seed in QUARTERS {
        listed.push(Pattern::Quarter(seed))?;
    }
    for seed in HALVES {
        listed.push(Pattern::Half(seed))?;
    }
    Ok(listed)
}
