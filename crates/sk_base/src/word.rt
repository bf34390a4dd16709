ghost use Rattle.std.specs.Prelude.{◌≡◌, ◌≤◌};
ghost use Rattle.sk_base.specs.Word.{wrapped, IsWord, Differ};

/// The number that `n` becomes at a width of `bits` bits: the one number from -2^(bits-1) to
/// 2^(bits-1) - 1 that differs from `n` by a multiple of 2^bits. It takes no memory.
pub fn wrap(bits: u32, n: i64) -> i64
    requires bits_low { 2 ≤ bits }
    requires bits_high { bits ≤ 32 }
    ensures value { result ≡ wrapped bits n }
    ensures range { IsWord bits result }
    ensures multiple { Differ bits n result }
{
    let half = (1u64 << (bits - 1)) as i64;
    let rest = n.rem_euclid(2 * half);
    if rest < half { rest } else { rest - 2 * half }
}
