//! Fronts of slices, and what stands behind them. Where a slice is shorter, its front is all of it.

ghost use Rattle.std.specs.Prelude.{◌≡◌, take, drop};

/// The first so many items.
pub fn front<T>(items: &[T], count: usize) -> &[T]
    ensures { result.now ≡ take count items.now }
{
    if items.len() <= count {
        return items;
    }
    &items[..count]
}

/// All but the first so many items.
pub fn behind<T>(items: &[T], count: usize) -> &[T]
    ensures { result.now ≡ drop count items.now }
{
    if items.len() <= count {
        return &[];
    }
    &items[count..]
}
