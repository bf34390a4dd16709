//! Targets one by one.

ghost use Rattle.std.specs.Prelude.{◌≡◌, ◌∷◌, [], MatchOption};

use sk_dag::BoolId;

/// The first target, and those behind it.
#[derive(Clone, Copy)]
pub(crate) struct Front<'a> {
    pub(crate) slot: u32,
    pub(crate) guard: BoolId,
    pub(crate) more: &'a [(u32, BoolId)],
}

/// The first of these targets, where there is one.
pub(crate) fn front_of<'a>(targets: &'a [(u32, BoolId)]) -> Option<Front<'a>>
    ensures { MatchOption result (targets.now ≡ []) (λ front. targets.now ≡ (front.slot, front.guard) ∷ front.more.now) }
{
    match targets {
        [] => None,
        [(slot, guard), more @ ..] => Some(Front {
            slot: *slot,
            guard: *guard,
            more,
        }),
    }
}
