//! What the holes and the inputs stand for.

use sk_base::List;

/// An environment: a value for each hole, and one for each scalar of the input. A value that is
/// missing counts as 0.
#[derive(Debug, Drop)]
pub struct Env {
    /// The value of each hole, by the number of its site.
    pub choice: List<u64>,
    /// The scalars of the input, in order.
    pub input: List<i64>,
}

impl Env {
    ghost use Rattle.std.specs.Prelude.{◌≡◌, slice_index};
    ghost use Rattle.sk_dag.specs.Eval.{entry};

    /// The value of the hole at a site.
    pub fn choice_at(&self, site: u32) -> u64
        ensures { result ≡ slice_index self.now.choice site }
    {
        self.choice
            .as_slice()
            .get(site as usize)
            .copied()
            .unwrap_or(0)
    }

    /// A scalar of the input.
    pub fn input_at(&self, scalar: u32) -> i64
        ensures { result ≡ entry self.now.input scalar }
    {
        self.input
            .as_slice()
            .get(scalar as usize)
            .copied()
            .unwrap_or(0)
    }
}
