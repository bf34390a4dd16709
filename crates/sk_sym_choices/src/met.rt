//! What the walk has met.

ghost use Rattle.std.specs.Prelude.{◌≡◌, ◌++◌, ◌∷◌, [], OnOk, IfOk};

use crate::guard::{Called, Owed, Test};
use sk_base::{List, Span};
use std::alloc::{AllocError, Global};

/// What calls and pays, in order.
#[derive(Drop)]
pub(crate) struct Met {
    pub called: List<Called>,
    pub owed: List<Owed>,
}

// The same tests once more.
fn listed(alloc: Global, path: &[Test]) -> Result<List<Test>, AllocError>
    ensures { IfOk result (λ made. made ≡ path.now) }
{
    let mut made = List::new(alloc);
    for t in path {
        made.push(*t)?;
    }
    Ok(made)
}

impl Met {
    /// Nothing.
    pub(crate) fn new(alloc: Global) -> Met
        ensures { result ≡ record { called = []; owed = [] } }
    {
        Met {
            called: List::new(alloc),
            owed: List::new(alloc),
        }
    }

    /// Notes that a function is called under tests.
    pub(crate) fn call(&mut self, alloc: Global, f: u32, path: &[Test]) -> Result<(), AllocError>
        ensures called { OnOk result (self.new.called ≡ self.old.called ++ record { f = f; tests = path.now } ∷ []) }
        ensures owed { OnOk result (self.new.owed ≡ self.old.owed) }
    {
        let tests = listed(alloc, path)?;
        self.called.push(Called { f, tests })?;
        Ok(())
    }

    /// Notes that a minrepeat with a site stands under tests.
    pub(crate) fn owe(
        &mut self,
        alloc: Global,
        span: Span,
        site: usize,
        path: &[Test],
    ) -> Result<(), AllocError>
        ensures called { OnOk result (self.new.called ≡ self.old.called) }
        ensures owed { OnOk result (self.new.owed ≡ self.old.owed ++ record { span = span; site = site; tests = path.now } ∷ []) }
    {
        let tests = listed(alloc, path)?;
        self.owed.push(Owed { span, site, tests })?;
        Ok(())
    }
}
