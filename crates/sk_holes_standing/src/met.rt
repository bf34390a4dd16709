//! What the walk of what stands has met.
ghost use Rattle.std.specs.Prelude.{◌≡◌, [], ◌∷◌, ◌++◌, OnOk, map};
ghost use Rattle.sk_holes_standing.specs.Met.{payment};

use sk_base::Span;
use std::alloc::{AllocError, Global};
use std::marker::Model;

/// What a minrepeat that stands pays, its value, with its span.
#[derive(Drop, Clone, Copy)]
pub struct Paid {
    pub span: Span,
    pub amount: u32,
}

/// The functions that are called, and what is paid, in order.
#[derive(Drop)]
pub struct Met {
    called: Vec<u32>,
    paid: Vec<Paid>,
}

impl Model for Met {
    ghost use Rattle.std.specs.Prelude.{map};
    ghost use Rattle.sk_holes_standing.specs.Met.{Seen, payment};
    ghost use Rattle.std.specs.Coded.{codes};

    ghost Value = { Seen };

    ghost coded = { Prim.hlevel codes };

    ghost view = { λ m. record { called = m.called.items; payments = map payment m.paid.items } };
}

impl Met {
    /// Nothing.
    pub fn new(alloc: Global) -> Met
        ensures { result ≡ record { called = []; payments = [] } }
    {
        Met {
            called: Vec::new(alloc),
            paid: Vec::new(alloc),
        }
    }

    /// Notes that a function is called. After a refusal what was met is given up with the walk that holds it.
    pub fn call(&mut self, f: u32) -> Result<(), AllocError>
        ensures called { OnOk result (self.new.called ≡ self.old.called ++ f ∷ []) }
        ensures payments { OnOk result (self.new.payments ≡ self.old.payments) }
    {
        self.called.push(f)?;
        Ok(())
    }

    /// Notes what a minrepeat pays. After a refusal what was met is given up with the walk that holds it.
    pub fn pay(&mut self, span: Span, amount: u32) -> Result<(), AllocError>
        ensures called { OnOk result (self.new.called ≡ self.old.called) }
        ensures payments { OnOk result (self.new.payments ≡ self.old.payments ++ record { span = span; amount = amount } ∷ []) }
    {
        self.paid.push(Paid { span, amount })?;
        Ok(())
    }

    /// The functions that are called, in order.
    pub fn called(&self) -> &[u32]
        ensures { result.now ≡ self.now.called }
    {
        self.called.as_slice()
    }

    /// What is paid, in order.
    pub fn paid(&self) -> &[Paid]
        ensures { map payment result.now ≡ self.now.payments }
    {
        self.paid.as_slice()
    }
}
