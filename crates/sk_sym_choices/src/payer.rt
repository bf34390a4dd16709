//! The payments of a program, function by function.

ghost use Rattle.std.specs.Prelude.{◌≡◌, ◌+◌, ◌≤◌, ◌∷◌, [], false, true, length, map, get_or, nat_lt, if◌then◌else◌, OnOk, IfOk};
ghost use Rattle.sk_dag.specs.Graph.{HasBool};
ghost use Rattle.sk_dag.specs.Eval.{Keeps};
ghost use Rattle.sk_sym_choices.specs.Orders.{AllThere, IsGiven};
ghost use Rattle.sk_sym_choices.specs.Payments.{AllOwed, IsUnder, AreMarked, AreOwed, StandsBy, IsTurned, PaysAll, count_of};
ghost use Rattle.sk_model.specs.Parts.{total};
ghost use Rattle.sk_sym_choices.specs.Programs.{guards_of};

use crate::guard::{Called, Owed, Test};
use crate::met::Met;
use crate::node::all_met;
use crate::order::{copies_of, node_at};
use crate::payment::Payment;
use crate::walker;
use sk_base::List;
use sk_dag::{BoolId, Dag};
use sk_model::{Choice, Site};
use sk_prog::Fun;
use sk_sym_folds::{and, or};
use std::alloc::{AllocError, Global};

/// What is fixed while the functions are gone over: the sites of the program, the choice where one is given, how many
/// functions are ordinary, and nodes that never and that always hold.
#[derive(Clone, Copy)]
pub(crate) struct Payer<'a> {
    pub(crate) alloc: Global,
    pub(crate) sites: &'a [Site],
    pub(crate) chosen: Option<&'a Choice>,
    pub(crate) ordinary: u32,
    pub(crate) never: BoolId,
    pub(crate) always: BoolId,
}

impl Payer<'_> {
    // Whether a node holds and all tests are met.
    fn under(&self, dag: &mut Dag, node: BoolId, tests: &[Test]) -> Result<BoolId, AllocError>
        requires { HasBool dag.old.nodes node }
        ensures keeps { Keeps dag.old dag.new }
        ensures under { IfOk result (λ r. IsUnder self.now dag.new node tests.now r) }
    {
        let met = all_met(dag, self.sites, tests, self.chosen)?;
        let r = and(dag, node, met)?;
        Ok(r)
    }

    // Notes that a function is called where a node holds and its tests are met.
    fn call(
        &self,
        dag: &mut Dag,
        node: BoolId,
        c: &Called,
        table: &mut List<BoolId>,
    ) -> Result<(), AllocError>
        requires node { HasBool dag.old.nodes node }
        requires table { AllThere dag.old table.old }
        ensures keeps { Keeps dag.old dag.new }
        ensures marked { OnOk result (AreMarked self.now dag.new node (c.now ∷ []) table.old table.new) }
    {
        let when = self.under(dag, node, c.tests.as_slice())?;
        let at = c.f as usize;
        if at >= table.len() {
            return Ok(());
        }
        let before = node_at(table.as_slice(), at, when);
        let either = or(dag, before, when)?;
        table.set(at, either);
        Ok(())
    }

    // Notes which functions are called where a node holds.
    fn calls(
        &self,
        dag: &mut Dag,
        node: BoolId,
        calls: &[Called],
        table: &mut List<BoolId>,
    ) -> Result<(), AllocError>
        requires node { HasBool dag.old.nodes node }
        requires table { AllThere dag.old table.old }
        ensures keeps { Keeps dag.old dag.new }
        ensures marked { OnOk result (AreMarked self.now dag.new node calls.now table.old table.new) }
    {
        for c in calls {
            self.call(dag, node, c, table)?;
        }
        Ok(())
    }

    // Notes what is paid where a node holds and the tests of what is owed are met.
    fn owe(
        &self,
        dag: &mut Dag,
        node: BoolId,
        o: &Owed,
        made: &mut List<Payment>,
    ) -> Result<(), AllocError>
        requires node { HasBool dag.old.nodes node }
        requires made { AllOwed dag.old made.old }
        ensures keeps { Keeps dag.old dag.new }
        ensures owed { OnOk result (AreOwed self.now dag.new node (o.now ∷ []) made.old made.new) }
    {
        let when = self.under(dag, node, o.tests.as_slice())?;
        made.push(Payment {
            span: o.span,
            site: o.site,
            when,
        })?;
        Ok(())
    }

    // Notes what is paid where a node holds.
    fn owes(
        &self,
        dag: &mut Dag,
        node: BoolId,
        owed: &[Owed],
        made: &mut List<Payment>,
    ) -> Result<(), AllocError>
        requires node { HasBool dag.old.nodes node }
        requires made { AllOwed dag.old made.old }
        ensures keeps { Keeps dag.old dag.new }
        ensures owed { OnOk result (AreOwed self.now dag.new node owed.now made.old made.new) }
    {
        for o in owed {
            self.owe(dag, node, o, made)?;
        }
        Ok(())
    }

    // Whether the function with a number stands: an ordinary one does, and each other where it is called.
    fn stands(&self, table: &[BoolId], n: usize) -> BoolId
        ensures { result ≡ (if nat_lt n self.now.ordinary then self.now.always else get_or table.now n self.now.never) }
    {
        if n < self.ordinary as usize {
            return self.always;
        }
        node_at(table, n, self.never)
    }

    // Notes what is called and paid in a function that stands where a node holds.
    fn body(
        &self,
        dag: &mut Dag,
        node: BoolId,
        met: &Met,
        table: &mut List<BoolId>,
        made: &mut List<Payment>,
    ) -> Result<(), AllocError>
        requires node { HasBool dag.old.nodes node }
        requires table { AllThere dag.old table.old }
        requires made { AllOwed dag.old made.old }
        ensures keeps { Keeps dag.old dag.new }
        ensures marked { OnOk result (AreMarked self.now dag.new node met.now.called table.old table.new) }
        ensures owed { OnOk result (AreOwed self.now dag.new node met.now.owed made.old made.new) }
    {
        self.calls(dag, node, met.called.as_slice(), table)?;
        self.owes(dag, node, met.owed.as_slice(), made)?;
        Ok(())
    }

    /// Notes what is called and paid in the function with a number, whose first site has the place.
    pub(crate) fn turn(
        &self,
        dag: &mut Dag,
        n: usize,
        f: &Fun,
        at: &mut usize,
        table: &mut List<BoolId>,
        made: &mut List<Payment>,
    ) -> Result<(), AllocError>
        requires never { IsGiven dag.old self.now.never false }
        requires always { IsGiven dag.old self.now.always true }
        requires table { AllThere dag.old table.old }
        requires made { AllOwed dag.old made.old }
        requires at { at.old + (guards_of f.now).count ≤ length self.now.sites.now }
        ensures keeps { Keeps dag.old dag.new }
        ensures turned { OnOk result (IsTurned self.now dag.new n at.old f.now table.old table.new made.old made.new) }
        ensures at { OnOk result (at.new ≡ at.old + (guards_of f.now).count) }
    {
        let node = self.stands(table.as_slice(), n);
        let met = walker::guards_of(self.alloc, self.sites, at, f.body.as_slice())?;
        self.body(dag, node, &met, table, made)?;
        Ok(())
    }

    /// What the functions of the program pay, in order.
    pub(crate) fn all(&self, dag: &mut Dag, funs: &[Fun]) -> Result<List<Payment>, AllocError>
        requires never { IsGiven dag.old self.now.never false }
        requires always { IsGiven dag.old self.now.always true }
        requires sites { total (map count_of funs.now) ≤ length self.now.sites.now }
        ensures keeps { Keeps dag.old dag.new }
        ensures pays { IfOk result (λ made. PaysAll self.now dag.new funs.now made) }
    {
        let mut table = copies_of(self.alloc, self.never, funs.len())?;
        let mut made = List::new(self.alloc);
        let mut at = 0;
        for (n, f) in funs.iter().enumerate() {
            self.turn(dag, n, f, &mut at, &mut table, &mut made)?;
        }
        Ok(made)
    }
}
