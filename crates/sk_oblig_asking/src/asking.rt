//! A formula that asks for a choice, and for more of it with each input that is added.

ghost use Rattle.std.specs.Prelude.{◌≡◌, ◌++◌, ◌∷◌, [], List as ListOf, None, length, IfOk, OnErr, OnOk};
ghost use Rattle.sk_cnf.specs.Formula.{Tight};
ghost use Rattle.sk_cnf.specs.Standing.{Begins};
ghost use Rattle.sk_oblig.specs.Formulas.{IsAskable};
ghost use Rattle.sk_oblig_asking.specs.Asking.{AsksForEach, Demand, IsAsking};

use crate::moving::fine_in;
use sk_base::{Bounds, List};
use sk_cnf::{Encoded, Growing, Leaf};
use sk_dag::Dag;
use sk_model::{Expanded, Input};
use sk_oblig::in_range;
use sk_oblig_queries::{Query, leaves_of};
use std::alloc::{AllocError, Global};

/// A formula over the bits of all sites that asks for a choice in range, which passes each input that was added within the
/// limit that it was added with.
#[derive(Drop)]
pub struct Asking {
    alloc: Global,
    dag: Dag,
    growing: Growing,
}

impl Asking {
    /// One that asks for a choice in range.
    pub fn new(alloc: Global, expanded: &Expanded, bounds: &Bounds) -> Result<Asking, AllocError>
        requires askable { IsAskable expanded.now bounds.now }
        ensures asking { IfOk result (λ a. IsAsking a expanded.now bounds.now []) }
    {
        let mut dag = Dag::new(alloc, bounds.int_bits);
        let root = in_range(&mut dag, expanded.sites.as_slice())?;
        let query = Query::Wanted {
            inputs: List::new(alloc),
            limit: None,
        };
        let leaves = leaves_of(alloc, expanded, bounds, &query)?;
        let mut growing = Growing::new(alloc, leaves.as_slice())?;
        growing.require(&dag, root)?;
        Ok(Asking {
            alloc,
            dag,
            growing,
        })
    }

    /// Asks also that the choice passes an input within a limit.
    ///
    /// Names and clauses stay, and new clauses stand behind the old ones. After a refusal the formula may hold further variables
    /// and clauses. They leave the meaning of its names as it was, but bits of the names may extend in more than one way: so it
    /// asks for what it asked, and is not to be added to again.
    ///
    /// # Errors
    ///
    /// Memory is wanting, or what `execute` counts as that; or the input names a record, or has an `int` that is no word of
    /// the width.
    #[tactic(auto, using(crate::proofs::Growth::refusals))]
    pub fn add(
        &mut self,
        expanded: &Expanded,
        bounds: &Bounds,
        input: &Input,
        limit: Option<u64>,
    ) -> Result<(), AllocError>
        requires askable { IsAskable expanded.now bounds.now }
        requires stands { (demands : ListOf Demand) × IsAsking self.old expanded.now bounds.now demands }
        ensures asking { (demands : ListOf Demand) → IsAsking self.old expanded.now bounds.now demands
            → OnOk result (IsAsking self.new expanded.now bounds.now (demands ++ (record { input = input.now; limit = limit }) ∷ [])) }
        ensures refused { (demands : ListOf Demand) → IsAsking self.old expanded.now bounds.now demands
            → OnErr result (AsksForEach self.new.growing.encoded expanded.now bounds.now demands) }
        ensures behind { Begins self.old.growing.encoded.clauses self.new.growing.encoded.clauses }
        ensures names { self.new.growing.encoded.names ≡ self.old.growing.encoded.names }
    {
        let root = fine_in(self.alloc, &mut self.dag, expanded, bounds, input, limit)?;
        self.growing.require(&self.dag, root)?;
        Ok(())
    }

    /// How many nodes the graph has of which the formula is made.
    pub fn nodes(&self) -> usize
        ensures { result ≡ length self.now.dag.nodes }
    {
        self.dag.len()
    }

    /// The formula.
    pub fn encoded(&self) -> &Encoded
        ensures { result.now ≡ self.now.growing.encoded }
    {
        self.growing.encoded()
    }
}
