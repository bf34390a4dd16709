//! Tests of a choice as nodes.

ghost use Rattle.std.specs.Prelude.{◌≡◌, ◌<◌, ℕ, List, IfOk};
ghost use Rattle.std.specs.Option.{option_copied};
ghost use Rattle.sk_dag.specs.declared.env.Env.{Env};
ghost use Rattle.sk_dag.specs.Graph.{Graph, Grows, HasBool};
ghost use Rattle.sk_dag.specs.Eval.{bool_value, Keeps};
ghost use Rattle.sk_model.specs.Parts.{value};
ghost use Rattle.sk_sym_folds.specs.Chosen.{chosen_values};
ghost use Rattle.sk_sym_choices.specs.Guards.{meets, meets_all};
ghost use Rattle.sk_sym_choices.specs.Sizes.{AreInRange};

use crate::guard::Test;
use sk_dag::{BoolId, Dag};
use sk_limits::never;
use sk_model::{Choice, Site};
use sk_sym_folds::{and, flag, site_above, site_is};
use std::alloc::AllocError;

// How many values a site has. It is one of an expanded program (`never`).
pub(crate) fn size_of(sites: &[Site], site: usize) -> Result<u64, AllocError>
    ensures { IfOk result (λ size. (values : List ℕ) → AreInRange sites.now values → value values site < size) }
{
    if site >= sites.len() {
        return Err(never());
    }
    Ok(sites[site].size)
}

// Whether a test is met.
fn is_met(
    dag: &mut Dag,
    sites: &[Site],
    test: Test,
    chosen: Option<&Choice>,
) -> Result<BoolId, AllocError>
    ensures keeps { Keeps dag.old dag.new }
    ensures there { IfOk result (λ r. HasBool dag.new.nodes r) }
    ensures value { IfOk result (λ r. (g : Graph) → Grows dag.new g → (e : Env) →
        AreInRange sites.now (chosen_values (option_copied chosen.entry) e) →
        bool_value g e r ≡ meets (chosen_values (option_copied chosen.entry) e) test) }
{
    match test {
        Test::Takes { site, number } => {
            let size = size_of(sites, site)?;
            let r = site_is(dag, site, size, number as u64, chosen)?;
            Ok(r)
        }
        Test::Exceeds { site, number } => {
            let size = size_of(sites, site)?;
            let r = site_above(dag, site, size, number as u64, chosen)?;
            Ok(r)
        }
    }
}

// Whether all of these tests of a choice are met, for a choice whose values are below the sizes of their sites. After a
// refusal the graph has all nodes that it had (`keeps`).
pub(crate) fn all_met(
    dag: &mut Dag,
    sites: &[Site],
    tests: &[Test],
    chosen: Option<&Choice>,
) -> Result<BoolId, AllocError>
    ensures keeps { Keeps dag.old dag.new }
    ensures there { IfOk result (λ r. HasBool dag.new.nodes r) }
    ensures value { IfOk result (λ r. (g : Graph) → Grows dag.new g → (e : Env) →
        AreInRange sites.now (chosen_values (option_copied chosen.entry) e) →
        bool_value g e r ≡ meets_all (chosen_values (option_copied chosen.entry) e) tests.now) }
{
    let yes = flag(dag, true)?;
    let mut met = yes;
    for test in tests {
        let one = is_met(dag, sites, *test, chosen)?;
        let more = and(dag, met, one)?;
        met = more;
    }
    Ok(met)
}
