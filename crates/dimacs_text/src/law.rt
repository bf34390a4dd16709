ghost use Rattle.std.specs.Prelude.{◌≡◌, ℕ, List};
ghost use Rattle.sk_clause.specs.declared.lit.Lit.{Lit};
ghost use Rattle.sk_clause.specs.Problem.{Problem};
ghost use Rattle.dimacs_text.specs.Formula.{IsFormula, IsLog};

/// A law, with nothing to run: a text says one formula at most, and one log at most.
#[tactic(auto, using(crate::proofs::ReadLemmas::laws))]
pub fn readings_are_unique()
    ensures formulas { (text : List ℕ) (p q : Problem) → IsFormula text p → IsFormula text q → p ≡ q }
    ensures logs { (text : List ℕ) (a b : List (List Lit)) → IsLog text a → IsLog text b → a ≡ b }
{}
