ghost use Rattle.std.specs.Prelude.{◌≡◌, ℕ, Bool, true, List};
ghost use Rattle.sk_clause.specs.Meaning.{Follows, Meets, clause_true, Refutes};
ghost use Rattle.sk_clause.specs.declared.lit.Lit.{Lit};

/// A law, with nothing to run: a clause that follows from clauses is true under all values that make each of them
/// true, and so no values make each clause of a refuted list true.
pub fn refutation_is_sound()
    ensures follows { (v : ℕ → Bool) (clauses : List (List Lit)) (c : List Lit) → Follows clauses c → Meets v clauses → clause_true v c ≡ true }
    ensures refuted { (v : ℕ → Bool) (clauses log : List (List Lit)) → Refutes clauses log → Meets v clauses → ⊥ }
{}
