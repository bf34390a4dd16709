//! What the definitions say of small texts and trees: examples, with nothing to run.

ghost use Rattle.std.specs.Prelude.{◌≡◌, List, [], ◌∷◌, true, false, codes};
ghost use Rattle.sk_tree.specs.declared.token.Kind.TheVariants.{Word, Number};
ghost use Rattle.sk_tree.specs.Tokens.{AreTokens, IsFirstFault, OpenComment};
ghost use Rattle.sk_tree.specs.Examples.{p, q, next, dot, maybe_next, a, b, c, minus, dangling, nearest, chosen, commented, unclosed, token_from, loop, loop_kinds, offered, offered_tokens};
ghost use Rattle.sk_tree.specs.Strings.{strings_of};
ghost use Rattle.sk_tree.specs.Reads.{Reads};
ghost use Rattle.sk_tree.specs.Spelt.{ReadsNot};
ghost use Rattle.sk_tree.specs.Spell.{spell};
ghost use Rattle.sk_tree.specs.Placed.{expr_placed, stmt_placed};
ghost use Rattle.sk_tree.specs.Depth.{tree_depth};

/// The strings of `(p | q)(.next)?`: the left part changes slowest, and the empty string is first.
pub fn strings_of_a_pattern()
    ensures strings { strings_of maybe_next ≡ (p ∷ []) ∷ (p ∷ dot ∷ next ∷ []) ∷ (q ∷ []) ∷ (q ∷ dot ∷ next ∷ []) ∷ [] }
{}

/// `a - b - c` groups to the left.
pub fn grouping()
    ensures left { expr_placed (minus (minus a b) c) ≡ true }
    ensures right { expr_placed (minus a (minus b c)) ≡ false }
{}

/// An `else` belongs to the nearest `if`.
pub fn dangling_else()
    ensures near { stmt_placed nearest ≡ true }
    ensures far { stmt_placed dangling ≡ false }
{}

/// The parts of a pattern count, and its strings do not.
pub fn depth_of_a_pattern()
    ensures depth { tree_depth chosen ≡ 6 }
{}

/// Comments of both kinds and blanks are pieces and no tokens.
pub fn tokens_of_a_text()
    ensures tokens { AreTokens commented (token_from 0 1 (Word (codes "a")) ∷ token_from 10 11 (Number 1) ∷ []) }
{}

/// A comment that does not end is the first fault of `int N = 8; /* x`, at its first byte.
pub fn fault_of_a_text()
    ensures fault { IsFirstFault unclosed OpenComment 11 }
{}

/// A `for` is spelt with its first and its next without a `;`.
pub fn spelling_of_a_loop()
    ensures kinds { spell loop ≡ loop_kinds }
{}

/// `int N = {| p | q |};` reads as a constant whose pattern holds the trees of its two strings, with their spans.
pub fn reading_of_a_pattern()
    ensures reads { Reads offered_tokens offered }
{}

/// No expression has no tokens: so `{| a? |}` has a bad alternative, its empty string.
pub fn reading_of_the_empty_string()
    ensures refused { ReadsNot [] }
{}
