//! What the rules say of small types and trees: examples, with nothing to run.

ghost use Rattle.std.specs.Prelude.{◌≡◌, List, [], ◌∷◌, true, false, Some, None};
ghost use Rattle.sk_types_rules.specs.declared.rules.Own.TheVariants.{Wrong, Loose, Firm};
ghost use Rattle.sk_types_rules.specs.declared.rules.Fit.TheVariants.{Misfit, Same, Widens, Pads};
ghost use Rattle.sk_types_rules.specs.declared.rules.Class.TheVariants.{Plus, Bitwise};
ghost use Rattle.sk_tree.specs.declared.token.Mark.TheVariants.{Minus, Star, Plus as Sum};
ghost use Rattle.sk_types_rules.specs.Rules.{int, bit, fit_of, join, operand, is_grid, width_fits};
ghost use Rattle.sk_types_rules.specs.Constants.{whole_number, constant_number};
ghost use Rattle.sk_types_rules.specs.Sorts.{sort, own, kept};
ghost use Rattle.sk_types_rules.specs.Plain.{plain_stmt};
ghost use Rattle.sk_types_rules.specs.Types.{Means};
ghost use Rattle.sk_types_rules.specs.Examples.{bounds, context, scope, hiding, integer_b, bits_one, bits, ints, rows, a, b, N, hole, number, of_two, two_names, one_name_each, one_more, one_added, counted, turned, large, too_large};

/// The hole of `b + ??` is an integer, though `b` is a bit, and that of `b & ??` is a bit.
pub fn a_hole_beside_a_bit()
    ensures sum { operand Plus (own context scope b) (own context scope hole) ≡ Firm int }
    ensures meet { operand Bitwise (own context scope b) (own context scope hole) ≡ Firm bit }
    ensures whole { own context scope (of_two Sum b hole) ≡ Firm int }
{}

/// Into `bit[8]` a bit and shorter arrays of bits are padded, and longer ones do not fit.
pub fn padding()
    ensures single { fit_of bit (bits 8) ≡ Pads }
    ensures shorter { fit_of (bits 4) (bits 8) ≡ Pads }
    ensures longer { fit_of (bits 9) (bits 8) ≡ Misfit }
    ensures integer { fit_of int (bits 8) ≡ Misfit }
    ensures literal { (sort context scope (number 1)).at (bits 8) ≡ true }
    ensures larger { (sort context scope (number 2)).at (bits 8) ≡ false }
{}

/// The join of two arrays is the longer one.
pub fn joins()
    ensures arrays { join (ints 3) (ints 2) ≡ Firm (ints 3) }
    ensures element { join int (ints 2) ≡ Firm (ints 2) }
    ensures numbers { join bit int ≡ Firm int }
    ensures none { join bit (ints 2) ≡ Wrong }
{}

/// `int[2][3]` is made of one `int[2]` or of fewer of them, and not of an `int`.
pub fn arrays_of_arrays()
    ensures element { fit_of (ints 2) (rows 2 3) ≡ Pads }
    ensures fewer { fit_of (rows 2 2) (rows 2 3) ≡ Pads }
    ensures same { fit_of (rows 2 3) (rows 2 3) ≡ Same }
    ensures other { fit_of (ints 3) (rows 2 3) ≡ Misfit }
    ensures back { fit_of (ints 3) int ≡ Misfit }
    ensures single { fit_of int (rows 2 3) ≡ Misfit }
{}

/// Where an integer is wanted, `{| a | b |}` keeps the integer `a`, and where a bit is, `b`.
pub fn strings_kept()
    ensures integer { kept context scope int (a ∷ b ∷ []) ≡ a ∷ [] }
    ensures bit { kept context scope bit (a ∷ b ∷ []) ≡ b ∷ [] }
    ensures loose { kept context scope bit (a ∷ hole ∷ b ∷ []) ≡ hole ∷ b ∷ [] }
{}

/// Steps become assignments, several names as many declarations, and a `for` a `while` in a block.
pub fn plain_forms()
    ensures step { plain_stmt one_more ≡ one_added ∷ [] }
    ensures names { plain_stmt two_names ≡ one_name_each }
    ensures loops { plain_stmt counted ≡ turned ∷ [] }
{}

/// Constant expressions are computed in whole numbers; a value below 0 or too large is none.
pub fn constants()
    ensures seven { constant_number context scope (of_two Minus (of_two Star N (number 2)) (number 1)) ≡ Some 7 }
    ensures negative { constant_number context scope (of_two Minus (number 2) (number 3)) ≡ None }
    ensures back { constant_number context scope (of_two Sum (of_two Minus (number 2) (number 3)) (number 1)) ≡ Some 0 }
    ensures beyond { whole_number context scope too_large ≡ None }
    ensures variable { constant_number context scope a ≡ None }
    ensures named { constant_number context scope N ≡ Some 4 }
    ensures hidden { constant_number context hiding N ≡ None }
{}

/// Arrays of arrays have at most 256 elements in all, and a hole has 1 to W - 1 bits.
pub fn limits()
    ensures most { is_grid 32 8 ≡ true }
    ensures more { is_grid 33 8 ≡ false }
    ensures longer { is_grid 1 65 ≡ false }
    ensures widest { width_fits bounds (Some 31) ≡ true }
    ensures wider { width_fits bounds (Some 32) ≡ false }
    ensures none { width_fits bounds (Some 0) ≡ false }
{}

/// A bit where an integer is wanted stands under a coercion; 1 where `bit[8]` is wanted is of that type.
pub fn coercions()
    ensures widened { Means context scope integer_b b }
    ensures padded { Means context scope bits_one (number 1) }
{}
