//! Laws of own types where an expression is filled.
ghost use Rattle.sk_holes_laws.specs.Expanded.{FilledMeans};
ghost use Rattle.sk_holes_laws.specs.Fillings.{ExprsFill, TargetsFill};
ghost use Rattle.sk_holes_laws.specs.Holes.{HolesFill};
ghost use Rattle.sk_holes_laws.specs.LawNames.{OwnsFit, OperandsStay, ChoicesStay};
ghost use Rattle.sk_holes_laws.specs.Strings.{KeptAreStrings, StringsFill};

/// Where no struct names a field twice, what means an expression at a type has an own type that fits this
/// type, or is loose.
pub fn own_types_fit()
    ensures { OwnsFit }
{}

/// What an operator wants of two operands at a type, it wants of them still where one, or both, which stand at
/// that type have it by themselves.
pub fn operands_stay()
    ensures { OperandsStay }
{}

/// The own type of `c ? a : b`, of which a or b, or both, have by themselves the type at which they stand, is what
/// it was, or that type.
pub fn choices_stay()
    ensures { ChoicesStay }
{}

/// In the place of a hole that keeps the rules at a type, whose values are in range, filling puts a number, or
/// braces of bits, that means an expression at that type.
pub fn holes_fill()
    ensures { HolesFill }
{}

/// What a pattern keeps at a type means expressions that are loose, or of that type by themselves.
pub fn kept_are_strings()
    ensures { KeptAreStrings }
{}

/// In the place of a pattern at a type, filling puts such a string, which means an expression at that type, in
/// parentheses or as it is.
pub fn strings_fill()
    ensures { StringsFill }
{}

/// A filled expression keeps the rules, at the type that it had.
pub fn exprs_fill()
    ensures { ExprsFill }
{}

/// A filled target is a target of the same type.
pub fn targets_fill()
    ensures { TargetsFill }
{}

/// A filling of an expansion, by a choice in range, keeps the rules and is well-formed.
pub fn filled_means()
    ensures { FilledMeans }
{}
