//! Laws of typing, with nothing to run.
ghost use Rattle.sk_types_laws.specs.LawNames.{Exact, Whole, Once};

/// Where no struct names a field twice, an expression becomes a typed expression at a type exactly where it means
/// that one there: it means no other, and where it becomes none it means none.
pub fn expressions_are_exact()
    ensures { Exact }
{}

/// A tree becomes a program exactly where it means that one: where it becomes none it means none.
pub fn trees_are_exact()
    ensures { Whole }
{}

/// A tree means one program at most, spans included.
pub fn trees_mean_one_program()
    ensures { Once }
{}
