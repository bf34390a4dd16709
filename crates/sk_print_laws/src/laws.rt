//! Laws of what a layout shows, with nothing to run.
ghost use Rattle.sk_print_laws.specs.MeansAgain.{ExpressionsMean};
ghost use Rattle.sk_print_laws.specs.NumbersSmall.{NumbersAreSmall};
ghost use Rattle.sk_print_laws.specs.PlacedAgain.{ExpressionsPlaced, TreesPlaced};
ghost use Rattle.sk_print_laws.specs.ProgramsShown.{ProgramsShown};
ghost use Rattle.sk_print_laws.specs.ReadableAgain.{ProgramsReadable};
ghost use Rattle.sk_print_laws.specs.ReadsAs.{TextReads};
ghost use Rattle.sk_print_laws.specs.Respans.{Respans};
ghost use Rattle.sk_print_laws.specs.Tells.{Tells};
ghost use Rattle.sk_print_laws.specs.TreesMean.{TreesMean};

/// The layout of a well-formed program, of numbers that a text can spell, is divided into tokens, and these have the
/// kinds that spell the printed tree.
pub fn text_tells_tree()
    ensures { Tells }
{}

/// Where the layout of a program is spelt as a tree may be, tokens of the kinds that spell the printed tree spell a
/// tree that differs from it in spans alone.
pub fn tokens_read()
    ensures { Respans }
{}

/// The layout of a well-formed program that can be spelt reads as a tree that differs from the printed one in spans
/// alone, if the operands of the printed tree stand where they may.
pub fn text_reads()
    ensures { TextReads }
{}

/// An expression that differs in spans alone from a printed one means what was printed, spans aside. The printed one
/// holds fewer strings in its patterns than the tree that it comes from, numbers in place of constant expressions
/// behind `::`, and no coercions.
pub fn expressions_mean_again()
    ensures { ExpressionsMean }
{}

/// What means an expression whose operands stand where they may is printed so, and with the level of that expression.
pub fn expressions_are_placed()
    ensures { ExpressionsPlaced }
{}

/// What a placed tree means is printed as a tree whose operands, and each `else`, stand where they may.
pub fn trees_are_placed()
    ensures { TreesPlaced }
{}

/// A program that a tree means has numbers that a text can spell, where an integer has at most 32 bits.
pub fn numbers_are_small()
    ensures { NumbersAreSmall }
{}

/// A program that keeps the rules is printed so that it is spelt as a tree may be.
pub fn programs_are_readable()
    ensures { ProgramsReadable }
{}

/// A tree that differs in spans alone from a printed program means that program, spans aside. The printed tree holds
/// numbers in place of constant expressions, and its bodies stand in braces.
pub fn trees_mean_again()
    ensures { TreesMean }
{}

/// The layout of a well-formed program that keeps the rules shows that program, where an integer has at most 32 bits.
pub fn programs_are_shown()
    ensures { ProgramsShown }
{}
