//! Inputs and their parts, each computed by the check.
ghost use Rattle.sk_check_text.specs.Examples.{OneMark, TwoMarks, LastMark, NoMark};

/// A line `//%%` divides an input, the first of two does, and so does a last one without its line feed. A line with more on it
/// does not.
pub fn parts_of_inputs()
    ensures one { OneMark }
    ensures two { TwoMarks }
    ensures last { LastMark }
    ensures none { NoMark }
{}
