//! Command lines, bounds and values, each computed by the check.
ghost use Rattle.sk_opts.specs.Examples.{SynthAlone, SynthWithOptions, ExecBeforeOption, ExecOfNegative, SelfOfSeven, AllOfHundred, WhyAlone, TraceWithHoles, TraceWithoutHoles, ValuePastRange, OptionTwice, OptionForValue, PositionalOfSynth, ValueMissing, HolesOfExec, NoNumberOfHoles, AllOfNone, AllPastHundred, AllWithoutNumber, AllOfTwoNumbers, RoundsOfAll, PositionalOfWhy, BoundsOfPragmas, BoundsPassedOver, GridOfBits, TooFewScalars, NegativeInt};

/// Lines that are taken.
pub fn lines_that_are_taken()
    ensures synth { SynthAlone }
    ensures options { SynthWithOptions }
    ensures exec { ExecBeforeOption }
    ensures negative { ExecOfNegative }
    ensures itself { SelfOfSeven }
    ensures listing { AllOfHundred }
    ensures causes { WhyAlone }
    ensures trace { TraceWithHoles }
    ensures bare_trace { TraceWithoutHoles }
{}

/// Lines that are refused: a value past its range, an option twice, an unknown option, a positional where there is none,
/// an option without its value, numbers for holes of a line that takes none, nothing between two commas, and a listing of
/// none, of more than 100, without its number, with two, or with a budget.
pub fn lines_that_are_refused()
    ensures range { ValuePastRange }
    ensures twice { OptionTwice }
    ensures unknown { OptionForValue }
    ensures positional { PositionalOfSynth }
    ensures missing { ValueMissing }
    ensures exec_holes { HolesOfExec }
    ensures empty_hole { NoNumberOfHoles }
    ensures list_of_none { AllOfNone }
    ensures long_list { AllPastHundred }
    ensures list_alone { AllWithoutNumber }
    ensures two_numbers { AllOfTwoNumbers }
    ensures list_rounds { RoundsOfAll }
    ensures causes_positional { PositionalOfWhy }
{}

/// The later of two pragmas wins, numbers out of range are passed over, and a narrow `int` narrows
/// holes.
pub fn bounds_of_two_pragmas()
    ensures { BoundsOfPragmas }
{}

/// Words of a pragma that set nothing are passed over.
pub fn bounds_of_words_passed_over()
    ensures { BoundsPassedOver }
{}

/// Values of arrays and of `int`.
pub fn spelt_values()
    ensures grid { GridOfBits }
    ensures few { TooFewScalars }
    ensures negative { NegativeInt }
{}
