//! What holds of the definitions.
ghost use Rattle.sk_trace_text.specs.Laws.{OneFault, NoFaultOfTrace, OneTrace, AnEnd, OneFaultOfText, NoFaultOfTextTrace, OneTextTrace, NoCauseOfTrace, NoCauseOfFault};

/// Of each expansion, numbers, name and words one thing holds: a function is run step by step, with one end and one text,
/// or one reason why none is.
pub fn one_end()
    ensures fault { OneFault }
    ensures apart { NoFaultOfTrace }
    ensures trace { OneTrace }
    ensures some { AnEnd }
{}

/// Of each text, with the options of a line, one thing holds: a function is run step by step, with one end and one text, or
/// one reason why none is, or it has no expansion within the limits.
pub fn one_end_of_text()
    ensures fault { OneFaultOfText }
    ensures apart { NoFaultOfTextTrace }
    ensures trace { OneTextTrace }
    ensures no_trace { NoCauseOfTrace }
    ensures no_fault { NoCauseOfFault }
{}
