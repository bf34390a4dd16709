//! What holds of the definitions.
ghost use Rattle.sk_exec.specs.Laws.{OneFault, NoFaultOfRuns, OneRun, AnEnd, OneFaultOfText, NoFaultOfTextRun, OneTextRun, NoCauseOfRun, NoCauseOfFault};

/// Of each expansion, name and words one thing holds: a function is run, with one end and one text, or one reason why
/// none is.
pub fn one_end()
    ensures fault { OneFault }
    ensures apart { NoFaultOfRuns }
    ensures run { OneRun }
    ensures some { AnEnd }
{}

/// Of each text, with the options of a line, one thing holds: a function is run, with one end and one text, or one reason
/// why none is, or it has no expansion within the limits.
pub fn one_end_of_text()
    ensures fault { OneFaultOfText }
    ensures apart { NoFaultOfTextRun }
    ensures run { OneTextRun }
    ensures no_run { NoCauseOfRun }
    ensures no_fault { NoCauseOfFault }
{}
