//! Laws of steps, with nothing to run.
ghost use Rattle.sk_interp_laws.specs.Laws.{WithoutStepsIsRun, LogKeepsFirst, LoggedIsRun};

/// Without its steps, a run with all its steps is the run.
pub fn runs_without_steps_are_runs()
    ensures { WithoutStepsIsRun }
{}

/// A log holds the first steps of the run, as many as it keeps, and tells whether there are others. The run is the same.
pub fn logs_keep_the_first_steps()
    ensures first { LogKeepsFirst }
    ensures run { LoggedIsRun }
{}
