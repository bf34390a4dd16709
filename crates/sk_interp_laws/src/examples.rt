//! Steps of small runs, computed by the check.
ghost use Rattle.sk_interp_laws.specs.Examples.{StepExamples};

/// What statements tell, where they fail, and in which order.
pub fn steps_of_small_runs()
    ensures { StepExamples }
{}
