//! Laws of runs under a choice.
ghost use Rattle.sk_holes_choice_laws.specs.Running.{RunsUnderChoices, OrdinaryRunsUnderChoices};
ghost use Rattle.sk_holes_choice_laws.specs.Meeting.{ChoicesMeetAsFillings};

/// Under a choice in range a function of an expansion that stands does what it does in the filling, where it has a
/// number of its own.
pub fn runs_under_choices()
    ensures { RunsUnderChoices }
{}

/// So an ordinary function does what it does in the filling, under its own number.
pub fn ordinary_runs_under_choices()
    ensures { OrdinaryRunsUnderChoices }
{}

/// Under a choice in range an expansion must hold what its filling must hold: the obligations and their inputs are the
/// same, and so are the inputs that break one, and what each costs.
pub fn choices_meet_as_fillings()
    ensures { ChoicesMeetAsFillings }
{}
