//! Laws of runs.

ghost use Rattle.std.specs.Prelude.{List};
ghost use Rattle.sk_base.specs.declared.bounds.Bounds.{Bounds};
ghost use Rattle.sk_prog.specs.declared.ids.FunId.{FunId};
ghost use Rattle.sk_prog.specs.declared.prog.Prog.{Prog};
ghost use Rattle.sk_prog.specs.declared.value.Value.{Value};
ghost use Rattle.sk_model.specs.Run.{run};
ghost use Rattle.sk_model.specs.RunningLaws.{EndsInOneWay, FillingIsFilled, OpenRunIsRun, FilledIsClosed, NoSitesIsClosed, RunWithoutSites};

/// A run is done, or it fails, or it is skipped, and only one of these.
pub fn runs_end_in_one_way()
    ensures { (prog : Prog) (f : FunId) (args : List Value) (bounds : Bounds) → EndsInOneWay (run prog f args bounds) }
{}

/// A program that leaves nothing open does under any choice what it does in a run.
pub fn closed_runs_are_runs()
    ensures { OpenRunIsRun }
{}

/// A program without sites leaves nothing open, and does under any choice what it does in a run.
pub fn programs_without_sites_are_closed()
    ensures closed { NoSitesIsClosed }
    ensures runs { RunWithoutSites }
{}

/// A filled program leaves nothing open.
pub fn filled_programs_are_closed()
    ensures { FilledIsClosed }
{}

/// A filling leaves nothing open: its runs meet no hole, pattern, repeat, `minrepeat` or `reorder`.
pub fn fillings_are_filled()
    ensures { FillingIsFilled }
{}
