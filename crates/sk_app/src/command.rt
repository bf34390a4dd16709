//! The call that does all that the program does.

ghost use Rattle.std.specs.Prelude.{List, Option, ◌≡◌, map, string_bytes, IsTrue, IfSome};
ghost use Rattle.sk_base.specs.Stream.{Rose};
ghost use Rattle.sk_clause.specs.declared.lit.Lit.{Lit};
ghost use Rattle.sk_cnf.specs.declared.growing.Encoded.{Encoded};
ghost use Rattle.sk_model.specs.declared.expanded.Choice.{Choice};
ghost use Rattle.sk_model.specs.declared.expanded.Pair.{Pair};
ghost use Rattle.sk_oblig_queries.specs.declared.query.Query.{Query};
ghost use Rattle.sk_loop_laws.specs.Shown.{AreSpent};
ghost use Rattle.sk_opts.specs.declared.line.Line.TheVariants as line;
ghost use Rattle.sk_opts.specs.Ranges.{IsInRanges, LineIsInRanges};
ghost use Rattle.sk_app.specs.ResultText.{IsCompletion, IsNone};
ghost use Rattle.sk_app.specs.Spent.{AreLearnt, IsSpentRounds, IsSpentConflicts};
ghost use Rattle.sk_app.specs.Results.{IsResult};
ghost use Rattle.sk_front.specs.Texts.{most_bytes};
ghost use Rattle.sk_app_reading.specs.Streams.{TakesFew};
ghost use Rattle.sk_app.specs.Help.{help_text};
ghost use Rattle.sk_app.specs.Ends.{IsDelivered, Writes, WritesPart, writes_nothing, IsToldOf};
ghost use Rattle.sk_app.specs.Effects.{is_of_synth, TellsSpan, Serves, Answers};
ghost use Rattle.sk_app.specs.Call.{effect, call};
ghost use Rattle.sk_app.specs.Headline.{Headline};
ghost use Rattle.sk_app.specs.Listings.{Listings};
ghost use Rattle.sk_app.specs.Clauses.{TellsNoLine, NoLineEnds, TellsHelp, HelpEnds, TellsVersion, VersionEnds, TellsCompletion, TellsNone, TellsRounds, TellsConflicts, BuiltEnds, SelfEnds, TellsNotText, PlacesNotText, FaultyEnds, TellsNotTyped, PlacesNotTyped, UntypedEnds, TellsTooLarge, LargeEnds, CopiesEnds, TellsTooLong, LongEnds, TellsDone, TellsFailed, TellsSkipped, RunEnds, TellsNotRun, TellsNotFilled, NotRunEnds, TellsLowered, KeepsTypes, LoweredEnds, TellsNotLowered, NotLoweredEnds, TellsNotTagged, NotTaggedEnds, RefusedEnds, TellsPruned, KeepsFunctions, PrunedEnds, OpenEnds, TellsListed, ListedEnds, TellsExplained, ExplainedEnds, TellsMet, MetEnds, TellsAccepted, CheckedEnds, AcceptedEnds, TellsRejected, RejectedEnds, TellsNoForm, NoFormEnds, TellsLongInput, LongInputEnds, UntakenEnds, TellsReadFault, TellsWriteFault, CutsOutput, CutsHelp, CutsSummary, CutsVersion, KeepsSink, ReadsFew, LeavesSource};

use crate::check::check_source;
use crate::direct::{Job, Way, run_source};
use crate::ending::Ending;
use crate::help::{help, version};
use crate::itself::summarise;
use crate::listing::{Question, ask_source};
use crate::lower::lower_source;
use crate::output::deliver;
use crate::prepare::{Found, Prepared, prepare};
use crate::prune::prune_source;
use sk_base::{Budget, Sink, Source};
use sk_opts::{Line, Set, Usage, options};
use sk_watch::Watch;
use std::alloc::Global;

/// Writes the help.
fn show_help<K: Sink>(alloc: Global, sink: &mut K) -> Ending
    ensures { IsDelivered result Ending.HelpShown help_text (K.faults sink.old) (K.faults sink.new) (K.held sink.old) (K.held sink.new) }
{
    match help(alloc) {
        Ok(text) => deliver(sink, text.as_slice(), Ending::HelpShown),
        Err(_) => Ending::Memory,
    }
}

/// Completes the text of the source with the options and budgets of a line, and writes the result to the sink, with
/// a certificate where one is asked for.
fn synth<S: Source, K: Sink, W: Watch>(
    alloc: Global,
    set: &Set,
    budget: &Budget,
    cert: bool,
    source: &mut S,
    sink: &mut K,
    watch: &mut W,
) -> Ending
    requires { IsInRanges set.now }
    ensures ends { IsTrue (is_of_synth result) }
    ensures completed { result ≡ Ending.Completed → IfSome (S.left source.old) (λ text. Writes (IsCompletion set.now budget.now cert text) (K.held sink.old) (K.held sink.new)) }
    ensures none { (pairs : List Pair) → result ≡ Ending.NoCompletion pairs → IfSome (S.left source.old) (λ text. Writes (IsNone set.now budget.now cert text pairs) (K.held sink.old) (K.held sink.new)) }
    ensures rounds { (pairs : List Pair) (best : Option Choice) → result ≡ Ending.SpentRounds pairs best → AreSpent budget.now.rounds pairs × IfSome (S.left source.old) (λ text. Writes (IsSpentRounds set.now budget.now text pairs best) (K.held sink.old) (K.held sink.new)) }
    ensures conflicts { (pairs : List Pair) (q : Query) (formula : Encoded) (log : List (List Lit)) (best : Option Choice) → result ≡ Ending.SpentConflicts pairs q formula log best → AreLearnt budget.now.conflicts log × IfSome (S.left source.old) (λ text. Writes (IsSpentConflicts set.now budget.now cert text pairs q formula log best) (K.held sink.old) (K.held sink.new)) }
    ensures told { IfSome (S.left source.old) (λ text. IsToldOf set.now text result (S.faults source.old) (S.faults source.new) (K.faults sink.old) (K.faults sink.new)) }
    ensures place { TellsSpan result (S.left source.old) }
    ensures read_fault { result ≡ Ending.ReadFault → Rose (S.faults source.old) (S.faults source.new) }
    ensures write_fault { result ≡ Ending.WriteFault → Rose (K.faults sink.old) (K.faults sink.new) }
    ensures prefix { result ≡ Ending.WriteFault → IfSome (S.left source.old) (λ text. WritesPart (IsResult set.now budget.now cert text) (K.held sink.old) (K.held sink.new)) }
    ensures kept { IsTrue (writes_nothing result) → K.held sink.new ≡ K.held sink.old }
    ensures few { TakesFew most_bytes (S.left source.old) (S.left source.new) }
{
    match prepare(alloc, set, budget, cert, source, watch) {
        Err(_) => Ending::Memory,
        Ok(Prepared::ReadFault) => Ending::ReadFault,
        Ok(Prepared::TooLong) => Ending::TooLong,
        Ok(Prepared::Found(Found::NotText(fault))) => Ending::NotText(fault),
        Ok(Prepared::Found(Found::NotTyped(fault))) => Ending::NotTyped(fault),
        Ok(Prepared::Found(Found::TooLarge(fault))) => Ending::TooLarge(fault),
        Ok(Prepared::Found(Found::Ended { out, ending })) => deliver(sink, out.as_slice(), ending),
    }
}

/// Does what a line `synth` asks for.
fn serve_synth<S: Source, K: Sink, W: Watch>(
    alloc: Global,
    set: Set,
    budget: Budget,
    cert: bool,
    source: &mut S,
    sink: &mut K,
    watch: &mut W,
) -> Ending
    requires { IsInRanges set }
    ensures { Serves (line.Synth set budget cert) result (effect S.Source K.Sink source sink) }
{
    synth(alloc, &set, &budget, cert, source, sink, watch)
}

/// Does what a line asks for.
fn serve<S: Source, K: Sink, W: Watch>(
    alloc: Global,
    line: Line,
    source: &mut S,
    sink: &mut K,
    watch: &mut W,
) -> Ending
    requires { LineIsInRanges line }
    ensures { Serves line result (effect S.Source K.Sink source sink) }
{
    match line {
        Line::Synth { set, budget, cert } => {
            serve_synth(alloc, set, budget, cert, source, sink, watch)
        }
        Line::Exec { set, name, values } => {
            let way = Way::Exec;
            run_source(alloc, &set, &Job { name, values, way }, source, sink)
        }
        Line::Trace {
            set,
            name,
            values,
            holes,
        } => {
            let way = Way::Trace(holes);
            run_source(alloc, &set, &Job { name, values, way }, source, sink)
        }
        Line::Lower { set } => lower_source(alloc, &set, source, sink),
        Line::Prune { set } => prune_source(alloc, &set, source, sink),
        Line::All { set, most } => {
            let question = Question::Which { most };
            ask_source(alloc, &set, question, source, sink, watch)
        }
        Line::Why { set } => ask_source(alloc, &set, Question::Why, source, sink, watch),
        Line::Check { set } => check_source(alloc, &set, source, sink),
        Line::Itself { n } => summarise(alloc, n, sink, watch),
        Line::Help => show_help(alloc, sink),
        Line::Version => deliver(sink, version(), Ending::VersionShown),
    }
}

/// Does what the words ask for.
fn answer<S: Source, K: Sink, W: Watch>(
    alloc: Global,
    words: &[String],
    source: &mut S,
    sink: &mut K,
    watch: &mut W,
) -> Ending
    ensures { Answers (map string_bytes words.now) result (effect S.Source K.Sink source sink) }
{
    match options(alloc, words) {
        Ok(line) => serve(alloc, line, source, sink, watch),
        Err(Usage::NotALine) => Ending::NotALine,
        Err(Usage::Memory) => Ending::Memory,
    }
}

/// Runs a command: the words are those behind the program's own name. A line `synth` reads a sketch from the source,
/// completes it, and writes the result to the sink; a line `exec` runs a function of it, and writes what comes of that; a line
/// `trace` fills it with numbers, runs a function of the filling, and writes its steps too; a line `lower` writes the plain
/// sketch of a text with algebraic types; a line `prune` writes a program without what no run can reach; a line `all` lists
/// completions of a sketch, and a line `why` writes inputs that explain why it has none; a line `check` says whether a sketch and
/// a certificate behind it belong together; `--help` and `--version` write their texts; a line `self` completes a sketch that the
/// program makes itself, and writes a summary.
///
/// What is said of the text holds where the source tells what is left, and what is said of what the sink
/// holds where the sink tells it. Want of memory may come at any step. The watcher is told of a search while it goes on: no
/// clause speaks of it, and each holds whatever it does.
///
/// Each clause is one word of the call: `specs/Headline.antt` and `specs/Listings.antt` say the first two, `specs/Clauses.antt` the
/// others. They stand in
/// pairs: an ending comes only where it has its cause, and (`ends_..`) where there is the cause, it comes.
pub fn run<S: Source, K: Sink, W: Watch>(
    alloc: Global,
    words: &[String],
    source: &mut S,
    sink: &mut K,
    watch: &mut W,
) -> Ending
    ensures headline { Headline (call S.Source K.Sink words.now result source sink) }
    ensures listings { Listings (call S.Source K.Sink words.now result source sink) }

    // Words.
    ensures not_a_line { TellsNoLine (call S.Source K.Sink words.now result source sink) }
    ensures ends_no_line { NoLineEnds (call S.Source K.Sink words.now result source sink) }
    ensures help { TellsHelp (call S.Source K.Sink words.now result source sink) }
    ensures ends_help { HelpEnds (call S.Source K.Sink words.now result source sink) }
    ensures version { TellsVersion (call S.Source K.Sink words.now result source sink) }
    ensures ends_version { VersionEnds (call S.Source K.Sink words.now result source sink) }

    // A line `synth` or `self`.
    ensures completed { TellsCompletion (call S.Source K.Sink words.now result source sink) }
    ensures none { TellsNone (call S.Source K.Sink words.now result source sink) }
    ensures spent_rounds { TellsRounds (call S.Source K.Sink words.now result source sink) }
    ensures spent_conflicts { TellsConflicts (call S.Source K.Sink words.now result source sink) }
    ensures ends_built { BuiltEnds (call S.Source K.Sink words.now result source sink) }
    ensures ends_self { SelfEnds (call S.Source K.Sink words.now result source sink) }

    // Texts that are refused.
    ensures not_text { TellsNotText (call S.Source K.Sink words.now result source sink) }
    ensures text_place { PlacesNotText (call S.Source K.Sink words.now result source sink) }
    ensures ends_faulty { FaultyEnds (call S.Source K.Sink words.now result source sink) }
    ensures not_typed { TellsNotTyped (call S.Source K.Sink words.now result source sink) }
    ensures type_place { PlacesNotTyped (call S.Source K.Sink words.now result source sink) }
    ensures ends_untyped { UntypedEnds (call S.Source K.Sink words.now result source sink) }
    ensures too_large { TellsTooLarge (call S.Source K.Sink words.now result source sink) }
    ensures ends_large { LargeEnds (call S.Source K.Sink words.now result source sink) }
    ensures ends_copies { CopiesEnds (call S.Source K.Sink words.now result source sink) }
    ensures too_long { TellsTooLong (call S.Source K.Sink words.now result source sink) }
    ensures ends_long { LongEnds (call S.Source K.Sink words.now result source sink) }

    // A line `exec` or `trace`.
    ensures exec_done { TellsDone (call S.Source K.Sink words.now result source sink) }
    ensures exec_failed { TellsFailed (call S.Source K.Sink words.now result source sink) }
    ensures exec_skipped { TellsSkipped (call S.Source K.Sink words.now result source sink) }
    ensures ends_run { RunEnds (call S.Source K.Sink words.now result source sink) }
    ensures not_run { TellsNotRun (call S.Source K.Sink words.now result source sink) }
    ensures not_filled { TellsNotFilled (call S.Source K.Sink words.now result source sink) }
    ensures ends_not_run { NotRunEnds (call S.Source K.Sink words.now result source sink) }

    // A line `lower`.
    ensures lowered { TellsLowered (call S.Source K.Sink words.now result source sink) }
    ensures kept_types { KeepsTypes (call S.Source K.Sink words.now result source sink) }
    ensures ends_lowered { LoweredEnds (call S.Source K.Sink words.now result source sink) }
    ensures not_lowered { TellsNotLowered (call S.Source K.Sink words.now result source sink) }
    ensures ends_not_lowered { NotLoweredEnds (call S.Source K.Sink words.now result source sink) }
    ensures not_tagged { TellsNotTagged (call S.Source K.Sink words.now result source sink) }
    ensures ends_not_tagged { NotTaggedEnds (call S.Source K.Sink words.now result source sink) }
    ensures ends_refused { RefusedEnds (call S.Source K.Sink words.now result source sink) }

    // A line `prune`.
    ensures pruned { TellsPruned (call S.Source K.Sink words.now result source sink) }
    ensures kept_functions { KeepsFunctions (call S.Source K.Sink words.now result source sink) }
    ensures ends_pruned { PrunedEnds (call S.Source K.Sink words.now result source sink) }
    ensures ends_open { OpenEnds (call S.Source K.Sink words.now result source sink) }

    // A line `all` or `why`.
    ensures listed { TellsListed (call S.Source K.Sink words.now result source sink) }
    ensures ends_listed { ListedEnds (call S.Source K.Sink words.now result source sink) }
    ensures explained { TellsExplained (call S.Source K.Sink words.now result source sink) }
    ensures ends_explained { ExplainedEnds (call S.Source K.Sink words.now result source sink) }
    ensures met { TellsMet (call S.Source K.Sink words.now result source sink) }
    ensures ends_met { MetEnds (call S.Source K.Sink words.now result source sink) }

    // A line `check`.
    ensures accepted { TellsAccepted (call S.Source K.Sink words.now result source sink) }
    ensures ends_checked { CheckedEnds (call S.Source K.Sink words.now result source sink) }
    ensures ends_accepted { AcceptedEnds (call S.Source K.Sink words.now result source sink) }
    ensures rejected { TellsRejected (call S.Source K.Sink words.now result source sink) }
    ensures ends_rejected { RejectedEnds (call S.Source K.Sink words.now result source sink) }
    ensures not_certificate { TellsNoForm (call S.Source K.Sink words.now result source sink) }
    ensures ends_not_certificate { NoFormEnds (call S.Source K.Sink words.now result source sink) }
    ensures long_input { TellsLongInput (call S.Source K.Sink words.now result source sink) }
    ensures ends_long_input { LongInputEnds (call S.Source K.Sink words.now result source sink) }
    ensures ends_refused_input { UntakenEnds (call S.Source K.Sink words.now result source sink) }

    // The streams.
    ensures read_fault { TellsReadFault (call S.Source K.Sink words.now result source sink) }
    ensures write_fault { TellsWriteFault (call S.Source K.Sink words.now result source sink) }
    ensures prefix { CutsOutput (call S.Source K.Sink words.now result source sink) }
    ensures prefix_self { CutsSummary (call S.Source K.Sink words.now result source sink) }
    ensures prefix_help { CutsHelp (call S.Source K.Sink words.now result source sink) }
    ensures prefix_version { CutsVersion (call S.Source K.Sink words.now result source sink) }
    ensures kept { KeepsSink (call S.Source K.Sink words.now result source sink) }
    ensures few { ReadsFew (call S.Source K.Sink words.now result source sink) }
    ensures unread { LeavesSource (call S.Source K.Sink words.now result source sink) }
{
    let ending = answer(alloc, words, source, sink, watch);
    ending
}
