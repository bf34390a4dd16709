//! Judging of rows.

ghost use Rattle.std.specs.Prelude.{◌≤◌, IfSome};

use crate::ending::ending_text;
use crate::formulas::clauses_of;
use crate::nodes::{Nodes, are_nodes, nodes_in};
use crate::runs::{Subject, run_filled, run_over_nodes, subject_of};
use crate::sessions::{Searches, searches_of};
use crate::sketch::{Sketch, Source, sketch_of};
use row_files::{BlockRow, Judge, Row, first_line, first_section, titled, words_of};
use sk_base::{List, Name};
use sk_exec_values::read_arguments;
use sk_model::Choice;
use sk_prog::Value;
use std::alloc::{AllocError, Global};

/// What a line says: the values of the sites, those of the arguments, and how the run ends, where it says so.
#[derive(Drop)]
struct Case<'a> {
    choice: Choice,
    args: List<Value>,
    wanted: Option<&'a [u8]>,
}

/// What the settings of a row name: a function, and how many bits an `int` has.
#[derive(Clone, Copy)]
struct Called<'a> {
    name: &'a str,
    width: u32,
    ghost low: { 6 ≤ width },
    ghost high: { width ≤ 32 },
}

// The number of bits of an `int` that a word spells.
fn bits_in(word: &str) -> Option<u32>
    ensures low { IfSome result (λ bits. 6 ≤ bits) }
    ensures high { IfSome result (λ bits. bits ≤ 32) }
{
    match word.parse::<u32>() {
        Ok(bits) if bits >= 6 && bits <= 32 => Some(bits),
        _ => None,
    }
}

fn call_in<'a>(words: &'a [String]) -> Option<Called<'a>> {
    match words {
        [name] => Some(Called {
            name: name.as_str(),
            width: 16,
        }),
        [name, bits] => {
            let bits = bits_in(bits.as_str())?;
            Some(Called {
                name: name.as_str(),
                width: bits,
            })
        }
        _ => None,
    }
}

// What stands before ` => ` in a line, and what behind it.
fn divided<'a>(line: &'a [u8]) -> (&'a [u8], Option<&'a [u8]>) {
    for at in 0..line.len() {
        let (before, behind) = line.split_at(at);
        if let Some(wanted) = behind.strip_prefix(b" => ") {
            return (before, Some(wanted));
        }
    }
    (line, None)
}

fn names(alloc: Global, words: &[String]) -> Result<List<Name>, AllocError> {
    let mut made = List::new(alloc);
    for word in words {
        made.push(Name::from_slice(alloc, word.as_bytes())?)?;
    }
    Ok(made)
}

// The numbers before the word `:`, and the words behind it.
fn sites_of<'a>(
    alloc: Global,
    words: &'a [String],
) -> Result<Option<(List<u64>, &'a [String])>, AllocError> {
    let mut values = List::new(alloc);
    let mut rest = words;
    while let [word, after @ ..] = rest {
        rest = after;
        if word.as_str() == ":" {
            return Ok(Some((values, rest)));
        }
        match word.as_str().parse::<u64>() {
            Ok(number) => values.push(number)?,
            Err(_) => return Ok(None),
        }
    }
    Ok(None)
}

// The arguments that words spell.
fn arguments(
    alloc: Global,
    subject: &Subject<'_>,
    words: &[String],
) -> Result<Option<List<Value>>, AllocError> {
    let spelt = names(alloc, words)?;
    match read_arguments(alloc, &subject.sketch.bounds, subject.fun, spelt.as_slice()) {
        Ok(args) => Ok(Some(args)),
        Err(_) => Ok(None),
    }
}

/// What a line says of a formula: how many clauses it has at most, and which obligation it asks alone, if it does.
#[derive(Clone, Copy)]
struct Most {
    clauses: usize,
    obligation: Option<u32>,
}

// What words say of a formula. There is nothing where they say no such thing.
fn most_in(words: &[String]) -> Option<Most> {
    match words {
        [word, count] if word.as_str() == "clauses" => {
            let clauses = count.as_str().parse::<usize>().ok()?;
            Some(Most {
                clauses,
                obligation: None,
            })
        }
        [word, count, of, number] if word.as_str() == "clauses" && of.as_str() == "of" => {
            let clauses = count.as_str().parse::<usize>().ok()?;
            let number = number.as_str().parse::<u32>().ok()?;
            Some(Most {
                clauses,
                obligation: Some(number),
            })
        }
        _ => None,
    }
}

/// What the words of a line speak of that stand behind the values of the sites.
#[derive(Clone, Copy)]
enum Said<'a> {
    /// How many clauses a formula has.
    Formula(Most),
    /// Which nodes a run makes.
    Nodes(Nodes<'a>),
    /// That searches find these values.
    Found,
    /// That they find that there are none.
    Nothing,
    /// A run on the arguments that the words spell.
    Run,
}

fn said_in<'a>(words: &'a [String]) -> Said<'a> {
    match words {
        [word] if word.as_str() == "found" => Said::Found,
        [word] if word.as_str() == "nothing" => Said::Nothing,
        _ => match (most_in(words), nodes_in(words)) {
            (Some(most), _) => Said::Formula(most),
            (None, Some(nodes)) => Said::Nodes(nodes),
            (None, None) => Said::Run,
        },
    }
}

// Tells a line that fails, and what came in place of what was wanted.
fn tell(
    out: &mut Vec<u8>,
    line: &[u8],
    who: &[u8],
    wanted: &[u8],
    came: &[u8],
) -> Result<(), AllocError> {
    if came == wanted {
        return Ok(());
    }
    for part in [
        line,
        b"\n  ",
        who,
        b": ",
        came,
        b"\n  wanted: ",
        wanted,
        b"\n",
    ] {
        out.extend_from_slice(part)?;
    }
    Ok(())
}

// How the function runs over nodes.
fn over_nodes(
    alloc: Global,
    subject: &Subject<'_>,
    given: Option<&Choice>,
    choice: &[u64],
    args: &[Value],
) -> Result<Vec<u8>, AllocError> {
    match run_over_nodes(alloc, subject, given, choice, args) {
        Ok(outcome) => ending_text(alloc, subject.fun, &outcome),
        Err(_) => Vec::from_slice(alloc, b"no memory"),
    }
}

// How the function runs in the program that the choice makes. There is nothing where the choice is not in range.
fn filled(
    alloc: Global,
    subject: &Subject<'_>,
    case: &Case<'_>,
) -> Result<Option<Vec<u8>>, AllocError> {
    match run_filled(alloc, subject, &case.choice, case.args.as_slice())? {
        None => Ok(None),
        Some(outcome) => {
            let text = ending_text(alloc, subject.fun, &outcome)?;
            Ok(Some(text))
        }
    }
}

/// A way to run over nodes: what it is called, the choice that is given, and the choice of the environment.
#[derive(Clone, Copy)]
struct Way<'a> {
    who: &'a [u8],
    given: Option<&'a Choice>,
    choice: &'a [u64],
}

// Tells where this run over nodes ends in another way than the run of the filled program.
fn compare_by(
    alloc: Global,
    subject: &Subject<'_>,
    line: &[u8],
    args: &[Value],
    way: Way<'_>,
    run: &[u8],
    out: &mut Vec<u8>,
) -> Result<(), AllocError> {
    let came = over_nodes(alloc, subject, way.given, way.choice, args)?;
    tell(out, line, way.who, run, came.as_slice())
}

// Tells where a run over nodes ends in another way than the run of the filled program: by the choice of the environment,
// and by the given choice where the environment has none.
fn compare(
    alloc: Global,
    subject: &Subject<'_>,
    line: &[u8],
    case: &Case<'_>,
    run: &[u8],
    out: &mut Vec<u8>,
) -> Result<(), AllocError> {
    let args = case.args.as_slice();
    let open = Way {
        who: b"over nodes",
        given: None,
        choice: case.choice.values.as_slice(),
    };
    let given = Way {
        who: b"with the choice given",
        given: Some(&case.choice),
        choice: &[],
    };
    compare_by(alloc, subject, line, args, open, run, out)?;
    compare_by(alloc, subject, line, args, given, run, out)
}

// Tells where the run of the filled program ends in another way than the line says.
fn compare_wanted(
    line: &[u8],
    case: &Case<'_>,
    run: &[u8],
    out: &mut Vec<u8>,
) -> Result<(), AllocError> {
    match case.wanted {
        None => Ok(()),
        Some(wanted) => tell(out, line, b"run", wanted, run),
    }
}

// Tells what is wrong with a case whose filled program ends so.
fn judge_run(
    alloc: Global,
    subject: &Subject<'_>,
    line: &[u8],
    case: &Case<'_>,
    run: &[u8],
    out: &mut Vec<u8>,
) -> Result<(), AllocError> {
    compare_wanted(line, case, run, out)?;
    compare(alloc, subject, line, case, run, out)
}

// Tells what is wrong with a case.
fn judge_case(
    alloc: Global,
    subject: &Subject<'_>,
    line: &[u8],
    case: &Case<'_>,
    out: &mut Vec<u8>,
) -> Result<(), AllocError> {
    match filled(alloc, subject, case)? {
        None => tell(out, line, b"choice", b"in range", b"out of range"),
        Some(run) => judge_run(alloc, subject, line, case, run.as_slice(), out),
    }
}

// Tells where a formula has more clauses than a line says.
fn judge_formula(
    alloc: Global,
    source: &Source<'_>,
    line: &[u8],
    choice: Choice,
    most: Most,
    out: &mut Vec<u8>,
) -> Result<(), AllocError> {
    match clauses_of(alloc, source, choice, most.obligation)? {
        None => tell(out, line, b"choice", b"in range", b"out of range"),
        Some(count) if count <= most.clauses => Ok(()),
        Some(_) => tell(out, line, b"formula", b"no more clauses", b"more"),
    }
}

// Tells what does not hold of what a line says.
fn tell_false(out: &mut Vec<u8>, line: &[u8], who: &[u8], holds: bool) -> Result<(), AllocError> {
    let came: &[u8] = if holds { b"so" } else { b"otherwise" };
    tell(out, line, who, b"so", came)
}

// Tells what searches do otherwise than a line says.
fn judge_found(line: &[u8], searches: Searches, out: &mut Vec<u8>) -> Result<(), AllocError> {
    tell_false(out, line, b"first call of a session", searches.calls.first)?;
    tell_false(
        out,
        line,
        b"second call of a session",
        searches.calls.second,
    )?;
    tell_false(
        out,
        line,
        b"clauses of the first call first",
        searches.calls.begins,
    )?;
    tell_false(out, line, b"search of its own", searches.alone)
}

// Tells where searches find something else than these values, or than that there are none.
fn judge_searches(
    alloc: Global,
    source: &Source<'_>,
    line: &[u8],
    wanted: Option<&Choice>,
    out: &mut Vec<u8>,
) -> Result<(), AllocError> {
    match searches_of(alloc, source, wanted)? {
        None => tell(out, line, b"text", b"a sketch", b"none"),
        Some(searches) => judge_found(line, searches, out),
    }
}

// Tells where a run makes other nodes than a line says.
fn judge_nodes(
    alloc: Global,
    subject: &Subject<'_>,
    line: &[u8],
    choice: &Choice,
    nodes: Nodes<'_>,
    out: &mut Vec<u8>,
) -> Result<(), AllocError> {
    let holds = are_nodes(alloc, subject, choice, nodes)?;
    tell_false(out, line, b"nodes", holds)
}

// Tells what is wrong with a run under a choice on the arguments that words spell.
fn judge_run_on(
    alloc: Global,
    subject: &Subject<'_>,
    line: &[u8],
    choice: Choice,
    words: &[String],
    wanted: Option<&[u8]>,
    out: &mut Vec<u8>,
) -> Result<(), AllocError> {
    match arguments(alloc, subject, words)? {
        None => tell(out, line, b"line", b"values : values", b"none"),
        Some(args) => judge_case(
            alloc,
            subject,
            line,
            &Case {
                choice,
                args,
                wanted,
            },
            out,
        ),
    }
}

// Tells what is wrong with what words say of a choice.
fn judge_choice(
    alloc: Global,
    subject: &Subject<'_>,
    line: &[u8],
    choice: Choice,
    words: &[String],
    wanted: Option<&[u8]>,
    out: &mut Vec<u8>,
) -> Result<(), AllocError> {
    let source = &subject.source;
    match said_in(words) {
        Said::Formula(most) => judge_formula(alloc, source, line, choice, most, out),
        Said::Nodes(nodes) => judge_nodes(alloc, subject, line, &choice, nodes, out),
        Said::Found => judge_searches(alloc, source, line, Some(&choice), out),
        Said::Nothing => judge_searches(alloc, source, line, None, out),
        Said::Run => judge_run_on(alloc, subject, line, choice, words, wanted, out),
    }
}

// Tells what is wrong with a line.
fn judge_line(
    alloc: Global,
    subject: &Subject<'_>,
    line: &[u8],
    out: &mut Vec<u8>,
) -> Result<(), AllocError> {
    let (before, wanted) = divided(line);
    let words = words_of(alloc, before)?;
    match sites_of(alloc, words.as_slice())? {
        None => tell(out, line, b"line", b"values : values", b"none"),
        Some((values, rest)) => judge_choice(
            alloc,
            subject,
            line,
            Choice { values },
            rest,
            wanted,
            out,
        ),
    }
}

// Tells what is wrong with the lines of an answer.
fn judge_lines(
    alloc: Global,
    subject: &Subject<'_>,
    lines: &[u8],
    out: &mut Vec<u8>,
) -> Result<(), AllocError> {
    let mut rest = lines;
    while let Some(first) = first_line(rest) {
        rest = first.rest;
        judge_line(alloc, subject, first.line, out)?;
    }
    Ok(())
}

// What is wrong with lines of this function.
fn told_of(alloc: Global, subject: &Subject<'_>, lines: &[u8]) -> Result<Vec<u8>, AllocError> {
    let mut out = Vec::new(alloc);
    judge_lines(alloc, subject, lines, &mut out)?;
    Ok(out)
}

// What is wrong with lines of a function of a sketch.
fn judge_sketch(
    alloc: Global,
    source: Source<'_>,
    sketch: &Sketch,
    name: &str,
    lines: &[u8],
) -> Result<Vec<u8>, AllocError> {
    match subject_of(source, sketch, name) {
        None => Vec::from_slice(alloc, b"no function\n"),
        Some(subject) => told_of(alloc, &subject, lines),
    }
}

// What is wrong with lines of a function of a text.
fn judge_text(
    alloc: Global,
    called: Called<'_>,
    text: &[u8],
    lines: &[u8],
) -> Result<Vec<u8>, AllocError> {
    let source = Source {
        text,
        width: called.width,
    };
    match sketch_of(alloc, &source) {
        None => Vec::from_slice(alloc, b"no sketch\n"),
        Some(sketch) => judge_sketch(alloc, source, &sketch, called.name, lines),
    }
}

// What is wrong with lines of the function of a text that words name.
fn judge_called(
    alloc: Global,
    words: &[String],
    text: &[u8],
    lines: &[u8],
) -> Result<Vec<u8>, AllocError> {
    match call_in(words) {
        None => Vec::from_slice(alloc, b"no settings\n"),
        Some(called) => judge_text(alloc, called, text, lines),
    }
}

fn judge_block(alloc: Global, row: &BlockRow) -> Result<Vec<u8>, AllocError> {
    let Some(answer) = first_section(row.answers) else {
        return Vec::from_slice(alloc, b"no lines\n");
    };
    let words = words_of(alloc, row.words)?;
    judge_called(alloc, words.as_slice(), row.text.body, answer.section.body)
}

// What is told below a title, if anything is.
fn told_below(alloc: Global, title: &[u8], told: &[u8]) -> Result<Option<Vec<u8>>, AllocError> {
    if told.is_empty() {
        return Ok(None);
    }
    Ok(Some(titled(alloc, title, told)?))
}

/// Rows say how functions of sketches run.
pub struct Runs;

impl Judge for Runs {
    fn judge(&self, alloc: Global, row: &Row<'_>) -> Result<Option<Vec<u8>>, AllocError> {
        match row {
            Row::Block(row) => {
                let told = judge_block(alloc, row)?;
                told_below(alloc, row.title, told.as_slice())
            }
            Row::Line(row) => told_below(alloc, row.text, b"no block\n"),
            Row::Unreadable(line) => told_below(alloc, line, b"unreadable\n"),
        }
    }
}
