//! What the words of a row say.
use crate::fault::Fault;
use sk_base::Bounds;
use std::alloc::Global;

/// What is done with the text of a row, and written.
#[derive(Debug, Drop, Clone, Copy, PartialEq, Eq)]
pub enum Stage {
    /// Its tokens: K for a keyword, M a mark, N a number, T a text, W a word, each with its place.
    Tokens,
    /// Its tree: angles stand around what an operator joins, and a comma behind each part of a list.
    Tree,
    /// The tree of an expression.
    Expression,
    /// The trees of statements.
    Statements,
    /// Whether it reads.
    Reads,
    /// After how many of its bytes the text up to there reads.
    Fronts,
    /// The tree or fault of each of its bytes as a text; equal ones behind one another once.
    Bytes,
    /// The strings of a pattern.
    Strings,
    /// The kinds of tokens that spell its tree.
    Spelling,
    /// Its plain tree, or the step whose target is none.
    Plain,
    /// Of an expression, for each type that the words name: `+` where it can stand, `-` where it breaks a rule.
    Stands,
    /// The same for each operator in the place of `@`, one answer for operators of one sort.
    Operators,
    /// Whether it keeps the rules of types, or breaks one at a place in it.
    Typed,
    /// That it keeps them, or which one it breaks.
    Rule,
    /// The same for a constant with this number, however large.
    Literal,
    /// How its program is laid out; and that this layout is its own.
    Layout,
    /// How many functions, steps, records and sites its expansion has, and how many values each site.
    Sizes,
    /// The same without the values.
    Totals,
    /// How many functions are no copies, and the layout of its expansion.
    Expansion,
    /// How many values each site has, and its place.
    Sites,
    /// The layout of its filling with the values that the words give.
    Filling,
    /// Where the statements of a function of its filling stand, a line each, with the places of their expression and of
    /// what stands there in parentheses or braces. The words give the function and the values.
    Spans,
}

const NAMES: [(&str, Stage); 22] = [
    ("tokens", Stage::Tokens),
    ("tree", Stage::Tree),
    ("expression", Stage::Expression),
    ("statements", Stage::Statements),
    ("reads", Stage::Reads),
    ("fronts", Stage::Fronts),
    ("bytes", Stage::Bytes),
    ("strings", Stage::Strings),
    ("spelling", Stage::Spelling),
    ("plain", Stage::Plain),
    ("stands", Stage::Stands),
    ("operators", Stage::Operators),
    ("typed", Stage::Typed),
    ("rule", Stage::Rule),
    ("literal", Stage::Literal),
    ("layout", Stage::Layout),
    ("sizes", Stage::Sizes),
    ("totals", Stage::Totals),
    ("expansion", Stage::Expansion),
    ("sites", Stage::Sites),
    ("filling", Stage::Filling),
    ("spans", Stage::Spans),
];

/// What the words of a row say.
#[derive(Drop)]
pub struct Task {
    pub stage: Stage,
    pub bounds: Bounds,
    /// The words that are none of these.
    pub others: Vec<String>,
}

/// The bounds where the words say no others.
const BOUNDS: Bounds = Bounds {
    int_bits: 16,
    cbits: 5,
    inbits: 5,
    unroll: 8,
    inline_amnt: 5,
};

fn stage_named(word: &str) -> Option<Stage> {
    for (name, stage) in NAMES {
        if word == name {
            return Some(stage);
        }
    }
    None
}

// The bounds where a word gives one of them another value.
fn with_bound(bounds: Bounds, word: &str, value: u32) -> Option<Bounds> {
    let mut bounds = bounds;
    match word {
        "--bnd-cbits" => bounds.cbits = value,
        "--bnd-inbits" => bounds.inbits = value,
        "--bnd-unroll-amnt" => bounds.unroll = value,
        "--bnd-inline-amnt" => bounds.inline_amnt = value,
        "--int-bits" => bounds.int_bits = value,
        _ => return None,
    }
    Some(bounds)
}

/// What the words of a row say: a stage, bounds by the options of a line, and what else the stage asks for.
pub fn task_of(alloc: Global, words: &[String]) -> Result<Task, Fault> {
    let [first, rest @ ..] = words else {
        return Err(Fault::Words);
    };
    let Some(stage) = stage_named(first.as_str()) else {
        return Err(Fault::Words);
    };
    let mut task = Task {
        stage,
        bounds: BOUNDS,
        others: Vec::new(alloc),
    };
    add_words(&mut task, rest)?;
    Ok(task)
}

fn add_words(task: &mut Task, words: &[String]) -> Result<(), Fault> {
    let mut rest = words;
    while let [word, after @ ..] = rest {
        rest = after;
        if word.as_str().starts_with("--") {
            let [value, after @ ..] = after else {
                return Err(Fault::Words);
            };
            rest = after;
            task.bounds = bounds_with(task.bounds, word.as_str(), value.as_str())?;
        } else {
            task.others.push(word.clone()?)?;
        }
    }
    Ok(())
}

fn bounds_with(bounds: Bounds, word: &str, value: &str) -> Result<Bounds, Fault> {
    let Ok(value) = value.parse::<u32>() else {
        return Err(Fault::Words);
    };
    match with_bound(bounds, word, value) {
        Some(bounds) => Ok(bounds),
        None => Err(Fault::Words),
    }
}

/// The numbers that words spell.
pub fn numbers_of(alloc: Global, words: &[String]) -> Result<Vec<u64>, Fault> {
    let mut numbers = Vec::new(alloc);
    for word in words {
        let Ok(number) = word.as_str().parse::<u64>() else {
            return Err(Fault::Words);
        };
        numbers.push(number)?;
    }
    Ok(numbers)
}
