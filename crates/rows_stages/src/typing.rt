//! Stages of typing: where expressions can stand, which rules are broken, and how programs are laid out.
use crate::fault::Fault;
use crate::front::{meant, program_of};
use row_files::joined;
use sk_base::{Bounds, List, Name, Span};
use sk_print::print;
use sk_tree::{EForm, Expr, Item, Tree};
use std::alloc::{AllocError, Global};

// What stands before a declaration: a variable of every type, two of different records, a constant, two functions.
const BEFORE_DECLARATION: &[u8] =
    b"struct S { int u; S n; } struct U {} int N = 3; bit[2] k() {} void m() {}
void f(bit b, int x, bit[3] v, bit[2] w, int[3] a, int[2] d, int[2][3] g, bit[2][2] h, S p, S[2] q, U o) { ";

// Operators of one sort ask the same of their operands.
const SORTS: [&[&[u8]]; 7] = [
    &[b"+"],
    &[b"*", b"/", b"%", b"-"],
    &[b"<", b"<=", b">", b">="],
    &[b"==", b"!="],
    &[b"&", b"^", b"|"],
    &[b"<<", b">>"],
    &[b"&&", b"||"],
];

// Whether a text keeps the rules, or breaks one at a place in it.
fn keeps_rules(alloc: Global, text: &[u8], bounds: &Bounds) -> Result<bool, Fault> {
    match program_of(alloc, text, bounds) {
        Ok(_) => Ok(true),
        Err(Fault::Breaks { rule, from, to }) => {
            if from <= to && to as usize <= text.len() {
                Ok(false)
            } else {
                Err(Fault::Breaks { rule, from, to })
            }
        }
        Err(fault) => Err(fault),
    }
}

// Whether an expression can stand where a type is wanted.
fn stands(alloc: Global, ty: &str, value: &[u8], bounds: &Bounds) -> Result<bool, Fault> {
    let parts: [&[u8]; 5] = [BEFORE_DECLARATION, ty.as_bytes(), b" y = ", value, b"; }"];
    let text = joined(alloc, parts.as_slice())?;
    keeps_rules(alloc, text.as_slice(), bounds)
}

fn mark(stands: bool) -> u8 {
    if stands { b'+' } else { b'-' }
}

/// Appends for each type whether an expression can stand there.
pub fn push_stands(
    shown: &mut Vec<u8>,
    alloc: Global,
    types: &[String],
    text: &[u8],
    bounds: &Bounds,
) -> Result<(), Fault> {
    for ty in types {
        let found = stands(alloc, ty.as_str(), text, bounds)?;
        shown.push(mark(found))?;
    }
    Ok(())
}

// The text with an operator in the place of `@`.
fn with_operator(alloc: Global, text: &[u8], operator: &[u8]) -> Result<Vec<u8>, AllocError> {
    let mut value = Vec::new(alloc);
    for byte in text {
        if *byte == b'@' {
            value.extend_from_slice(operator)?;
        } else {
            value.push(*byte)?;
        }
    }
    Ok(value)
}

// Where the operators of one sort can stand, which is the same for all of them.
fn sort_marks(
    alloc: Global,
    operators: &[&[u8]],
    types: &[String],
    text: &[u8],
    bounds: &Bounds,
) -> Result<Vec<u8>, Fault> {
    let mut marks = Vec::new(alloc);
    for operator in operators {
        let value = with_operator(alloc, text, *operator)?;
        let mut next = Vec::new(alloc);
        push_stands(&mut next, alloc, types, value.as_slice(), bounds)?;
        if !marks.is_empty() && marks.as_slice() != next.as_slice() {
            marks.extend_from_slice(b" but ")?;
            marks.extend_from_slice(*operator)?;
            return Ok(marks);
        }
        marks = next;
    }
    Ok(marks)
}

/// Appends for each sort of operators and each type whether the expression with such an operator can stand there.
pub fn push_operators(
    shown: &mut Vec<u8>,
    alloc: Global,
    types: &[String],
    text: &[u8],
    bounds: &Bounds,
) -> Result<(), Fault> {
    for operators in SORTS {
        let marks = sort_marks(alloc, operators, types, text, bounds)?;
        if !shown.is_empty() {
            shown.push(b' ')?;
        }
        shown.extend_from_slice(marks.as_slice())?;
    }
    Ok(())
}

/// Appends whether a text keeps the rules.
pub fn push_typed(
    shown: &mut Vec<u8>,
    alloc: Global,
    text: &[u8],
    bounds: &Bounds,
) -> Result<(), Fault> {
    if keeps_rules(alloc, text, bounds)? {
        shown.extend_from_slice(b"typed")?;
    } else {
        shown.extend_from_slice(b"refused")?;
    }
    Ok(())
}

/// Appends that a text keeps the rules.
pub fn push_rule(
    shown: &mut Vec<u8>,
    alloc: Global,
    text: &[u8],
    bounds: &Bounds,
) -> Result<(), Fault> {
    let _prog = program_of(alloc, text, bounds)?;
    shown.extend_from_slice(b"typed")?;
    Ok(())
}

// `int c = NUMBER;`
fn constant(alloc: Global, number: u32) -> Result<Tree, AllocError> {
    let mut items = List::new(alloc);
    items.push(Item::Const {
        name: Name::from_slice(alloc, b"c")?,
        value: Expr {
            span: Span { from: 0, to: 0 },
            form: EForm::Number(number),
        },
    })?;
    Ok(Tree { items })
}

// The number that a text spells.
fn number_of(text: &[u8]) -> Option<u32> {
    let Ok(text) = str::from_utf8(text) else {
        return None;
    };
    text.parse::<u32>().ok()
}

/// Appends that a constant with the number of the text keeps the rules.
pub fn push_literal(
    shown: &mut Vec<u8>,
    alloc: Global,
    text: &[u8],
    bounds: &Bounds,
) -> Result<(), Fault> {
    let Some(number) = number_of(text) else {
        return Err(Fault::Words);
    };
    let tree = constant(alloc, number)?;
    let _prog = meant(alloc, &tree, bounds)?;
    shown.extend_from_slice(b"typed")?;
    Ok(())
}

fn laid_out(alloc: Global, text: &[u8], bounds: &Bounds) -> Result<Vec<u8>, Fault> {
    let prog = program_of(alloc, text, bounds)?;
    let layout = print(alloc, &prog)?;
    Ok(layout)
}

/// Appends the layout of a text, and where this layout is laid out otherwise than it stands, that too.
pub fn push_layout(
    shown: &mut Vec<u8>,
    alloc: Global,
    text: &[u8],
    bounds: &Bounds,
) -> Result<(), Fault> {
    let layout = laid_out(alloc, text, bounds)?;
    shown.extend_from_slice(layout.as_slice())?;
    let again = laid_out(alloc, layout.as_slice(), bounds)?;
    if again.as_slice() != layout.as_slice() {
        shown.extend_from_slice(b"but then\n")?;
        shown.extend_from_slice(again.as_slice())?;
    }
    Ok(())
}
