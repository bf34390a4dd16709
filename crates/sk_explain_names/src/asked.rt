//! Functions of which nothing is asked, and harnesses that ask for no assertion.
ghost use Rattle.std.specs.Prelude.{◌≡◌};

use crate::blocks::TOP;
use crate::declared::{Declared, declarations};
use crate::pieces::{bytes_of, has_key, is_key, is_mark, word};
use crate::types::at_type;
use sk_base::{Name, Span};
use sk_explain_notes::Told;
use sk_explain_places::place_of;
use sk_tree::{Key, Mark, Token};
use sk_types_names::Numbers;
use std::alloc::{AllocError, Global};

// So many functions are told of, and so many harnesses looked into.
const MOST_TOLD: usize = 20;

// A function of a text: where its name stands, the keyword in front of its heading, and its tokens from the name to that of the next
// function.
#[derive(Drop, Clone, Copy)]
struct Fun<'a> {
    name: Span,
    is_harness: bool,
    is_generator: bool,
    tokens: &'a [Token],
}

// The functions of a text with their numbers, by name.
#[derive(Drop)]
struct Funs<'a> {
    list: Vec<Fun<'a>>,
    numbers: Numbers,
}

// Whether a name is that of a function.
fn is_function(tokens: &[Token], it: &Declared) -> bool {
    match tokens.get(it.at.saturating_add(1)) {
        Some(next) => it.block == TOP && is_mark(next, Mark::OpenParen),
        None => false,
    }
}

// Whether the type that some tokens end with stands behind a keyword.
fn is_behind(tokens: &[Token], key: Key) -> bool {
    match at_type(tokens) {
        Some((front, _)) => match front.last() {
            Some(last) => is_key(last, key),
            None => false,
        },
        None => false,
    }
}

// The function whose name is a token, which ends in front of another one.
fn fun_at<'a>(tokens: &'a [Token], it: &Declared, to: usize) -> Option<Fun<'a>> {
    let front = tokens.get(..it.at)?;
    Some(Fun {
        name: it.name,
        is_harness: is_behind(front, Key::Harness),
        is_generator: is_behind(front, Key::Generator),
        tokens: tokens.get(it.at..to)?,
    })
}

// The functions of a text, from the last to the first.
fn functions_of<'a>(
    alloc: Global,
    tokens: &'a [Token],
    found: &[Declared],
) -> Result<Funs<'a>, AllocError> {
    let mut list = Vec::new(alloc);
    let mut numbers = Numbers::new(alloc);
    let mut to = tokens.len();
    for it in found.iter().rev() {
        if is_function(tokens, it) {
            if let (Some(fun), Some(name)) = (fun_at(tokens, it, to), name_at(tokens, it)) {
                numbers.put(name, list.len())?;
                list.push(fun)?;
            }
            to = it.at;
        }
    }
    Ok(Funs { list, numbers })
}

// The name that a token is.
fn name_at<'a>(tokens: &'a [Token], it: &Declared) -> Option<&'a Name> {
    word(tokens.get(it.at)?)
}

// The name of a function that is called, or that is implemented, at the second of three tokens.
fn used<'a>(before: &Token, token: &'a Token, next: &Token) -> Option<&'a Name> {
    if is_mark(next, Mark::OpenParen) || is_key(before, Key::Implements) {
        word(token)
    } else {
        None
    }
}

// Which functions are reached, and those of them whose calls are not followed yet.
#[derive(Drop)]
struct Walk {
    is_reached: Vec<bool>,
    left: Vec<usize>,
}

impl Walk {
    // None is reached.
    fn new(alloc: Global, count: usize) -> Result<Walk, AllocError> {
        let mut is_reached = Vec::new(alloc);
        for _number in 0..count {
            is_reached.push(false)?;
        }
        Ok(Walk {
            is_reached,
            left: Vec::new(alloc),
        })
    }

    // Reaches a function, where it is not reached before.
    fn reach(&mut self, number: usize) -> Result<(), AllocError> {
        if number < self.is_reached.len() && !self.is_reached[number] {
            self.is_reached[number] = true;
            self.left.push(number)?;
        }
        Ok(())
    }

    // Whether a function is reached.
    fn has(&self, number: usize) -> bool {
        match self.is_reached.as_slice().get(number) {
            Some(is_reached) => *is_reached,
            None => false,
        }
    }
}

impl Funs<'_> {
    // Follows the calls of a function.
    fn follow(&self, walk: &mut Walk, number: usize) -> Result<(), AllocError> {
        let Some(fun) = self.list.as_slice().get(number) else {
            return Ok(());
        };
        for three in fun.tokens.windows(3) {
            if let [before, token, next] = three {
                if let Some(name) = used(before, token, next) {
                    if let Some(called) = self.numbers.get(name) {
                        walk.reach(called)?;
                    }
                }
            }
        }
        Ok(())
    }

    // Follows calls to their ends. Each function is reached once.
    fn follow_all(&self, walk: &mut Walk) -> Result<(), AllocError> {
        for _step in 0..self.list.len() {
            let Some(number) = walk.left.pop() else {
                return Ok(());
            };
            self.follow(walk, number)?;
        }
        Ok(())
    }

    // The functions that runs of what is asked reach.
    fn asked(&self, alloc: Global) -> Result<Walk, AllocError> {
        let mut walk = Walk::new(alloc, self.list.len())?;
        for (number, fun) in self.list.as_slice().iter().enumerate() {
            if fun.is_harness || has_key(fun.tokens, Key::Implements) {
                walk.reach(number)?;
            }
        }
        self.follow_all(&mut walk)?;
        Ok(walk)
    }

    // Whether runs of a function reach an assertion.
    fn asserts(&self, alloc: Global, number: usize) -> Result<bool, AllocError> {
        let mut walk = Walk::new(alloc, self.list.len())?;
        walk.reach(number)?;
        self.follow_all(&mut walk)?;
        for (number, fun) in self.list.as_slice().iter().enumerate() {
            if walk.has(number) && has_key(fun.tokens, Key::Assert) {
                return Ok(true);
            }
        }
        Ok(false)
    }
}

// Whether some tokens leave something open themselves.
fn is_open(tokens: &[Token]) -> bool {
    tokens.iter().any(|token| is_mark(token, Mark::Hole)
        || is_mark(token, Mark::OpenPattern)
        || is_key(token, Key::Minrepeat)
        || is_key(token, Key::Reorder))
}

// A function with the place of its name, and words behind it.
fn push_fun(
    told: &mut Told,
    text: &[u8],
    words: &[u8],
    fun: &Fun<'_>,
    behind: &[u8],
) -> Result<(), AllocError>
    ensures { told.new.title ≡ told.old.title }
{
    let from = fun.name.from as usize;
    if from > text.len() {
        return Ok(());
    }
    told.notes
        .say(&[words, b"'", bytes_of(text, fun.name), b"' at "])?;
    told.notes.place(place_of(text, from))?;
    told.note(&[behind])
}

// Warns of the functions with open parts that are not asked.
fn push_functions(
    alloc: Global,
    told: &mut Told,
    text: &[u8],
    funs: &Funs<'_>,
) -> Result<(), AllocError>
    ensures { told.new.title ≡ told.old.title }
{
    let asked = funs.asked(alloc)?;
    let mut count = 0usize;
    for (number, fun) in funs.list.as_slice().iter().enumerate().rev() {
        if count < MOST_TOLD && !fun.is_generator && !asked.has(number) && is_open(fun.tokens) {
            let behind: &[u8] = b": nothing is asked of its open parts";
            push_fun(
                told,
                text,
                b"warning: no harness and no implements reaches ",
                fun,
                behind,
            )?;
            count = count.saturating_add(1);
        }
    }
    Ok(())
}

// Warns of the harnesses that reach no assertion.
fn push_harnesses(
    alloc: Global,
    told: &mut Told,
    text: &[u8],
    funs: &Funs<'_>,
) -> Result<(), AllocError>
    ensures { told.new.title ≡ told.old.title }
{
    let mut count = 0usize;
    for (number, fun) in funs.list.as_slice().iter().enumerate().rev() {
        if count < MOST_TOLD && fun.is_harness && !has_key(fun.tokens, Key::Assert) {
            count = count.saturating_add(1);
            if !funs.asserts(alloc, number)? {
                let behind: &[u8] = b" reaches no assert: it asks only that its runs do not fail";
                push_fun(told, text, b"warning: the harness ", fun, behind)?;
            }
        }
    }
    Ok(())
}

/// Warns of the functions with open parts that no harness and no `implements` reaches by calls, and of the harnesses that reach
/// no `assert`, 20 of each at most. After a refusal title and notes are given up: nothing is told.
pub fn push_unasked(
    alloc: Global,
    told: &mut Told,
    text: &[u8],
    tokens: &[Token],
) -> Result<(), AllocError>
    ensures { told.new.title ≡ told.old.title }
{
    let found = declarations(alloc, tokens)?;
    let funs = functions_of(alloc, tokens, found.as_slice())?;
    push_functions(alloc, told, text, &funs)?;
    push_harnesses(alloc, told, text, &funs)
}
