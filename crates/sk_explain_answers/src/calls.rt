//! Inputs as calls: the function of an obligation, with the values of its parameters.
ghost use Rattle.std.specs.Prelude.{◌≡◌, ◌++◌, [], decimal, option_map, OnOk};
ghost use Rattle.std.specs.Str.{bytes_eq};
ghost use Rattle.sk_model.specs.Inputs.{fun_of};
ghost use Rattle.sk_explain_answers.specs.Calls.{call_text, obligation_from, params_text, taker};

use itoa::Buffer;
use sk_base::Name;
use sk_explain_notes::Note;
use sk_model::Obligation;
use sk_prog::{Fun, FunId, ParamDef, Prog};
use std::alloc::AllocError;

// Whether a word spells a number as it is written.
fn spells(word: &Name, number: usize) -> bool
    ensures { result ≡ bytes_eq word.now (decimal number) }
{
    let mut buffer = Buffer::new();
    word.as_bytes() == buffer.format(number as u64).as_bytes()
}

/// The obligation whose number a word spells.
pub fn obligation_of(obligations: &[Obligation], word: &Name) -> Option<Obligation>
    ensures { result ≡ obligation_from 0 obligations.now word.now }
{
    for (number, obligation) in obligations.iter().enumerate() {
        if spells(word, number) {
            return Some(*obligation);
        }
    }
    None
}

/// The function that takes the inputs of an obligation.
fn fun_of(obligation: Obligation) -> FunId
    ensures { result ≡ fun_of obligation }
{
    match obligation {
        Obligation::Harness(f) => f,
        Obligation::Implements { f, .. } => f,
    }
}

/// The same, in a program that has it.
pub fn taker(prog: &Prog, obligation: Obligation) -> Option<&Fun>
    ensures { option_map (λ fun. fun.now) result ≡ taker prog.now obligation }
{
    prog.funs.as_slice().get(fun_of(obligation).index as usize)
}

// Appends each parameter with its value.
fn push_params(note: &mut Note, params: &[ParamDef], words: &[Name]) -> Result<(), AllocError>
    ensures { OnOk result (note.new.bytes.items ≡ note.old.bytes.items ++ params_text [] params.now words.now) }
{
    let mut between: &[u8] = b"";
    let mut rest = params;
    let mut left = words;
    while let [param, more @ ..] = rest {
        let [word, others @ ..] = left else {
            return Ok(());
        };
        note.say(&[between, param.name.as_bytes(), b" = ", word.as_bytes()])?;
        between = b", ";
        rest = more;
        left = others;
    }
    Ok(())
}

/// Appends the name of a function, and each of its parameters with its value.
pub fn push_call(note: &mut Note, fun: &Fun, words: &[Name]) -> Result<(), AllocError>
    ensures { OnOk result (note.new.bytes.items ≡ note.old.bytes.items ++ call_text fun.now words.now) }
{
    note.say(&[fun.name.as_bytes(), b"("])?;
    push_params(note, fun.params.as_slice(), words)?;
    note.word(b")")?;
    Ok(())
}
