//! Words that are no command line.
ghost use Rattle.std.specs.Prelude.{◌≡◌, ◌++◌, [], map, option_map, IfOk, OnOk};
ghost use Rattle.std.specs.List.{filter};
ghost use Rattle.std.specs.String.{string_bytes};
ghost use Rattle.sk_explain_notes.specs.Near.{nearest};
ghost use Rattle.sk_explain_notes.specs.Options.{choice_name, command_has};
ghost use Rattle.sk_explain_notes.specs.declared.slips.Slip.TheVariants as slip;
ghost use Rattle.sk_explain_notes.specs.Words.{run_lines, command_lines, one_number, listing_notes, usage, question, command_names, names_of, no_command_title, no_others, wants_number, unknown_notes, value_title, value_notes, early_title, is_below_zero, takes_values, is_value, range_text, takes_text, wants_text, not_text, unknown_title, no_option_title, extra_words, extra_title, missing_title, slip_title, alone_notes, no_option_notes, input_notes, extra_notes, missing_notes, slip_notes, words_title, words_notes};

use crate::near::nearest;
use crate::note::Told;
use crate::numbers::number_of;
use crate::options::{CHOICES, Choice, Command, Range, Takes};
use crate::slips::{Slip, halves, slip_of};
use std::alloc::{AllocError, Global};

// How the commands are called that run a function.
fn push_runs(told: &mut Told) -> Result<(), AllocError>
    ensures notes { OnOk result (told.new.notes.bytes.items ≡ told.old.notes.bytes.items ++ run_lines) }
    ensures title { told.new.title ≡ told.old.title }
{
    told.note(&[b"       sketch exec [OPTION].. NAME VALUE.. < PROGRAM"])?;
    told.note(&[b"       sketch trace [OPTION].. NAME VALUE.. < SKETCH"])?;
    Ok(())
}

// How the commands are called that take a text.
fn push_commands(told: &mut Told) -> Result<(), AllocError>
    ensures notes { OnOk result (told.new.notes.bytes.items ≡ told.old.notes.bytes.items ++ command_lines) }
    ensures title { told.new.title ≡ told.old.title }
{
    told.note(&[b"usage: sketch synth [OPTION].. < SKETCH"])?;
    push_runs(told)?;
    told.note(&[b"       sketch lower [OPTION].. < SKETCH"])?;
    told.note(&[b"       sketch prune [OPTION].. < PROGRAM"])?;
    told.note(&[b"       sketch all [OPTION].. K < SKETCH"])?;
    told.note(&[b"       sketch why [OPTION].. < SKETCH"])?;
    Ok(())
}

// How the program is called.
fn push_usage(told: &mut Told) -> Result<(), AllocError>
    ensures notes { OnOk result (told.new.notes.bytes.items ≡ told.old.notes.bytes.items ++ usage) }
    ensures title { told.new.title ≡ told.old.title }
{
    push_commands(told)?;
    told.note(&[b"       sketch --help"])?;
    Ok(())
}

// A question for a name that is nearly a word.
fn push_question(told: &mut Told, near: Option<&[u8]>) -> Result<(), AllocError>
    ensures title { OnOk result (told.new.title.bytes.items ≡ told.old.title.bytes.items ++ question (option_map (λ name. name.now) near.entry)) }
    ensures notes { told.new.notes ≡ told.old.notes }
{
    match near {
        Some(name) => {
            told.title(&[b"; is ", name, b" meant?"])?;
            Ok(())
        }
        None => Ok(()),
    }
}

// The name of a command or of a line of one word that is nearest to a word.
fn near_command(alloc: Global, word: &[u8]) -> Result<Option<&'static [u8]>, AllocError>
    ensures { IfOk result (λ near. option_map (λ name. name.now) near ≡ nearest word.now command_names) }
{
    let near = nearest(
        alloc,
        word,
        &[
            b"synth",
            b"exec",
            b"trace",
            b"lower",
            b"prune",
            b"all",
            b"why",
            b"check",
            b"self",
            b"--help",
            b"--version",
        ],
    )?;
    Ok(near)
}

// A question for a command that is nearly a word.
fn push_near_command(alloc: Global, told: &mut Told, word: &[u8]) -> Result<(), AllocError>
    ensures title { OnOk result (told.new.title.bytes.items ≡ told.old.title.bytes.items ++ question (nearest word.now command_names)) }
    ensures notes { told.new.notes ≡ told.old.notes }
{
    let near = near_command(alloc, word)?;
    push_question(told, near)?;
    Ok(())
}

// Tells of a word that is no command.
fn tell_no_command(alloc: Global, told: &mut Told, word: &[u8]) -> Result<(), AllocError>
    ensures title { OnOk result (told.new.title.bytes.items ≡ told.old.title.bytes.items ++ no_command_title word.now) }
    ensures notes { told.new.notes ≡ told.old.notes }
{
    told.title(&[b"'", word, b"' is no command"])?;
    push_near_command(alloc, told, word)?;
    Ok(())
}

// The names of those of some options that a command has.
fn names_among(
    alloc: Global,
    command: Command,
    choices: &[Choice],
) -> Result<Vec<&'static [u8]>, AllocError>
    ensures { IfOk result (λ names. map (λ name. name.now) names.items ≡ map choice_name (filter (command_has command) choices.now)) }
{
    let mut names = Vec::new(alloc);
    for choice in choices {
        if command.has(*choice) {
            names.push(choice.name())?;
        }
    }
    Ok(names)
}

// Whether a word is a minus sign and digits.
fn is_below_zero(word: &[u8]) -> bool
    ensures { result ≡ is_below_zero word.now }
{
    match word.split_first() {
        Some((first, digits)) => *first == b'-' && number_of(digits).is_some(),
        None => false,
    }
}

// Whether a command takes the values of a function.
fn takes_values(command: Command) -> bool
    ensures { result ≡ takes_values command }
{
    match command {
        Command::Exec | Command::Trace => true,
        Command::Synth | Command::Lower | Command::Prune | Command::Check => false,
        Command::Itself => false,
        Command::All | Command::Why => false,
    }
}

// Whether a word is a value of a function that looks like an option.
fn is_value(command: Command, word: &[u8]) -> bool
    ensures { result ≡ is_value command word.now }
{
    takes_values(command) && is_below_zero(word)
}

// The name of an option of a command that is nearest to a name.
fn near_option(
    alloc: Global,
    command: Command,
    name: &[u8],
) -> Result<Option<&'static [u8]>, AllocError>
    ensures { IfOk result (λ near. option_map (λ name. name.now) near ≡ nearest name.now (names_of command)) }
{
    let names = names_among(alloc, command, &CHOICES)?;
    let near = nearest(alloc, name, names.as_slice())?;
    Ok(near)
}

// A question for an option of a command that is nearly a name.
fn push_near_option(
    alloc: Global,
    told: &mut Told,
    command: Command,
    name: &[u8],
) -> Result<(), AllocError>
    ensures title { OnOk result (told.new.title.bytes.items ≡ told.old.title.bytes.items ++ question (nearest name.now (names_of command))) }
    ensures notes { told.new.notes ≡ told.old.notes }
{
    let near = near_option(alloc, command, name)?;
    push_question(told, near)?;
    Ok(())
}

// Appends that an option is not there to the title.
fn push_unknown(
    alloc: Global,
    told: &mut Told,
    command: Command,
    name: &[u8],
) -> Result<(), AllocError>
    ensures title { OnOk result (told.new.title.bytes.items ≡ told.old.title.bytes.items ++ unknown_title command name.now) }
    ensures notes { told.new.notes ≡ told.old.notes }
{
    told.title(&[b"unknown option ", name])?;
    push_near_option(alloc, told, command, name)?;
    Ok(())
}

// Appends where the options stand to the notes.
fn push_options(told: &mut Told) -> Result<(), AllocError>
    ensures title { told.new.title ≡ told.old.title }
    ensures notes { OnOk result (told.new.notes.bytes.items ≡ told.old.notes.bytes.items ++ unknown_notes) }
{
    told.note(&[b"sketch --help lists the options"])?;
    Ok(())
}

// Tells of an option that is not there.
fn tell_unknown(
    alloc: Global,
    told: &mut Told,
    command: Command,
    name: &[u8],
) -> Result<(), AllocError>
    ensures title { OnOk result (told.new.title.bytes.items ≡ told.old.title.bytes.items ++ unknown_title command name.now) }
    ensures notes { OnOk result (told.new.notes.bytes.items ≡ told.old.notes.bytes.items ++ unknown_notes) }
{
    push_unknown(alloc, told, command, name)?;
    push_options(told)?;
    Ok(())
}

// Tells of a value that looks like an option.
fn tell_value(told: &mut Told, command: Command, word: &[u8]) -> Result<(), AllocError>
    ensures title { OnOk result (told.new.title.bytes.items ≡ told.old.title.bytes.items ++ value_title) }
    ensures notes { OnOk result (told.new.notes.bytes.items ≡ told.old.notes.bytes.items ++ value_notes command word.now) }
{
    told.title(&[b"a value below 0 stands behind --"])?;
    told.notes.say(&[b"as in: sketch ", command.word()])?;
    told.note(&[b" NAME -- ", word])?;
    Ok(())
}

// Tells of an option that the command does not have.
fn tell_no_option(
    alloc: Global,
    told: &mut Told,
    command: Command,
    word: &[u8],
) -> Result<(), AllocError>
    ensures title { OnOk result (told.new.title.bytes.items ≡ told.old.title.bytes.items ++ no_option_title command word.now) }
    ensures notes { OnOk result (told.new.notes.bytes.items ≡ told.old.notes.bytes.items ++ no_option_notes command word.now) }
{
    if is_value(command, word) {
        tell_value(told, command, word)?;
        Ok(())
    } else {
        let (name, _) = halves(word);
        tell_unknown(alloc, told, command, name)?;
        Ok(())
    }
}

// Appends the numbers of a range to the title.
fn push_range(told: &mut Told, range: Range) -> Result<(), AllocError>
    ensures title { OnOk result (told.new.title.bytes.items ≡ told.old.title.bytes.items ++ range_text range) }
    ensures notes { told.new.notes ≡ told.old.notes }
{
    told.title.number(range.low)?;
    told.title(&[b" to "])?;
    told.title.number(range.high)?;
    Ok(())
}

// Appends what stands behind an option to the title.
fn push_takes(told: &mut Told, takes: Takes) -> Result<(), AllocError>
    ensures title { OnOk result (told.new.title.bytes.items ≡ told.old.title.bytes.items ++ takes_text takes) }
    ensures notes { told.new.notes ≡ told.old.notes }
{
    match takes {
        Takes::Nothing => Ok(()),
        Takes::Number(range) => {
            push_range(told, range)?;
            Ok(())
        }
        Takes::Numbers => {
            told.title(&[b"numbers of 1 to 10 digits with commas between them"])?;
            Ok(())
        }
    }
}

// Appends a value that is not wanted to the title.
fn push_not(told: &mut Told, value: &[u8]) -> Result<(), AllocError>
    ensures title { OnOk result (told.new.title.bytes.items ≡ told.old.title.bytes.items ++ not_text value.now) }
    ensures notes { told.new.notes ≡ told.old.notes }
{
    if number_of(value).is_some() {
        told.title(&[b", not ", value])?;
        Ok(())
    } else {
        told.title(&[b", not '", value, b"'"])?;
        Ok(())
    }
}

// Tells of a value that is none of its option.
fn tell_bad_value(told: &mut Told, choice: Choice, value: &[u8]) -> Result<(), AllocError>
    ensures title { OnOk result (told.new.title.bytes.items ≡ told.old.title.bytes.items ++ slip_title (slip.BadValue choice) value.now) }
    ensures notes { told.new.notes ≡ told.old.notes }
{
    told.title(&[choice.name(), b" is "])?;
    push_takes(told, choice.takes())?;
    push_not(told, value)?;
    Ok(())
}

// Appends what is wanted behind an option to the title.
fn push_wants(told: &mut Told, takes: Takes) -> Result<(), AllocError>
    ensures title { OnOk result (told.new.title.bytes.items ≡ told.old.title.bytes.items ++ wants_text takes) }
    ensures notes { told.new.notes ≡ told.old.notes }
{
    match takes {
        Takes::Nothing => Ok(()),
        Takes::Number(range) => {
            told.title(&[b" wants a number behind it, "])?;
            push_range(told, range)?;
            Ok(())
        }
        Takes::Numbers => {
            told.title(&[b" wants numbers behind it, with commas between them"])?;
            Ok(())
        }
    }
}

// Tells of an option without a value.
fn tell_no_value(told: &mut Told, choice: Choice) -> Result<(), AllocError>
    ensures title { OnOk result (told.new.title.bytes.items ≡ told.old.title.bytes.items ++ slip_title (slip.NoValue choice) []) }
    ensures notes { told.new.notes ≡ told.old.notes }
{
    told.title(&[choice.name()])?;
    push_wants(told, choice.takes())?;
    Ok(())
}

// Appends that a command takes no other words to the title.
fn push_no_others(told: &mut Told, command: Command) -> Result<(), AllocError>
    ensures title { OnOk result (told.new.title.bytes.items ≡ told.old.title.bytes.items ++ no_others command) }
    ensures notes { told.new.notes ≡ told.old.notes }
{
    told.title(&[command.word(), b" takes no other words"])?;
    Ok(())
}

// Appends that a word is none that a command takes to the title.
fn push_extra(told: &mut Told, command: Command, word: &[u8]) -> Result<(), AllocError>
    ensures title { OnOk result (told.new.title.bytes.items ≡ told.old.title.bytes.items ++ extra_words command word.now) }
    ensures notes { told.new.notes ≡ told.old.notes }
{
    told.title(&[b"'", word, b"' is no option, and "])?;
    push_no_others(told, command)?;
    Ok(())
}

// Tells that a command reads standard input.
fn push_input(told: &mut Told, command: Command, word: &[u8]) -> Result<(), AllocError>
    ensures notes { OnOk result (told.new.notes.bytes.items ≡ told.old.notes.bytes.items ++ input_notes command word.now) }
    ensures title { told.new.title ≡ told.old.title }
{
    told.notes
        .say(&[command.word(), b" reads standard input: sketch "])?;
    told.notes.say(&[command.word()])?;
    told.note(&[b" < ", word])?;
    Ok(())
}

// Appends that a command takes one number to the title.
fn push_one_number(told: &mut Told, command: Command, word: &[u8]) -> Result<(), AllocError>
    ensures title { OnOk result (told.new.title.bytes.items ≡ told.old.title.bytes.items ++ one_number command word.now) }
    ensures notes { told.new.notes ≡ told.old.notes }
{
    told.title(&[command.word(), b" takes one number"])?;
    told.title(&[b", and not '", word, b"' too"])?;
    Ok(())
}

// Tells of a word that the command does not take.
fn tell_extra(told: &mut Told, command: Command, word: &[u8]) -> Result<(), AllocError>
    ensures title { OnOk result (told.new.title.bytes.items ≡ told.old.title.bytes.items ++ extra_title command word.now) }
    ensures notes { OnOk result (told.new.notes.bytes.items ≡ told.old.notes.bytes.items ++ extra_notes command word.now) }
{
    match command {
        Command::All => {
            push_one_number(told, command, word)?;
            Ok(())
        }
        Command::Itself => {
            push_one_number(told, command, word)?;
            Ok(())
        }
        Command::Synth
        | Command::Exec
        | Command::Trace
        | Command::Lower
        | Command::Prune
        | Command::Why
        | Command::Check => {
            push_extra(told, command, word)?;
            push_input(told, command, word)?;
            Ok(())
        }
    }
}

// Tells that a command wants a number.
fn tell_wants_number(told: &mut Told, command: Command) -> Result<(), AllocError>
    ensures title { OnOk result (told.new.title.bytes.items ≡ told.old.title.bytes.items ++ wants_number command) }
    ensures notes { told.new.notes ≡ told.old.notes }
{
    told.title(&[command.word(), b" wants a number, "])?;
    push_range(told, command.range())?;
    Ok(())
}

// Appends how a list of completions is asked for to the notes.
fn push_listing(told: &mut Told) -> Result<(), AllocError>
    ensures title { told.new.title ≡ told.old.title }
    ensures notes { OnOk result (told.new.notes.bytes.items ≡ told.old.notes.bytes.items ++ listing_notes) }
{
    told.note(&[b"as in: sketch all K < SKETCH"])?;
    Ok(())
}

// Tells which word a command wants.
fn tell_missing(told: &mut Told, command: Command) -> Result<(), AllocError>
    ensures title { OnOk result (told.new.title.bytes.items ≡ told.old.title.bytes.items ++ missing_title command) }
    ensures notes { OnOk result (told.new.notes.bytes.items ≡ told.old.notes.bytes.items ++ missing_notes command) }
{
    match command {
        Command::Exec => {
            told.title(&[b"exec wants the name of a function"])?;
            told.note(&[b"as in: sketch exec NAME VALUE.. < PROGRAM"])?;
            Ok(())
        }
        Command::Trace => {
            told.title(&[b"trace wants the name of a function"])?;
            told.note(&[b"as in: sketch trace NAME VALUE.. < SKETCH"])?;
            Ok(())
        }
        Command::All => {
            tell_wants_number(told, command)?;
            push_listing(told)?;
            Ok(())
        }
        Command::Synth | Command::Lower | Command::Prune | Command::Why => {
            tell_wants_number(told, command)?;
            Ok(())
        }
        Command::Check | Command::Itself => {
            tell_wants_number(told, command)?;
            Ok(())
        }
    }
}

// Tells of a word that stands alone and does not.
fn tell_not_alone(told: &mut Told, word: &[u8]) -> Result<(), AllocError>
    ensures title { OnOk result (told.new.title.bytes.items ≡ told.old.title.bytes.items ++ slip_title slip.NotAlone word.now) }
    ensures notes { OnOk result (told.new.notes.bytes.items ≡ told.old.notes.bytes.items ++ alone_notes word.now) }
{
    told.title(&[word, b" stands alone"])?;
    if word == b"--help".as_slice() {
        push_usage(told)?;
        Ok(())
    } else {
        told.note(&[b"as in: sketch ", word])?;
        Ok(())
    }
}

/// Tells why words are no command line. After a refusal title and notes are given up: nothing is told.
pub fn tell_words(alloc: Global, told: &mut Told, words: &[String]) -> Result<(), AllocError>
    ensures title { OnOk result (told.new.title.bytes.items ≡ told.old.title.bytes.items ++ words_title (map string_bytes words.now)) }
    ensures notes { OnOk result (told.new.notes.bytes.items ≡ told.old.notes.bytes.items ++ words_notes (map string_bytes words.now)) }
{
    let found = slip_of(words);
    tell_slip(alloc, told, found.slip, found.word)?;
    Ok(())
}

// Tells of an option in front of the command.
fn tell_early(told: &mut Told, choice: Choice) -> Result<(), AllocError>
    ensures title { OnOk result (told.new.title.bytes.items ≡ told.old.title.bytes.items ++ early_title choice) }
    ensures notes { OnOk result (told.new.notes.bytes.items ≡ told.old.notes.bytes.items ++ usage) }
{
    told.title(&[choice.name(), b" stands before the command"])?;
    push_usage(told)?;
    Ok(())
}

// Tells of a word that is none of the numbers that a command takes.
fn tell_bad_number(told: &mut Told, command: Command, word: &[u8]) -> Result<(), AllocError>
    ensures title { OnOk result (told.new.title.bytes.items ≡ told.old.title.bytes.items ++ slip_title (slip.BadNumber command) word.now) }
    ensures notes { told.new.notes ≡ told.old.notes }
{
    told.title(&[command.word(), b" takes a number, "])?;
    push_range(told, command.range())?;
    told.title(&[b", not '", word, b"'"])?;
    Ok(())
}

// Tells of a slip of a word.
fn tell_slip(alloc: Global, told: &mut Told, slip: Slip, word: &[u8]) -> Result<(), AllocError>
    ensures title { OnOk result (told.new.title.bytes.items ≡ told.old.title.bytes.items ++ slip_title slip word.now) }
    ensures notes { OnOk result (told.new.notes.bytes.items ≡ told.old.notes.bytes.items ++ slip_notes slip word.now) }
{
    match slip {
        Slip::NoWords => {
            told.title(&[b"the words are a command and its options, and there are none"])?;
            push_usage(told)?;
            Ok(())
        }
        Slip::NoCommand => {
            tell_no_command(alloc, told, word)?;
            push_usage(told)?;
            Ok(())
        }
        Slip::Early(choice) => {
            tell_early(told, choice)?;
            Ok(())
        }
        Slip::NotAlone => {
            tell_not_alone(told, word)?;
            Ok(())
        }
        Slip::NoOption(command) => {
            tell_no_option(alloc, told, command, word)?;
            Ok(())
        }
        Slip::OfOthers(command, choice) => {
            told.title(&[choice.name(), b" is no option of ", command.word()])?;
            Ok(())
        }
        Slip::NoValue(choice) => {
            tell_no_value(told, choice)?;
            Ok(())
        }
        Slip::BadValue(choice) => {
            tell_bad_value(told, choice, word)?;
            Ok(())
        }
        Slip::Valued(choice) => {
            told.title(&[choice.name(), b" takes no value"])?;
            Ok(())
        }
        Slip::Twice(choice) => {
            told.title(&[choice.name(), b" stands twice"])?;
            Ok(())
        }
        Slip::Extra(command) => {
            tell_extra(told, command, word)?;
            Ok(())
        }
        Slip::Missing(command) => {
            tell_missing(told, command)?;
            Ok(())
        }
        Slip::BadNumber(command) => {
            tell_bad_number(told, command, word)?;
            Ok(())
        }
        Slip::Nothing => {
            push_usage(told)?;
            Ok(())
        }
    }
}
