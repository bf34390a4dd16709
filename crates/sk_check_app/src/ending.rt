//! How a call ends.

ghost use Rattle.std.specs.Prelude.{◌≡◌, ◌++◌, codes, IfOk, OnOk};
ghost use Rattle.std.specs.Fmt.{decimal};
ghost use Rattle.sk_app_texts.specs.Messages.{rule_number, refusal_status, refusal_message};
ghost use Rattle.sk_front.specs.declared.fault.TextFault.TheVariants.{Lex, Parse};
ghost use Rattle.sk_check_app.specs.Ending.{text_refusal, rule_of, type_refusal, size_refusal, cert_refusal, status_of, message_of};

use sk_base::{Name, push_number};
use sk_cert::CertFault;
use sk_check_laws::Reason;
use sk_expand_sizes::SizeFault;
use sk_front::TextFault;
use sk_lexer::LexFault;
use sk_parser::ParseFault;
use sk_types_laws::{Rule, TypeFault};
use std::alloc::{AllocError, Global};

/// How `judge` ends.
#[derive(Debug, Drop)]
pub enum Ending {
    /// The certificate is right. The sink got a line that says so.
    Accepted,
    /// It is rejected, for this reason. The sink got a line that says so.
    Rejected(Reason),
    /// What stands behind the sketch is no certificate, for this reason.
    NotCertificate(CertFault),
    /// The words are not the options of a line `check`.
    NotALine,
    /// The sketch has no tokens, or these read as no tree.
    NotText(TextFault),
    /// It means no program.
    NotTyped(TypeFault),
    /// The expansion of its program is too large.
    TooLarge(SizeFault),
    /// The source failed.
    ReadFault,
    /// The sink failed. It may hold a prefix of the line.
    WriteFault,
    /// The source gives more bytes than an input may have, or than its sketch may have.
    TooLong,
    /// Memory was wanting.
    Memory,
}

/// The status with which the program ends. It takes no memory.
pub fn status(ending: &Ending) -> u8
    ensures { result ≡ status_of ending.now }
{
    match ending {
        Ending::Accepted => 0,
        Ending::Rejected(_) => 6,
        Ending::NotCertificate(fault) => cert_status(fault),
        Ending::NotALine => 10,
        Ending::NotText(fault) => text_status(fault),
        Ending::NotTyped(_) => 12,
        Ending::TooLarge(reason) => size_status(*reason),
        Ending::ReadFault => 14,
        Ending::WriteFault => 15,
        Ending::TooLong => 16,
        Ending::Memory => 17,
    }
}

/// What the program says of an ending on standard error; nothing for a status below 10.
pub fn message(alloc: Global, ending: &Ending) -> Result<Name, AllocError>
    ensures { IfOk result (λ name. name ≡ message_of ending.now) }
{
    match ending {
        Ending::Accepted | Ending::Rejected(_) => said(alloc, b""),
        Ending::NotCertificate(fault) => cert_message(alloc, fault),
        Ending::NotALine => said(alloc, b"usage"),
        Ending::NotText(fault) => text_message(alloc, fault),
        Ending::NotTyped(fault) => type_message(alloc, fault),
        Ending::TooLarge(reason) => size_message(alloc, *reason),
        Ending::ReadFault => said(alloc, b"read fault"),
        Ending::WriteFault => said(alloc, b"write fault"),
        Ending::TooLong => said(alloc, b"too long"),
        Ending::Memory => said(alloc, b"no memory"),
    }
}

// The status for what is no certificate. Want of memory is no such.
fn cert_status(fault: &CertFault) -> u8
    ensures { result ≡ refusal_status (cert_refusal fault.now) }
{
    match fault {
        CertFault::Memory => 17,
        CertFault::NoForm { line: _ } => 19,
        CertFault::Version { line: _ } => 19,
    }
}

// The name of what is wrong, and its line.
fn cert_message(alloc: Global, fault: &CertFault) -> Result<Name, AllocError>
    ensures { IfOk result (λ name. name ≡ refusal_message (cert_refusal fault.now)) }
{
    match fault {
        CertFault::NoForm { line } => at_line(alloc, b"NoForm", *line),
        CertFault::Version { line } => at_line(alloc, b"Version", *line),
        CertFault::Memory => said(alloc, b"no memory"),
    }
}

fn at_line(alloc: Global, name: &[u8], line: u32) -> Result<Name, AllocError>
    ensures { IfOk result (λ text. text ≡ codes "certificate " ++ name.now ++ codes " " ++ decimal line) }
{
    let mut out = Vec::from_slice(alloc, b"certificate ")?;
    out.extend_from_slice(name)?;
    push_spaced(&mut out, line)?;
    Ok(Name::from_vec(out))
}

// The status for a fault of a text. Want of memory is none.
fn text_status(fault: &TextFault) -> u8
    ensures { result ≡ refusal_status (text_refusal fault.now) }
{
    match fault {
        TextFault::Lex(LexFault::Memory) => 17,
        TextFault::Parse(ParseFault::Memory) => 17,
        _ => 11,
    }
}

// The status for an expansion that is too large. Want of memory is no such.
fn size_status(reason: SizeFault) -> u8
    ensures { result ≡ refusal_status (size_refusal reason) }
{
    match reason {
        SizeFault::Memory => 17,
        _ => 13,
    }
}

fn rule_number(rule: Rule) -> u64
    ensures { result ≡ rule_number (rule_of rule) }
{
    match rule {
        Rule::UnknownName => 1,
        Rule::Twice => 2,
        Rule::Mismatch => 3,
        Rule::NotTarget => 4,
        Rule::BadSignature => 5,
        Rule::NotConstant => 6,
        Rule::LiteralRange => 7,
        Rule::LengthRange => 8,
        Rule::NoAlternative => 9,
        Rule::ReorderForm => 10,
        Rule::NameKept => 11,
        Rule::HoleWidth => 12,
    }
}

// The number of the rule, and the place of what breaks it.
fn type_message(alloc: Global, fault: &TypeFault) -> Result<Name, AllocError>
    ensures { IfOk result (λ name. name ≡ refusal_message (type_refusal fault.now)) }
{
    let mut out = Vec::from_slice(alloc, b"type ")?;
    push_number(&mut out, rule_number(fault.rule))?;
    push_spaced(&mut out, fault.span.from)?;
    push_spaced(&mut out, fault.span.to)?;
    Ok(Name::from_vec(out))
}

// A number behind a space.
fn push_spaced(out: &mut Vec<u8>, number: u32) -> Result<(), AllocError>
    ensures { OnOk result (out.new.items ≡ out.old.items ++ codes " " ++ decimal number) }
{
    out.push(b' ')?;
    push_number(out, u64::from(number))?;
    Ok(())
}

fn size_message(alloc: Global, reason: SizeFault) -> Result<Name, AllocError>
    ensures { IfOk result (λ name. name ≡ refusal_message (size_refusal reason)) }
{
    match reason {
        SizeFault::Copies => limited(alloc, b"Copies", 262_144),
        SizeFault::Sites => limited(alloc, b"Sites", 4096),
        SizeFault::Steps => limited(alloc, b"Steps", 262_144),
        SizeFault::News => limited(alloc, b"News", 256),
        SizeFault::Memory => said(alloc, b"no memory"),
    }
}

fn text_message(alloc: Global, fault: &TextFault) -> Result<Name, AllocError>
    ensures { IfOk result (λ name. name ≡ refusal_message (text_refusal fault.now)) }
{
    match fault {
        TextFault::Lex(fault) => lex_message(alloc, fault),
        TextFault::Parse(fault) => parse_message(alloc, fault),
    }
}

fn lex_message(alloc: Global, fault: &LexFault) -> Result<Name, AllocError>
    ensures { IfOk result (λ name. name ≡ refusal_message (text_refusal (Lex fault.now))) }
{
    match fault {
        LexFault::BadByte { at } => placed(alloc, b"BadByte", *at),
        LexFault::OpenComment { at } => placed(alloc, b"OpenComment", *at),
        LexFault::LiteralTooLarge { at } => placed(alloc, b"LiteralTooLarge", *at),
        LexFault::OpenString { at } => placed(alloc, b"OpenString", *at),
        LexFault::Memory => said(alloc, b"no memory"),
    }
}

fn parse_message(alloc: Global, fault: &ParseFault) -> Result<Name, AllocError>
    ensures { IfOk result (λ name. name ≡ refusal_message (text_refusal (Parse fault.now))) }
{
    match fault {
        ParseFault::NoReading { at } => placed(alloc, b"NoReading", *at),
        ParseFault::BadAlternative { at } => placed(alloc, b"BadAlternative", *at),
        ParseFault::TooManyStrings { at } => placed(alloc, b"TooManyStrings", *at),
        ParseFault::Memory => said(alloc, b"no memory"),
    }
}

fn said(alloc: Global, words: &[u8]) -> Result<Name, AllocError>
    ensures { IfOk result (λ name. name ≡ words.now) }
{
    let name = Name::from_slice(alloc, words)?;
    Ok(name)
}

// The name of a size that is passed, and its limit.
fn limited(alloc: Global, name: &[u8], limit: u32) -> Result<Name, AllocError>
    ensures { IfOk result (λ text. text ≡ codes "size " ++ name.now ++ codes " " ++ decimal limit) }
{
    let mut out = Vec::from_slice(alloc, b"size ")?;
    out.extend_from_slice(name)?;
    push_spaced(&mut out, limit)?;
    Ok(Name::from_vec(out))
}

// The name of a fault of the text, and its place.
fn placed(alloc: Global, name: &[u8], at: u32) -> Result<Name, AllocError>
    ensures { IfOk result (λ text. text ≡ codes "text " ++ name.now ++ codes " " ++ decimal at) }
{
    let mut out = Vec::from_slice(alloc, b"text ")?;
    out.extend_from_slice(name)?;
    out.push(b' ')?;
    push_number(&mut out, u64::from(at))?;
    Ok(Name::from_vec(out))
}
