//! How a call ends.

ghost use Rattle.std.specs.Prelude.{◌≡◌, ◌++◌, codes, IfOk, OnOk};
ghost use Rattle.std.specs.Fmt.{decimal};
ghost use Rattle.sk_app_texts.specs.Messages.{rule_number, refusal_status, refusal_message};
ghost use Rattle.sk_front.specs.declared.fault.TextFault.TheVariants.{Lex, Parse};
ghost use Rattle.sk_app.specs.Ending.{text_refusal, rule_of, type_refusal, size_refusal, exec_refusal, fill_refusal, cert_refusal, adt_status, adt_message, tag_message, spent_status, status_of, message_of};

use sk_adt::AdtFault;
use sk_base::{List, Name, Span, push_number};
use sk_cert::CertFault;
use sk_check_laws::Reason;
use sk_clause::Log;
use sk_cnf::Encoded;
use sk_exec::ExecFault;
use sk_expand_sizes::SizeFault;
use sk_front::TextFault;
use sk_holes::FillFault;
use sk_lexer::LexFault;
use sk_model::{Choice, Pair};
use sk_oblig_queries::Query;
use sk_parser::ParseFault;
use sk_types_laws::{Rule, TypeFault};
use std::alloc::{AllocError, Global};

/// How `run` ends.
#[derive(Debug, Drop)]
pub enum Ending {
    /// The sink got the completed sketch; for a line `self` the summary of its sketch.
    Completed,
    /// No filling meets the harness on every input in range: none passes even the inputs of these pairs, each of a choice and an
    /// input that speaks against it. The sink got a line that says so.
    NoCompletion {
        pairs: List<Pair>,
    },
    /// As many pairs of a choice and an input that speaks against it were found as the line's budget says, and the last
    /// choice that is known to meet every obligation. The sink got a text that says so.
    SpentRounds {
        pairs: List<Pair>,
        best: Option<Choice>,
    },
    /// One call of the solver has learnt as many clauses as the line's budget says: the pairs, the query, its formula and
    /// the clauses, and the last choice that is known to meet every obligation. The sink got a text that says so.
    SpentConflicts {
        pairs: List<Pair>,
        query: Query,
        formula: Encoded,
        log: Log,
        best: Option<Choice>,
    },
    /// The sink got the help.
    HelpShown,
    /// The sink got the version.
    VersionShown,
    /// The run of a function is done. The sink got its text, as it did of the next two.
    ExecDone,
    /// The run failed at the statement with this span.
    ExecFailed {
        span: Span,
    },
    /// The run was skipped at the statement with this span.
    ExecSkipped {
        span: Span,
    },
    /// The sink got the plain sketch of the text.
    Lowered,
    /// The sink got the program of the text without what no run can reach.
    Pruned,
    /// The sink got a list of completions: all of them, or as many as the line asks for.
    Listed,
    /// There is no completion. The sink got inputs that explain why.
    Explained,
    /// There is a completion, and the sink got one.
    Met,
    /// The sketch is taken, and the certificate behind it is right. The sink got a line that says so.
    Accepted,
    /// The certificate is rejected for this reason. The sink got a line with its number.
    Rejected(Reason),
    /// The words are no command line.
    NotALine,
    /// The text has no tokens, or these read as no tree.
    NotText(TextFault),
    /// The text means no program.
    NotTyped(TypeFault),
    /// The expansion of its program is too large.
    TooLarge(SizeFault),
    /// No function of the text is run, for this reason; for a line `prune` the expansion of the text has a site.
    NotRun(ExecFault),
    /// The numbers of the line do not fill the sketch of the text.
    NotFilled(FillFault),
    /// The text has no plain form, for this reason.
    NotLowered(AdtFault),
    /// The program of the text's plain form is not tagged: the first span that breaks a rule.
    NotTagged {
        span: Span,
    },
    /// What stands behind the sketch is no certificate, for this reason.
    NotCertificate(CertFault),
    /// The source failed.
    ReadFault,
    /// The sink failed. It may hold a prefix of the result text.
    WriteFault,
    /// The source gives more bytes than a sketch may have, or for a line `check` than a sketch and a certificate may have.
    TooLong,
    /// Memory was wanting.
    Memory,
}

/// The status with which the program ends. It takes no memory.
pub fn status(ending: &Ending) -> u8
    ensures { result ≡ status_of ending.now }
{
    match ending {
        Ending::Completed | Ending::HelpShown | Ending::VersionShown => 0,
        Ending::ExecDone | Ending::Lowered | Ending::Pruned => 0,
        Ending::Listed | Ending::Explained => 0,
        Ending::Met => 7,
        Ending::Accepted => 0,
        Ending::Rejected(_) => 6,
        Ending::NotCertificate(fault) => cert_status(*fault),
        Ending::ExecFailed { span: _ } => 4,
        Ending::ExecSkipped { span: _ } => 5,
        Ending::NoCompletion { pairs: _ } => 1,
        Ending::SpentRounds { pairs: _, best } => spent_status(best),
        Ending::SpentConflicts {
            pairs: _,
            query: _,
            formula: _,
            log: _,
            best,
        } => spent_status(best),
        Ending::NotALine => 10,
        Ending::NotText(fault) => text_status(fault),
        Ending::NotTyped(_) => 12,
        Ending::TooLarge(reason) => size_status(*reason),
        Ending::ReadFault => 14,
        Ending::WriteFault => 15,
        Ending::TooLong => 16,
        Ending::Memory => 17,
        Ending::NotRun(_) => 18,
        Ending::NotFilled(fault) => fill_status(*fault),
        Ending::NotLowered(reason) => adt_status(*reason),
        Ending::NotTagged { span: _ } => 23,
    }
}

/// What the program says of an ending on standard error; nothing for a status below 10.
pub fn message(alloc: Global, ending: &Ending) -> Result<Name, AllocError>
    ensures { IfOk result (λ name. name ≡ message_of ending.now) }
{
    match ending {
        Ending::Completed | Ending::HelpShown | Ending::VersionShown => said(alloc, b""),
        Ending::NoCompletion { pairs: _ } => said(alloc, b""),
        Ending::ExecDone | Ending::ExecFailed { span: _ } | Ending::ExecSkipped { span: _ } => {
            said(alloc, b"")
        }
        Ending::SpentRounds { pairs: _, best: _ } => said(alloc, b""),
        Ending::SpentConflicts {
            pairs: _,
            query: _,
            formula: _,
            log: _,
            best: _,
        } => said(alloc, b""),
        Ending::Lowered | Ending::Pruned => said(alloc, b""),
        Ending::Listed | Ending::Explained | Ending::Met => said(alloc, b""),
        Ending::Accepted | Ending::Rejected(_) => said(alloc, b""),
        Ending::NotCertificate(fault) => cert_message(alloc, *fault),
        Ending::NotALine => said(alloc, b"usage"),
        Ending::NotText(fault) => text_message(alloc, fault),
        Ending::NotTyped(fault) => type_message(alloc, fault),
        Ending::TooLarge(reason) => size_message(alloc, *reason),
        Ending::NotRun(reason) => exec_message(alloc, *reason),
        Ending::NotFilled(fault) => fill_message(alloc, *fault),
        Ending::NotLowered(reason) => adt_message(alloc, *reason),
        Ending::NotTagged { span } => tag_message(alloc, *span),
        Ending::ReadFault => said(alloc, b"read fault"),
        Ending::WriteFault => said(alloc, b"write fault"),
        Ending::TooLong => said(alloc, b"too long"),
        Ending::Memory => said(alloc, b"no memory"),
    }
}

// The status where a budget is spent: whether a choice is known that meets every obligation.
fn spent_status(best: &Option<Choice>) -> u8
    ensures { result ≡ spent_status best.now }
{
    match best {
        None => 2,
        Some(_) => 3,
    }
}

fn exec_message(alloc: Global, reason: ExecFault) -> Result<Name, AllocError>
    ensures { IfOk result (λ name. name ≡ refusal_message (exec_refusal reason)) }
{
    match reason {
        ExecFault::NoFunction => said(alloc, b"exec NoFunction"),
        ExecFault::Unfilled => said(alloc, b"exec Unfilled"),
        ExecFault::References => said(alloc, b"exec References"),
        ExecFault::Count => said(alloc, b"exec Count"),
        ExecFault::Value { index: _ } => said(alloc, b"exec Value"),
    }
}

// The status where numbers do not fill a sketch. Want of memory is no such.
fn fill_status(fault: FillFault) -> u8
    ensures { result ≡ refusal_status (fill_refusal fault) }
{
    match fault {
        FillFault::Memory => 17,
        _ => 22,
    }
}

fn fill_message(alloc: Global, fault: FillFault) -> Result<Name, AllocError>
    ensures { IfOk result (λ name. name ≡ refusal_message (fill_refusal fault)) }
{
    match fault {
        FillFault::WrongLength => said(alloc, b"fill WrongLength"),
        FillFault::OutOfRange { site: _ } => said(alloc, b"fill OutOfRange"),
        FillFault::Memory => said(alloc, b"no memory"),
    }
}

// The status where what stands behind a sketch is no certificate. Want of memory is no such.
fn cert_status(fault: CertFault) -> u8
    ensures { result ≡ refusal_status (cert_refusal fault) }
{
    match fault {
        CertFault::Memory => 17,
        _ => 19,
    }
}

fn cert_message(alloc: Global, fault: CertFault) -> Result<Name, AllocError>
    ensures { IfOk result (λ name. name ≡ refusal_message (cert_refusal fault)) }
{
    match fault {
        CertFault::NoForm { line } => departing(alloc, b"NoForm", line),
        CertFault::Version { line } => departing(alloc, b"Version", line),
        CertFault::Memory => said(alloc, b"no memory"),
    }
}

// What is wrong with a text that is no certificate, and the line.
fn departing(alloc: Global, name: &[u8], line: u32) -> Result<Name, AllocError>
    ensures { IfOk result (λ text. text ≡ codes "certificate " ++ name.now ++ codes " " ++ decimal line) }
{
    let mut out = Vec::from_slice(alloc, b"certificate ")?;
    out.extend_from_slice(name)?;
    push_spaced(&mut out, line)?;
    Ok(Name::from_vec(out))
}

// The status where a text has no plain form. Want of memory is no such.
fn adt_status(reason: AdtFault) -> u8
    ensures { result ≡ adt_status reason }
{
    match reason {
        AdtFault::Memory => 17,
        _ => 21,
    }
}

// The name of what stands wrong among algebraic types, and its first byte.
fn adt_message(alloc: Global, reason: AdtFault) -> Result<Name, AllocError>
    ensures { IfOk result (λ name. name ≡ adt_message reason) }
{
    match reason {
        AdtFault::NoForm { at } => misplaced(alloc, b"NoForm", at),
        AdtFault::Twice { at } => misplaced(alloc, b"Twice", at),
        AdtFault::NoVariant { at } => misplaced(alloc, b"NoVariant", at),
        AdtFault::TooMany { at } => misplaced(alloc, b"TooMany", at),
        AdtFault::Memory => said(alloc, b"no memory"),
    }
}

fn misplaced(alloc: Global, name: &[u8], at: u32) -> Result<Name, AllocError>
    ensures { IfOk result (λ text. text ≡ codes "adt " ++ name.now ++ codes " " ++ decimal at) }
{
    let mut out = Vec::from_slice(alloc, b"adt ")?;
    out.extend_from_slice(name)?;
    push_spaced(&mut out, at)?;
    Ok(Name::from_vec(out))
}

// The bytes of what breaks a rule of tags.
fn tag_message(alloc: Global, span: Span) -> Result<Name, AllocError>
    ensures { IfOk result (λ text. text ≡ tag_message span) }
{
    let mut out = Vec::from_slice(alloc, b"tag")?;
    push_spaced(&mut out, span.from)?;
    push_spaced(&mut out, span.to)?;
    Ok(Name::from_vec(out))
}

// The status for a fault of a text. Want of memory is none.
fn text_status(fault: &TextFault) -> u8
    ensures { result ≡ refusal_status (text_refusal fault.now) }
{
    match fault {
        TextFault::Lex(LexFault::Memory) => 17,
        TextFault::Parse(ParseFault::Memory) => 17,
        _ => 11,
    }
}

// The status for an expansion that is too large. Want of memory is no such.
fn size_status(reason: SizeFault) -> u8
    ensures { result ≡ refusal_status (size_refusal reason) }
{
    match reason {
        SizeFault::Memory => 17,
        _ => 13,
    }
}

fn rule_number(rule: Rule) -> u64
    ensures { result ≡ rule_number (rule_of rule) }
{
    match rule {
        Rule::UnknownName => 1,
        Rule::Twice => 2,
        Rule::Mismatch => 3,
        Rule::NotTarget => 4,
        Rule::BadSignature => 5,
        Rule::NotConstant => 6,
        Rule::LiteralRange => 7,
        Rule::LengthRange => 8,
        Rule::NoAlternative => 9,
        Rule::ReorderForm => 10,
        Rule::NameKept => 11,
        Rule::HoleWidth => 12,
    }
}

// The number of the rule, and the place of what breaks it.
fn type_message(alloc: Global, fault: &TypeFault) -> Result<Name, AllocError>
    ensures { IfOk result (λ name. name ≡ refusal_message (type_refusal fault.now)) }
{
    let mut out = Vec::from_slice(alloc, b"type ")?;
    push_number(&mut out, rule_number(fault.rule))?;
    push_spaced(&mut out, fault.span.from)?;
    push_spaced(&mut out, fault.span.to)?;
    Ok(Name::from_vec(out))
}

// A number behind a space.
fn push_spaced(out: &mut Vec<u8>, number: u32) -> Result<(), AllocError>
    ensures { OnOk result (out.new.items ≡ out.old.items ++ codes " " ++ decimal number) }
{
    out.push(b' ')?;
    push_number(out, u64::from(number))?;
    Ok(())
}

fn size_message(alloc: Global, reason: SizeFault) -> Result<Name, AllocError>
    ensures { IfOk result (λ name. name ≡ refusal_message (size_refusal reason)) }
{
    match reason {
        SizeFault::Copies => limited(alloc, b"Copies", 262_144),
        SizeFault::Sites => limited(alloc, b"Sites", 4096),
        SizeFault::Steps => limited(alloc, b"Steps", 262_144),
        SizeFault::News => limited(alloc, b"News", 256),
        SizeFault::Memory => said(alloc, b"no memory"),
    }
}

fn text_message(alloc: Global, fault: &TextFault) -> Result<Name, AllocError>
    ensures { IfOk result (λ name. name ≡ refusal_message (text_refusal fault.now)) }
{
    match fault {
        TextFault::Lex(fault) => lex_message(alloc, fault),
        TextFault::Parse(fault) => parse_message(alloc, fault),
    }
}

fn lex_message(alloc: Global, fault: &LexFault) -> Result<Name, AllocError>
    ensures { IfOk result (λ name. name ≡ refusal_message (text_refusal (Lex fault.now))) }
{
    match fault {
        LexFault::BadByte { at } => placed(alloc, b"BadByte", *at),
        LexFault::OpenComment { at } => placed(alloc, b"OpenComment", *at),
        LexFault::LiteralTooLarge { at } => placed(alloc, b"LiteralTooLarge", *at),
        LexFault::OpenString { at } => placed(alloc, b"OpenString", *at),
        LexFault::Memory => said(alloc, b"no memory"),
    }
}

fn parse_message(alloc: Global, fault: &ParseFault) -> Result<Name, AllocError>
    ensures { IfOk result (λ name. name ≡ refusal_message (text_refusal (Parse fault.now))) }
{
    match fault {
        ParseFault::NoReading { at } => placed(alloc, b"NoReading", *at),
        ParseFault::BadAlternative { at } => placed(alloc, b"BadAlternative", *at),
        ParseFault::TooManyStrings { at } => placed(alloc, b"TooManyStrings", *at),
        ParseFault::Memory => said(alloc, b"no memory"),
    }
}

fn said(alloc: Global, words: &[u8]) -> Result<Name, AllocError>
    ensures { IfOk result (λ name. name ≡ words.now) }
{
    let name = Name::from_slice(alloc, words)?;
    Ok(name)
}

// The name of a size that is passed, and its limit.
fn limited(alloc: Global, name: &[u8], limit: u32) -> Result<Name, AllocError>
    ensures { IfOk result (λ text. text ≡ codes "size " ++ name.now ++ codes " " ++ decimal limit) }
{
    let mut out = Vec::from_slice(alloc, b"size ")?;
    out.extend_from_slice(name)?;
    push_spaced(&mut out, limit)?;
    Ok(Name::from_vec(out))
}

// The name of a fault of the text, and its place.
fn placed(alloc: Global, name: &[u8], at: u32) -> Result<Name, AllocError>
    ensures { IfOk result (λ text. text ≡ codes "text " ++ name.now ++ codes " " ++ decimal at) }
{
    let mut out = Vec::from_slice(alloc, b"text ")?;
    out.extend_from_slice(name)?;
    out.push(b' ')?;
    push_number(&mut out, u64::from(at))?;
    Ok(Name::from_vec(out))
}
