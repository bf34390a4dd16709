//! The pieces of a text read from its tokens: `pieces_of` of specs is the function on lists that this code computes.
ghost use Rattle.std.specs.Prelude.{◌≡◌, ◌<◌, ℕ, List, [], ◌∷◌, ◌++◌, Option, Result, IfOk, option_map};
ghost use Rattle.sk_tree.specs.declared.token.Token.{Token};
ghost use Rattle.sk_adt.specs.declared.form.Piece.{Piece};
ghost use Rattle.sk_adt.specs.declared.form.Piece.TheVariants as piece;
ghost use Rattle.sk_parser_laws.specs.Readers.{Gives, repeated};
ghost use Rattle.sk_adt.specs.Forms.{depth_after, close_at, case_at, head_at, with_case, next_case, cases_at, at_close, switched, switch_at, typed_at, with_rest, selected_at, name_at, member, behind, plain_at, ok_plain, or_outside, piece_kind, piece_at, pieces_from, pieces_of};

use crate::form::{CaseForm, CaseHead, Piece, SwitchHead, Word};
use crate::token::{at_close, before, keyword_at, name_at, sign_at};
use crate::types::type_at;
use sk_base::{List, Name, Span};
use sk_parser_exprs::token::{copy, mark_at};
use sk_parser_laws::Stop;
use sk_tree::{Key, Kind, Mark, Token};
use sk_tree_spell::copy_token;
use std::alloc::{AllocError, Global};

// A part of a text, or the first byte of the first token that stands outside its form.
type Found<T> = Result<T, u32>;

// So many blocks of cases may stand inside each other; a text with more is too deep to be read.
const LEVELS: u32 = 512;

// How many more blocks are open behind a token, or none where it closes the first.
fn depth_after(depth: usize, kind: &Kind) -> Option<usize>
    requires { depth < usize.MAX }
    ensures { result ≡ depth_after depth kind.now }
{
    match kind {
        Kind::Mark(Mark::OpenBrace) => Some(depth + 1),
        Kind::Mark(Mark::CloseBrace) => { if depth == 0 { None } else { Some(depth - 1) } }
        _ => Some(depth),
    }
}

// The tokens from the `}` on that closes what was opened before them.
#[tactic(auto, unfolding(crate::specs::Forms::close_at))]
fn close_at(tokens: &[Token]) -> Option<&[Token]>
    ensures { option_map (λ x. x.now) result ≡ close_at 0 tokens.now }
{
    let mut depth = 0;
    for (i, token) in tokens.iter().enumerate() {
        match depth_after(depth, &token.kind) {
            None => return Some(&tokens[i..]),
            Some(after) => depth = after,
        }
    }
    None
}

// A case with the tokens in its block, and the tokens after it.
#[tactic(auto, unfolding(crate::specs::Forms::case_at))]
fn case_at(alloc: Global, tokens: &[Token]) -> Result<(CaseHead, &[Token], &[Token]), Stop>
    ensures { Gives (λ x. (x.0, (x.1.now, x.2.now))) result (case_at tokens.now) }
{
    let Some((_, after)) = keyword_at(tokens, Key::Case) else {
        return Err(Stop::NoReading(tokens.len()));
    };
    let (word, after) = name_at(alloc, after)?;
    let Some(after) = mark_at(after, Mark::Colon) else {
        return Err(Stop::NoReading(after.len()));
    };
    let Some((open, inner)) = sign_at(after, Mark::OpenBrace) else {
        return Err(Stop::NoReading(after.len()));
    };
    let Some(end) = close_at(inner) else {
        return Err(Stop::NoReading(inner.len()));
    };
    let Some((close, rest)) = sign_at(end, Mark::CloseBrace) else {
        return Err(Stop::NoReading(end.len()));
    };
    Ok((CaseHead { word, open, close }, before(inner, end), rest))
}

// `switch (x)`.
#[tactic(auto, unfolding(crate::specs::Forms::head_at))]
fn head_at(alloc: Global, tokens: &[Token]) -> Result<(SwitchHead, &[Token]), Stop>
    ensures { Gives (λ x. (x.0, x.1.now)) result (head_at tokens.now) }
{
    let Some((at, after)) = keyword_at(tokens, Key::Switch) else {
        return Err(Stop::NoReading(tokens.len()));
    };
    let Some((open, after)) = sign_at(after, Mark::OpenParen) else {
        return Err(Stop::NoReading(after.len()));
    };
    let (on, after) = name_at(alloc, after)?;
    let Some((close, rest)) = sign_at(after, Mark::CloseParen) else {
        return Err(Stop::NoReading(after.len()));
    };
    Ok((
        SwitchHead {
            at,
            open,
            on,
            close,
        },
        rest,
    ))
}

// One case more, or the fault of the first that has one.
fn with_case(
    cases: Found<List<CaseForm>>,
    head: CaseHead,
    body: Found<List<Piece>>,
) -> Result<Found<List<CaseForm>>, AllocError>
    ensures { IfOk result (λ found. found ≡ with_case cases head body) }
{
    match cases {
        Err(at) => Ok(Err(at)),
        Ok(cases) => match body {
            Err(at) => Ok(Err(at)),
            Ok(body) => {
                let cases = push_case(cases, CaseForm { head, body })?;
                Ok(Ok(cases))
            }
        },
    }
}

// One case more.
fn push_case(cases: List<CaseForm>, case: CaseForm) -> Result<List<CaseForm>, AllocError>
    ensures { IfOk result (λ more. more ≡ cases ++ case ∷ []) }
{
    let mut cases = cases;
    cases.push(case)?;
    Ok(cases)
}

// `.` and a word.
#[tactic(auto, unfolding(crate::specs::Forms::selected_at))]
fn selected_at(alloc: Global, tokens: &[Token]) -> Result<(Span, Word, &[Token]), Stop>
    ensures { Gives (λ x. (x.0, (x.1, x.2.now))) result (selected_at tokens.now) }
{
    let Some((dot, after)) = sign_at(tokens, Mark::Dot) else {
        return Err(Stop::NoReading(tokens.len()));
    };
    let (field, rest) = name_at(alloc, after)?;
    Ok((dot, field, rest))
}

// A token that begins no other piece.
fn alone<'a>(
    alloc: Global,
    token: &Token,
    after: &'a [Token],
) -> Result<(Piece, &'a [Token]), AllocError>
    ensures { IfOk result (λ r. with_rest r.0 r.1.now ≡ with_rest (piece.Plain token.now) after.now) }
{
    let token = copy_token(alloc, token)?;
    Ok((Piece::Plain(token), after))
}

// A word, with `.` and a word where they follow.
fn member_at<'a>(
    alloc: Global,
    token: &Token,
    name: &Name,
    after: &'a [Token],
) -> Result<(Piece, &'a [Token]), AllocError>
    ensures { IfOk result (λ r. with_rest r.0 r.1.now ≡ member token.now after.now name.now (selected_at after.now)) }
{
    match selected_at(alloc, after) {
        Ok((dot, field, rest)) => {
            let name = copy(alloc, name)?;
            let on = Word {
                name,
                span: token.span,
            };
            Ok((Piece::Member { on, dot, field }, rest))
        }
        Err(Stop::NoMemory) => Err(AllocError),
        Err(Stop::NoReading(_)) => {
            let read = alone(alloc, token, after)?;
            Ok(read)
        }
    }
}

// A `.`, with the word that follows, where one does.
fn behind_dot<'a>(
    alloc: Global,
    token: &Token,
    after: &'a [Token],
) -> Result<(Piece, &'a [Token]), AllocError>
    ensures { IfOk result (λ r. with_rest r.0 r.1.now ≡ behind token.now after.now (name_at after.now)) }
{
    match name_at(alloc, after) {
        Ok((field, rest)) => Ok((
            Piece::Behind {
                dot: token.span,
                field,
            },
            rest,
        )),
        Err(Stop::NoMemory) => Err(AllocError),
        Err(Stop::NoReading(_)) => {
            let read = alone(alloc, token, after)?;
            Ok(read)
        }
    }
}

// A piece that is no form.
#[tactic(auto, unfolding(crate::specs::Forms::plain_at))]
fn plain_at<'a>(
    alloc: Global,
    token: &Token,
    after: &'a [Token],
) -> Result<(Piece, &'a [Token]), AllocError>
    ensures { IfOk result (λ r. with_rest r.0 r.1.now ≡ plain_at token.now after.now) }
{
    match &token.kind {
        Kind::Word(name) => member_at(alloc, token, name, after),
        Kind::Mark(Mark::Dot) => behind_dot(alloc, token, after),
        _ => alone(alloc, token, after),
    }
}

// The item `adt` at the front.
#[tactic(auto, unfolding(crate::specs::Forms::typed_at))]
fn typed_at(alloc: Global, tokens: &[Token]) -> Result<(Found<Piece>, &[Token]), Stop>
    ensures { Gives (λ x. (x.0, x.1.now)) result (typed_at tokens.now) }
{
    let (form, rest) = type_at(alloc, tokens)?;
    Ok((Ok(Piece::Type(form)), rest))
}

// The item `adt` at the front, or the fault of a token that begins none.
fn type_piece<'a>(
    alloc: Global,
    tokens: &'a [Token],
    token: &Token,
    after: &'a [Token],
) -> Result<(Found<Piece>, &'a [Token]), AllocError>
    ensures { IfOk result (λ r. with_rest r.0 r.1.now ≡ or_outside token.now after.now (typed_at tokens.now)) }
{
    match typed_at(alloc, tokens) {
        Ok(found) => Ok(found),
        Err(Stop::NoMemory) => Err(AllocError),
        Err(Stop::NoReading(_)) => Ok((Err(token.span.from), after)),
    }
}

// The switch of these cases.
fn switched(head: SwitchHead, cases: Found<List<CaseForm>>) -> Found<Piece>
    ensures { result ≡ switched head cases }
{
    match cases {
        Err(at) => Err(at),
        Ok(cases) => Ok(Piece::Switch { head, cases }),
    }
}

/// The pieces of a text, or the first byte of the first token that stands outside its form. Want of memory is the
/// only error.
#[tactic(auto, unfolding(crate::specs::Forms::pieces_of))]
pub(crate) fn pieces_of(alloc: Global, tokens: &[Token]) -> Result<Found<List<Piece>>, AllocError>
    ensures { IfOk result (λ found. found ≡ pieces_of tokens.now) }
{
    let found = pieces_from(alloc, LEVELS, tokens.len(), tokens)?;
    Ok(found)
}

// The pieces of the tokens, where so many may come.
#[cycle(pieces)]
#[tactic(auto, unfolding(crate::specs::Forms::pieces_from), using(crate::proofs::Pieces::pieces_none, crate::proofs::Pieces::pieces_more))]
fn pieces_from(
    alloc: Global,
    levels: u32,
    left: usize,
    tokens: &[Token],
) -> Result<Found<List<Piece>>, AllocError>
    ensures { IfOk result (λ found. found ≡ pieces_from left [] tokens.now) }
{
    let mut more = left;
    let mut so_far = List::new(alloc);
    let mut rest = tokens;
    while let Some((token, after)) = rest.split_first() {
        if more == 0 {
            return Ok(Err(token.span.from));
        }
        let (found, behind) = piece_at(alloc, levels, more - 1, rest, token, after)?;
        let piece = match found {
            Err(at) => return Ok(Err(at)),
            Ok(piece) => piece,
        };
        so_far.push(piece)?;
        more -= 1;
        rest = behind;
    }
    Ok(Ok(so_far))
}

// The piece at the front, and the tokens after it.
#[cycle(pieces)]
#[tactic(auto, unfolding(crate::specs::Forms::piece_at, crate::specs::Forms::ok_plain))]
fn piece_at<'a>(
    alloc: Global,
    levels: u32,
    left: usize,
    tokens: &'a [Token],
    token: &Token,
    after: &'a [Token],
) -> Result<(Found<Piece>, &'a [Token]), AllocError>
    requires { tokens.now ≡ token.now ∷ after.now }
    ensures { IfOk result (λ r. with_rest r.0 r.1.now ≡ piece_at (pieces_from left []) token.now after.now) }
{
    match &token.kind {
        Kind::Key(Key::Adt) => type_piece(alloc, tokens, token, after),
        Kind::Key(Key::Switch) => switch_piece(alloc, levels, left, tokens, token, after),
        Kind::Key(Key::Case) => Ok((Err(token.span.from), after)),
        _ => {
            let (piece, rest) = plain_at(alloc, token, after)?;
            Ok((Ok(piece), rest))
        }
    }
}

// The statement `switch` at the front, or the fault of a token that begins none.
#[cycle(pieces)]
fn switch_piece<'a>(
    alloc: Global,
    levels: u32,
    left: usize,
    tokens: &'a [Token],
    token: &Token,
    after: &'a [Token],
) -> Result<(Found<Piece>, &'a [Token]), AllocError>
    ensures { IfOk result (λ r. with_rest r.0 r.1.now ≡ or_outside token.now after.now (switch_at (pieces_from left []) tokens.now)) }
{
    match switch_at(alloc, levels, left, tokens) {
        Ok(found) => Ok(found),
        Err(Stop::NoMemory) => Err(AllocError),
        Err(Stop::NoReading(_)) => Ok((Err(token.span.from), after)),
    }
}

// The statement `switch` at the front, and the tokens after it.
#[cycle(pieces)]
#[tactic(auto, unfolding(crate::specs::Forms::switch_at))]
fn switch_at(
    alloc: Global,
    levels: u32,
    left: usize,
    tokens: &[Token],
) -> Result<(Found<Piece>, &[Token]), Stop>
    ensures { Gives (λ x. (x.0, x.1.now)) result (switch_at (pieces_from left []) tokens.now) }
{
    let (head, after) = head_at(alloc, tokens)?;
    let Some(inner) = mark_at(after, Mark::OpenBrace) else {
        return Err(Stop::NoReading(after.len()));
    };
    let (cases, behind) = cases_at(alloc, levels, left, inner)?;
    let Some(rest) = mark_at(behind, Mark::CloseBrace) else {
        return Err(Stop::NoReading(behind.len()));
    };
    Ok((switched(head, cases), rest))
}

// One or more cases.
#[cycle(pieces)]
#[tactic(auto, unfolding(crate::specs::Forms::cases_at))]
fn cases_at(
    alloc: Global,
    levels: u32,
    left: usize,
    tokens: &[Token],
) -> Result<(Found<List<CaseForm>>, &[Token]), Stop>
    ensures { Gives (λ x. (x.0, x.1.now)) result (cases_at (pieces_from left []) tokens.now) }
{
    let (first, rest) = next_case(alloc, levels, left, Ok(List::new(alloc)), tokens)?;
    let read = more_cases(alloc, levels, left, first, rest)?;
    Ok(read)
}

// The other cases, up to a closing brace.
#[cycle(pieces)]
fn more_cases(
    alloc: Global,
    levels: u32,
    left: usize,
    cases: Found<List<CaseForm>>,
    tokens: &[Token],
) -> Result<(Found<List<CaseForm>>, &[Token]), Stop>
    ensures { Gives (λ x. (x.0, x.1.now)) result (repeated at_close (next_case (pieces_from left [])) cases tokens.now) }
{
    let mut so_far = cases;
    let mut rest = tokens;
    while !at_close(rest) {
        let (more, behind) = next_case(alloc, levels, left, so_far, rest)?;
        so_far = more;
        rest = behind;
    }
    Ok((so_far, rest))
}

// One case more.
#[cycle(pieces)]
#[tactic(auto, unfolding(crate::specs::Forms::next_case))]
fn next_case(
    alloc: Global,
    levels: u32,
    left: usize,
    cases: Found<List<CaseForm>>,
    tokens: &[Token],
) -> Result<(Found<List<CaseForm>>, &[Token]), Stop>
    ensures { Gives (λ x. (x.0, x.1.now)) result (next_case (pieces_from left []) cases tokens.now) }
{
    if levels == 0 {
        return Err(Stop::NoMemory);
    }
    let (head, block, rest) = case_at(alloc, tokens)?;
    let body = pieces_from(alloc, levels - 1, left, block)?;
    let cases = with_case(cases, head, body)?;
    Ok((cases, rest))
}
