//! What operators take.
ghost use Rattle.std.specs.Prelude.{◌≡◌};

use crate::pieces::bytes_of;
use sk_base::Span;
use sk_explain_notes::Told;
use sk_tree::{Kind, Mark, Token};
use std::alloc::AllocError;

// What the operands of an operator are.
#[derive(Debug, Clone, Copy, PartialEq, Eq)]
enum Operands {
    // It is no operator.
    NoOperator,
    // More than these words say.
    Many,
    Are(&'static [u8]),
}

// What the operands of the operator are that a mark is.
fn operands_of(mark: Mark) -> Operands {
    match mark {
        Mark::Star | Mark::Slash | Mark::Percent | Mark::Minus => Operands::Are(b"int"),
        Mark::Less | Mark::Greater | Mark::AtMost | Mark::AtLeast => Operands::Are(b"int"),
        Mark::Plus => Operands::Are(b"int and bit[n]"),
        Mark::Ampersand | Mark::Bar | Mark::Caret | Mark::Tilde => Operands::Are(b"bit and bit[n]"),
        Mark::AndThen | Mark::OrElse | Mark::Bang => Operands::Are(b"bit"),
        Mark::ShiftLeft | Mark::ShiftRight => {
            Operands::Are(b"bit[n] on the left and int on the right")
        }
        Mark::Equal | Mark::NotEqual | Mark::Question | Mark::OpenPattern => Operands::Many,
        Mark::Increment | Mark::Decrement | Mark::AddAssign | Mark::SubAssign => Operands::Many,
        Mark::Assign | Mark::Dot | Mark::OpenBracket | Mark::OpenBrace => Operands::NoOperator,
        Mark::ClosePattern | Mark::Hole | Mark::DoubleColon | Mark::Colon => Operands::NoOperator,
        Mark::OpenParen | Mark::CloseParen | Mark::CloseBrace => Operands::NoOperator,
        Mark::CloseBracket | Mark::Comma | Mark::Semicolon => Operands::NoOperator,
    }
}

// What the operands are of a token.
fn operands_at(token: &Token) -> Operands {
    match &token.kind {
        Kind::Mark(mark) => operands_of(*mark),
        Kind::Word(_) | Kind::Number(_) | Kind::Text(_) | Kind::Key(_) => Operands::NoOperator,
    }
}

// The one operator of a span, where there is no other.
fn only_operator(tokens: &[Token], span: Span) -> Option<&Token> {
    let mut only = None;
    for token in tokens {
        let is_within = span.from <= token.span.from && token.span.to <= span.to;
        if is_within && operands_at(token) != Operands::NoOperator {
            if only.is_some() {
                return None;
            }
            only = Some(token);
        }
    }
    only
}

/// Tells what the operands of the operator of a span are, where the span has one operator alone. After a refusal title and
/// notes are given up: nothing is told.
pub fn push_operands(
    told: &mut Told,
    text: &[u8],
    tokens: &[Token],
    span: Span,
) -> Result<(), AllocError>
    ensures { told.new.title ≡ told.old.title }
{
    let Some(token) = only_operator(tokens, span) else {
        return Ok(());
    };
    match operands_at(token) {
        Operands::Are(types) => {
            told.notes
                .say(&[b"'", bytes_of(text, token.span), b"' is for "])?;
            told.note(&[types])
        }
        Operands::NoOperator | Operands::Many => Ok(()),
    }
}
