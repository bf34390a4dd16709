//! Where a statement stands, and what may stand there.
ghost use Rattle.std.specs.Prelude.{◌≡◌, option_map};
ghost use Rattle.sk_tree.specs.Spelt.{asks, eform_is_place, eform_is_pattern, is_whole, may_step, may_declare, is_target, is_call};
ghost use Rattle.sk_parser_laws.specs.StmtReader.{end_at};
ghost use Rattle.sk_parser_stmts.specs.Roles.{role_of};

use sk_parser_exprs::token::mark_at;
use sk_tree::{Declared, EForm, Expr, Mark, Token};

/// Where a statement stands: directly in a block, as the body of another statement, or as the
/// first or the next of a `for`.
#[derive(Debug, Drop, Clone, Copy, PartialEq, Eq)]
pub enum Place {
    Block,
    Body,
    First,
    Next,
}

// The end of a statement in its place.
#[tactic(auto, unfolding(sk_parser_laws::specs::StmtReader::end_at))]
pub fn end_at(place: Place, tokens: &[Token]) -> Option<&[Token]>
    ensures { option_map (λ x. x.now) result ≡ end_at (role_of place) tokens.now }
{
    match place {
        Place::Block => mark_at(tokens, Mark::Semicolon),
        Place::Body => mark_at(tokens, Mark::Semicolon),
        Place::First => Some(tokens),
        Place::Next => Some(tokens),
    }
}

// Whether a statement other than the own ones of a `for` may stand there.
pub fn is_whole(place: Place) -> bool
    ensures { result ≡ is_whole (role_of place) }
{
    match place {
        Place::Block => true,
        Place::Body => true,
        Place::First => false,
        Place::Next => false,
    }
}

// Whether a step may stand there.
pub fn may_step(place: Place) -> bool
    ensures { result ≡ may_step (role_of place) }
{
    match place {
        Place::Block => true,
        Place::Body => true,
        Place::First => false,
        Place::Next => true,
    }
}

// Whether these names may be declared there.
pub fn may_declare(place: Place, names: &[Declared]) -> bool
    ensures { result ≡ may_declare (role_of place) names.now }
{
    match place {
        Place::Block => !names.is_empty(),
        Place::First => match names {
            [only] => only.value.is_some(),
            _ => false,
        },
        Place::Body => false,
        Place::Next => false,
    }
}

// Whether the expression is a word with fields and elements behind it.
fn is_place(expr: &Expr) -> bool
    ensures { result ≡ asks eform_is_place expr.now }
{
    match &expr.form {
        EForm::Word(_) => true,
        EForm::Member { base, .. } => is_place(base.get()),
        EForm::Index { base, .. } => is_place(base.get()),
        _ => false,
    }
}

// Whether the expression may stand as a target.
pub fn is_target(expr: &Expr) -> bool
    ensures { result ≡ is_target expr.now }
{
    is_place(expr) || is_pattern(expr)
}

fn is_pattern(expr: &Expr) -> bool
    ensures { result ≡ asks eform_is_pattern expr.now }
{
    match &expr.form {
        EForm::Pattern { .. } => true,
        _ => false,
    }
}

pub fn is_call(expr: &Expr) -> bool
    ensures { result ≡ is_call expr.now }
{
    match &expr.form {
        EForm::Call { .. } => true,
        _ => false,
    }
}
