//! Operators and their levels.
ghost use Rattle.std.specs.Prelude.{◌≡◌, option_map};
ghost use Rattle.sk_tree.specs.Placed.{level_of};
ghost use Rattle.sk_tree.specs.Spelt.{is_unary};
ghost use Rattle.sk_parser_laws.specs.ExprReader.{ends_chain, operator_at, sign_at};

use sk_tree::{Kind, Mark, Token};

/// The level of a binary operator, tightest first; 0 for a mark that is none.
pub fn level_of(mark: Mark) -> u32
    ensures { result ≡ level_of mark }
{
    match mark {
        Mark::Star | Mark::Slash | Mark::Percent => 3,
        Mark::Plus | Mark::Minus => 4,
        Mark::ShiftLeft | Mark::ShiftRight => 5,
        Mark::Less | Mark::AtMost | Mark::Greater | Mark::AtLeast => 6,
        Mark::Equal | Mark::NotEqual => 7,
        Mark::Ampersand => 8,
        Mark::Caret => 9,
        Mark::Bar => 10,
        Mark::AndThen => 11,
        Mark::OrElse => 12,
        _ => 0,
    }
}

// Whether no operator of at most this level follows.
#[tactic(auto, unfolding(sk_parser_laws::specs::ExprReader::ends_chain))]
pub fn ends_chain(level: u32, tokens: &[Token]) -> bool
    ensures { result ≡ ends_chain level tokens.now }
{
    match tokens.split_first() {
        Some((token, _)) => match token.kind {
            Kind::Mark(op) => {
                let found = level_of(op);
                !(3 <= found && found <= level)
            }
            _ => true,
        },
        None => true,
    }
}

// The binary operator at the front, with its level.
#[tactic(auto, unfolding(sk_parser_laws::specs::ExprReader::operator_at))]
pub fn operator_at(tokens: &[Token]) -> Option<(Mark, &[Token])>
    ensures { option_map (λ x. (x.0, x.1.now)) result ≡ operator_at tokens.now }
{
    match tokens.split_first() {
        Some((token, after)) => match token.kind {
            Kind::Mark(op) => {
                if 3 <= level_of(op) {
                    Some((op, after))
                } else {
                    None
                }
            }
            _ => None,
        },
        None => None,
    }
}

// Whether the mark is `!`, `~` or `-`.
fn is_unary(mark: Mark) -> bool
    ensures { result ≡ is_unary mark }
{
    matches!(mark, Mark::Bang | Mark::Tilde | Mark::Minus)
}

// The unary operator at the front.
#[tactic(auto, unfolding(sk_parser_laws::specs::ExprReader::sign_at))]
pub fn sign_at(tokens: &[Token]) -> Option<(Mark, &[Token])>
    ensures { option_map (λ x. (x.0, x.1.now)) result ≡ sign_at tokens.now }
{
    match tokens.split_first() {
        Some((token, after)) => match token.kind {
            Kind::Mark(op) => {
                if is_unary(op) {
                    Some((op, after))
                } else {
                    None
                }
            }
            _ => None,
        },
        None => None,
    }
}
