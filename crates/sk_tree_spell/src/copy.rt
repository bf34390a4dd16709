//! Copies of tokens.
ghost use Rattle.std.specs.Prelude.{◌≡◌, IfOk};

use sk_base::Name;
use sk_tree::{Kind, Token};
use std::alloc::{AllocError, Global};

/// A copy of what a token is. Want of memory is the only error.
pub fn copy_kind(alloc: Global, kind: &Kind) -> Result<Kind, AllocError>
    ensures { IfOk result (λ copy. copy ≡ kind.now) }
{
    match kind {
        Kind::Word(x) => {
            let name = Name::from_slice(alloc, x.as_bytes())?;
            Ok(Kind::Word(name))
        }
        Kind::Number(n) => Ok(Kind::Number(*n)),
        Kind::Text(x) => {
            let name = Name::from_slice(alloc, x.as_bytes())?;
            Ok(Kind::Text(name))
        }
        Kind::Key(key) => Ok(Kind::Key(*key)),
        Kind::Mark(mark) => Ok(Kind::Mark(*mark)),
    }
}

/// A copy of a token, where it stands. Want of memory is the only error.
pub fn copy_token(alloc: Global, token: &Token) -> Result<Token, AllocError>
    ensures { IfOk result (λ copy. copy ≡ token.now) }
{
    let kind = copy_kind(alloc, &token.kind)?;
    Ok(Token {
        kind,
        span: token.span,
    })
}
