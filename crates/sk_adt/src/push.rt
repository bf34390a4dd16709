//! Tokens, appended one at a time.
ghost use Rattle.std.specs.Prelude.{◌≡◌, ◌++◌, [], ◌∷◌, codes, IfOk, OnOk};
ghost use Rattle.std.specs.Str.{bytes_eq};
ghost use Rattle.sk_adt.specs.Branches.{token, sign, keyword, name, number, made_name};

use sk_base::{Name, Span, push_number};
use sk_limits::too_many;
use sk_parser_exprs::token::copy;
use sk_tree::{Key, Kind, Mark, Token};
use sk_tree_spell::copy_token;
use std::alloc::{AllocError, Global};

/// Whether two names are the same.
pub(crate) fn same(a: &Name, b: &Name) -> bool
    ensures { result ≡ bytes_eq a.now b.now }
{
    a.as_bytes() == b.as_bytes()
}

/// Appends a token.
fn push_kind(out: &mut Vec<Token>, kind: Kind, span: Span) -> Result<(), AllocError>
    ensures { OnOk result (out.new.items ≡ out.old.items ++ token kind span) }
{
    out.push(Token { kind, span })?;
    Ok(())
}

/// Appends a mark.
pub(crate) fn push_sign(out: &mut Vec<Token>, mark: Mark, span: Span) -> Result<(), AllocError>
    ensures { OnOk result (out.new.items ≡ out.old.items ++ sign mark span) }
{
    push_kind(out, Kind::Mark(mark), span)
}

/// Appends a keyword.
pub(crate) fn push_keyword(out: &mut Vec<Token>, key: Key, span: Span) -> Result<(), AllocError>
    ensures { OnOk result (out.new.items ≡ out.old.items ++ keyword key span) }
{
    push_kind(out, Kind::Key(key), span)
}

/// Appends a word.
pub(crate) fn push_name(out: &mut Vec<Token>, word: Name, span: Span) -> Result<(), AllocError>
    ensures { OnOk result (out.new.items ≡ out.old.items ++ name word span) }
{
    push_kind(out, Kind::Word(word), span)
}

/// Appends a copy of a word.
pub(crate) fn push_copy(
    alloc: Global,
    out: &mut Vec<Token>,
    word: &Name,
    span: Span,
) -> Result<(), AllocError>
    ensures { OnOk result (out.new.items ≡ out.old.items ++ name word.now span) }
{
    let word = copy(alloc, word)?;
    push_name(out, word, span)
}

/// Appends the word `tag`.
pub(crate) fn push_tag(alloc: Global, out: &mut Vec<Token>, span: Span) -> Result<(), AllocError>
    ensures { OnOk result (out.new.items ≡ out.old.items ++ name (codes "tag") span) }
{
    let word = Name::from_slice(alloc, b"tag")?;
    push_name(out, word, span)
}

/// Appends a number. One that is no number of a text is wanting in memory.
pub(crate) fn push_count(out: &mut Vec<Token>, n: usize, span: Span) -> Result<(), AllocError>
    ensures { OnOk result (out.new.items ≡ out.old.items ++ number n span) }
{
    if n > 0xffff_ffff {
        return Err(too_many());
    }
    push_kind(out, Kind::Number(n as u32), span)
}

/// Appends a copy of a token.
pub(crate) fn push_token(
    alloc: Global,
    out: &mut Vec<Token>,
    token: &Token,
) -> Result<(), AllocError>
    ensures { OnOk result (out.new.items ≡ out.old.items ++ token.now ∷ []) }
{
    let copy = copy_token(alloc, token)?;
    out.push(copy)?;
    Ok(())
}

/// Appends copies of tokens.
pub(crate) fn push_copies(
    alloc: Global,
    out: &mut Vec<Token>,
    tokens: &[Token],
) -> Result<(), AllocError>
    ensures { OnOk result (out.new.items ≡ out.old.items ++ tokens.now) }
{
    for token in tokens {
        out.push(copy_token(alloc, token)?)?;
    }
    Ok(())
}

/// The made name of a field of a variant, by the numbers of both.
pub(crate) fn made_name(alloc: Global, variant: usize, field: usize) -> Result<Name, AllocError>
    ensures { IfOk result (λ made. made ≡ made_name variant field) }
{
    let mut bytes = Vec::new(alloc);
    bytes.push(b'v')?;
    push_number(&mut bytes, variant as u64)?;
    bytes.push(b'f')?;
    push_number(&mut bytes, field as u64)?;
    Ok(Name::from_vec(bytes))
}
