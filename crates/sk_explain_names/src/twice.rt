//! Names that stand twice in one block.
use crate::declared::Declared;
use crate::pieces::bytes_of;
use sk_base::{Name, Span, push_number};
use sk_types_names::Numbers;
use std::alloc::{AllocError, Global};

/// The two places of a name.
#[derive(Drop, Clone, Copy)]
pub struct Twice {
    pub first: Span,
    pub second: Span,
}

// A name with the number of its block, as one word.
fn keyed(alloc: Global, text: &[u8], it: &Declared) -> Result<Name, AllocError> {
    let mut key = Vec::from_slice(alloc, bytes_of(text, it.name))?;
    key.push(b' ')?;
    push_number(&mut key, it.block as u64)?;
    Ok(Name::from_vec(key))
}

// The earlier one of the names with this key.
fn earlier(seen: &Numbers, found: &[Declared], key: &Name) -> Option<Span> {
    Some(found.get(seen.get(key)?)?.name)
}

/// The first name of these that stands in its block before.
pub fn first_twice(
    alloc: Global,
    text: &[u8],
    found: &[Declared],
) -> Result<Option<Twice>, AllocError> {
    let mut seen = Numbers::new(alloc);
    for (at, it) in found.iter().enumerate() {
        let key = keyed(alloc, text, it)?;
        if let Some(first) = earlier(&seen, found, &key) {
            return Ok(Some(Twice {
                first,
                second: it.name,
            }));
        }
        seen.put(&key, at)?;
    }
    Ok(None)
}
