ghost use Rattle.std.specs.Prelude.{◌≡◌};
ghost use Rattle.sk_adt_tags.specs.declared.fault.TagFault.TheVariants as fault;

use sk_base::Span;
use std::alloc::AllocError;
use thiserror::Error;

/// Why a program is not tagged.
#[derive(Debug, Drop, Clone, Copy, PartialEq, Eq, Error)]
pub enum TagFault {
    /// What stands on this span uses a tag or a field of a variant otherwise than `switch` and `new V` do.
    #[error("the expression from byte {} to {} breaks a rule of tags", span.from, span.to)]
    NotTagged { span: Span },
    /// Memory is wanting.
    #[error("not enough memory")]
    Memory,
}

impl From<AllocError> for TagFault {
    ghost from_gives = { λ _ e. e ≡ fault.Memory };

    fn from(_e: AllocError) -> TagFault {
        TagFault::Memory
    }
}
