//! The new numbers of functions where some are left out.
ghost use Rattle.std.specs.Prelude.{◌≡◌, ◌+◌, IfOk};
ghost use Rattle.sk_model.specs.Parts.{one_if};
ghost use Rattle.sk_expand_copies.specs.Ranks.{ranks_from, count_true};

use sk_limits::behind;
use std::alloc::{AllocError, Global};

/// The new number of each function, and the number of those that stand.
#[derive(Drop)]
pub struct Ranks {
    pub table: Vec<u32>,
    pub last: u32,
}

/// The next number after that of a function, if it stands. No memory holds so many functions that they
/// cannot be numbered.
fn after(number: u32, stands: bool) -> Result<u32, AllocError>
    ensures { IfOk result (λ next. next ≡ number + one_if stands) }
{
    if !stands {
        return Ok(number);
    }
    let next = behind(number)?;
    Ok(next)
}

/// The new numbers of functions, given which of them stand.
pub fn number_functions(alloc: Global, stands: &[bool]) -> Result<Ranks, AllocError>
    ensures table { IfOk result (λ r. r.table.items ≡ ranks_from 0 stands.now) }
    ensures last { IfOk result (λ r. r.last ≡ count_true stands.now) }
{
    let mut table = Vec::new(alloc);
    let mut last = 0u32;
    for stand in stands {
        table.push(last)?;
        last = after(last, *stand)?;
    }
    Ok(Ranks { table, last })
}
