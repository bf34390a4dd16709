//! Lists the sites of a program.
ghost use Rattle.std.specs.Prelude.{◌≡◌, ◌<◌, ◌≤◌, IfOk, IfErr, MatchResult, length};
ghost use Rattle.sk_model.specs.Limits.{most_sites};
ghost use Rattle.sk_model.specs.Sites.{funs_sites};
ghost use Rattle.sk_expand_sites.specs.Small.{AreSmall};
ghost use Rattle.sk_expand_sites.specs.Listed.{Lists, IsTooMany, IsTooManyOrMemory};

use crate::fault::SitesFault;
use crate::listed::Listed;
use crate::lister::push_stmts;
use sk_base::{Bounds, List};
use sk_model::Site;
use sk_prog::Fun;
use std::alloc::Global;

/// The sites of functions, one after another.
fn push_funs(bounds: &Bounds, out: &mut Listed, funs: &[Fun]) -> Result<(), SitesFault>
    ensures { Lists result out.old out.new (funs_sites bounds.now funs.now) }
{
    for f in funs {
        push_stmts(bounds, out, f.body.as_slice())?;
    }
    Ok(())
}

/// The sites of the functions of a program, at most 4,096, each of at most 2^32 values.
///
/// # Errors
///
/// `TooMany` where there are more.
pub fn sites_of(alloc: Global, bounds: &Bounds, funs: &[Fun]) -> Result<List<Site>, SitesFault>
    ensures found { IfOk result (λ found. found ≡ funs_sites bounds.now funs.now) }
    ensures few { IfOk result (λ found. length found ≤ most_sites) }
    ensures small { IfOk result AreSmall }
    ensures too_many { IfErr result (IsTooMany (funs_sites bounds.now funs.now)) }
    // Where there are more, that is the fault.
    ensures only { most_sites < length (funs_sites bounds.now funs.now) → MatchResult result (λ _. ⊥) IsTooManyOrMemory }
{
    let mut out = Listed::new(alloc);
    push_funs(bounds, &mut out, funs)?;
    Ok(out.into_list())
}
