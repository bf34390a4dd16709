//! The sites that are listed so far.
ghost use Rattle.std.specs.Prelude.{◌≡◌, ◌≤◌, ◌^◌, ◌++◌, ◌∷◌, [], length, replicate, ◌-◌};
ghost use Rattle.sk_model.specs.Limits.{most_sites};
ghost use Rattle.sk_model.specs.Sites.{site, places, hole_sites, repeat_sites};
ghost use Rattle.sk_expand_sites.specs.Small.{AreSmall};
ghost use Rattle.sk_expand_sites.specs.Listed.{Lists};

use crate::fault::SitesFault;
use crate::sizes::{hole_bits, values_of};
use sk_base::{Bounds, List, Span};
use sk_model::Site;
use sk_prog::{Elem, PEForm, PExpr, PStmt, Ty};
use std::alloc::Global;
use std::marker::Model;

/// How many sites a program may have.
const MOST_SITES: usize = 4096;

/// The sites that are listed so far: at most 4,096, of at most 2^32 values each.
#[derive(Drop)]
pub struct Listed {
    sites: Vec<Site>,
}

impl Model for Listed {
    ghost use Rattle.std.specs.Prelude.{List, length, ◌≤◌};
    ghost use Rattle.sk_model.specs.declared.expanded.Site.{Site};
    ghost use Rattle.sk_expand_sites.specs.Small.{AreSmall};

    ghost Value = { List Site };

    ghost view = { λ l. l.sites.items };

    ghost invariant = { λ l. (length l.sites.items ≤ 4096) × AreSmall l.sites.items };
}

impl Listed {
    pub fn new(alloc: Global) -> Listed
        ensures { result ≡ [] }
    {
        Listed {
            sites: Vec::new(alloc),
        }
    }

    /// One site more.
    pub fn push(&mut self, size: u64, span: Span) -> Result<(), SitesFault>
        ensures { Lists result self.old self.new (site size span ∷ []) }
    {
        if self.sites.len() >= MOST_SITES {
            return Err(SitesFault::TooMany);
        }
        if size > 4_294_967_296 {
            return Err(SitesFault::Memory);
        }
        self.sites.push(Site { size, span })?;
        Ok(())
    }

    /// So many sites of two values.
    #[tactic(auto, using(crate::proofs::SiteLaws::bits_listed))]
    pub fn push_bits(&mut self, count: u32, span: Span) -> Result<(), SitesFault>
        ensures { Lists result self.old self.new (replicate count (site 2 span)) }
    {
        for _ in 0..count {
            self.push(2, span)?;
        }
        Ok(())
    }

    /// The sites of a reorder of these statements, each with one value more than the one before it.
    #[tactic(auto, using(crate::proofs::SiteLaws::places_listed))]
    pub fn push_places(&mut self, ss: &[PStmt], span: Span) -> Result<(), SitesFault>
        ensures { Lists result self.old self.new (places 2 (length ss.now - 1) span) }
    {
        let count = ss.len().saturating_sub(1);
        for k in 0..count {
            self.push((k + 2) as u64, span)?;
        }
        Ok(())
    }

    /// The sites of a hole.
    pub fn push_hole(
        &mut self,
        bounds: &Bounds,
        width: Option<u32>,
        ty: Option<Ty>,
        span: Span,
    ) -> Result<(), SitesFault>
        ensures { Lists result self.old self.new (hole_sites bounds.now width ty span) }
    {
        match ty {
            Some(Ty::One(Elem::Bit)) => {
                self.push(2, span)?;
                Ok(())
            }
            Some(Ty::Array(Elem::Bit, count)) => {
                self.push_bits(count, span)?;
                Ok(())
            }
            _ => {
                let bits = hole_bits(bounds, width);
                let Some(size) = values_of(bits) else {
                    return Err(SitesFault::Memory);
                };
                self.push(size, span)?;
                Ok(())
            }
        }
    }

    /// The site of a repeat with this count, which a hole has and a constant has not.
    pub fn push_repeat(
        &mut self,
        count: &PExpr,
        copies: &[PStmt],
        span: Span,
    ) -> Result<(), SitesFault>
        ensures { Lists result self.old self.new (repeat_sites count.now (length copies.now) span) }
    {
        match &count.form {
            PEForm::Hole(_) => {
                self.push(copies.len() as u64 + 1, span)?;
                Ok(())
            }
            _ => Ok(()),
        }
    }

    /// All of them.
    pub fn into_list(self) -> List<Site>
        ensures all { result ≡ self }
        ensures few { length result ≤ most_sites }
        ensures small { AreSmall result }
    {
        List::from_vec(self.sites)
    }
}
