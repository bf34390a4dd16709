//! The expansion of a whole program.
ghost use Rattle.std.specs.Prelude.{◌≡◌, ◌<◌, ◌≤◌, [], IfOk, IfErr, MatchResult, length};
ghost use Rattle.sk_model.specs.Limits.{most_nodes, most_sites};
ghost use Rattle.sk_model.specs.Nodes.{nodes, funs_nodes};
ghost use Rattle.sk_model.specs.Sites.{sites};
ghost use Rattle.sk_model.specs.Expand.{as_walk, are_ordinary, renumbered, walked, walk_stmts, walk_funs, first_calls, expand_prog, ordinary_count, expand};
ghost use Rattle.sk_expand.specs.Made.{Gives, GivesList};
ghost use Rattle.sk_expand.specs.Nodes.{fun_nodes};
ghost use Rattle.sk_expand.specs.Walking.{HasNumbers};
ghost use Rattle.sk_expand.specs.Whole.{IsFunctions, IsWhole, HasCause, TooManyNodes, TooManySites, IsOrMemory};
ghost use Rattle.sk_expand_sizes.specs.declared.fault.SizeFault.TheVariants.{Copies, Sites};
ghost use Rattle.sk_expand_copies.specs.Ranks.{ranks_from};
ghost use Rattle.sk_expand_sites.specs.Small.{AreSmall};

use crate::building::Building;
use crate::copies::{is_generator, ordinary};
use crate::counting::take_consts;
use crate::stop::Stop;
use crate::walker::Walker;
use sk_base::{Bounds, List};
use sk_expand_copies::{copy_consts, copy_structs, number_functions};
use sk_expand_sites::{SitesFault, sites_of};
use sk_expand_sizes::SizeFault;
use sk_model::Expanded;
use sk_prog::{Fun, FunId, Prog};
use std::alloc::{AllocError, Global};

/// How many nodes an expansion may have.
const MOST_NODES: usize = 262_144;

/// How deep statements and expressions may nest, over all copies that are walked one inside another. An expansion that needs
/// more ends as by want of memory, before its stack does.
const MOST_LEVELS: u32 = 768;

/// The program of an expansion, and how many of its functions are ordinary.
#[derive(Drop)]
struct Whole {
    prog: Prog,
    ordinary: u32,
}

/// For each function whether it is ordinary.
fn are_ordinary(alloc: Global, funs: &[Fun]) -> Result<Vec<bool>, AllocError>
    ensures { IfOk result (λ are. are.items ≡ are_ordinary funs.now) }
{
    let mut are = Vec::new(alloc);
    for f in funs {
        are.push(!is_generator(f.kind))?;
    }
    Ok(are)
}

impl Walker<'_> {
    /// The new number of the function that one implements.
    fn implemented(&self, implements: Option<FunId>) -> Option<FunId>
        requires numbers { HasNumbers self.now }
        ensures { result ≡ renumbered self.now.bounds self.now.funs.now implements }
    {
        match implements {
            Some(g) => Some(FunId {
                index: self.renumbered(g.index),
            }),
            None => None,
        }
    }

    /// What an ordinary function becomes.
    #[tactic(auto, using(crate::proofs::Whole::first))]
    fn function(&self, made: &mut Building, fun: &Fun) -> Result<Fun, Stop>
        requires numbers { HasNumbers self.now }
        requires first { self.now.active.now ≡ [] }
        ensures { Gives fun_nodes result made.old made.new (as_walk (walked self.now.bounds self.now.funs.now fun.now) (walk_stmts self.now.bounds (first_calls self.now.bounds self.now.funs.now) fun.now.body) (length made.old.copies)) }
    {
        let body = self.stmts(MOST_LEVELS, made, fun.body.as_slice())?;
        let implements = self.implemented(fun.implements);
        let fun = ordinary(self.alloc, fun, implements, body)?;
        Ok(fun)
    }

    /// What the ordinary functions become, in order.
    #[tactic(auto, using(crate::proofs::NodeLaws::funs_append))]
    fn functions(&self, made: &mut Building) -> Result<Vec<Fun>, Stop>
        requires numbers { HasNumbers self.now }
        requires first { self.now.active.now ≡ [] }
        ensures { GivesList funs_nodes result made.old made.new (walk_funs self.now.bounds self.now.funs.now self.now.funs.now (length made.old.copies)) }
    {
        let mut all = Vec::new(self.alloc);
        for f in self.funs {
            if is_generator(f.kind) {
                continue;
            }
            let fun = self.function(made, f)?;
            all.push(fun)?;
        }
        Ok(all)
    }
}

/// The functions of an expansion.
#[tactic(auto, using(crate::proofs::Whole::wholes))]
fn all_functions(
    alloc: Global,
    prog: &Prog,
    bounds: &Bounds,
    table: &[u32],
    ordinary: u32,
) -> Result<List<Fun>, Stop>
    requires table { table.now ≡ ranks_from 0 (are_ordinary prog.now.funs) }
    requires ordinary { ordinary ≡ ordinary_count prog.now.funs }
    ensures { IsFunctions result prog.now bounds.now }
{
    let walker = Walker {
        alloc,
        bounds: *bounds,
        funs: prog.funs.as_slice(),
        table,
        ordinary,
        active: &[],
    };
    let mut made = Building::new(alloc, MOST_NODES);
    take_consts(&mut made, prog.consts.as_slice())?;
    let funs = walker.functions(&mut made)?;
    let funs = made.behind(funs)?;
    Ok(funs)
}

/// The program of an expansion.
#[tactic(auto, using(crate::proofs::Numbers::counted))]
fn expanded_program(alloc: Global, prog: &Prog, bounds: &Bounds) -> Result<Whole, Stop>
    ensures { IsWhole result prog.now bounds.now }
{
    let are = are_ordinary(alloc, prog.funs.as_slice())?;
    let numbers = number_functions(alloc, are.as_slice())?;
    let funs = all_functions(alloc, prog, bounds, numbers.table.as_slice(), numbers.last)?;
    let structs = copy_structs(alloc, prog.structs.as_slice())?;
    let consts = copy_consts(alloc, prog.consts.as_slice())?;
    let prog = Prog {
        structs,
        consts,
        funs,
    };
    Ok(Whole {
        prog,
        ordinary: numbers.last,
    })
}

/// The expansion of a program, with its sites. It has at most 262,144 nodes, and at most 4,096 sites, each of at most 2^32
/// values.
///
/// # Errors
///
/// `Copies` where it has more nodes, and otherwise `Sites` where it has more sites. `Memory` where memory is wanting, where
/// statements and expressions nest too deep over all copies that are walked one inside another, and where a hole
/// has more than 32 bits, as none of a typed program has.
#[tactic(auto, unfolding(sk_model::specs::Expand::expand))]
pub fn expand(alloc: Global, prog: &Prog, bounds: &Bounds) -> Result<Expanded, SizeFault>
    ensures found { IfOk result (λ e. e ≡ expand prog.now bounds.now) }
    ensures nodes { IfOk result (λ e. nodes e.prog ≤ most_nodes) }
    ensures sites { IfOk result (λ e. length e.sites ≤ most_sites) }
    ensures small { IfOk result (λ e. AreSmall e.sites) }
    // A fault has its cause, and is neither `Steps` nor `News`.
    ensures cause { IfErr result (HasCause prog.now bounds.now) }
    // Where there are too many nodes, that is the fault; where there are not, and too many sites, it is that.
    ensures copies { TooManyNodes prog.now bounds.now → MatchResult result (λ _. ⊥) (IsOrMemory Copies) }
    ensures only_sites { TooManySites prog.now bounds.now → MatchResult result (λ _. ⊥) (IsOrMemory Sites) }
{
    let whole = match expanded_program(alloc, prog, bounds) {
        Ok(whole) => whole,
        Err(Stop::TooLarge) => return Err(SizeFault::Copies),
        Err(Stop::NoMemory) => return Err(SizeFault::Memory),
    };
    let sites = match sites_of(alloc, bounds, whole.prog.funs.as_slice()) {
        Ok(sites) => sites,
        Err(SitesFault::TooMany) => return Err(SizeFault::Sites),
        Err(SitesFault::Memory) => return Err(SizeFault::Memory),
    };
    Ok(Expanded {
        prog: whole.prog,
        ordinary: whole.ordinary,
        sites,
    })
}
