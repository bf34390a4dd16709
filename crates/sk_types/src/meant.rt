//! The program that a tree means.
ghost use Rattle.std.specs.Prelude.{◌≡◌, not, ◌&&◌, ◌||◌, IsTrue, IfOk, IfErr, MatchResult};
ghost use Rattle.std.specs.List.{list_any, list_all};
ghost use Rattle.sk_tree.specs.Names.{all_names};
ghost use Rattle.sk_prog.specs.Fits.{is_name, prog_fits};
ghost use Rattle.sk_prog.specs.declared.prog.Fun.{Fun};
ghost use Rattle.sk_prog.specs.declared.prog.ParamDef.{ParamDef};
ghost use Rattle.sk_prog.specs.declared.prog.FieldDef.{FieldDef};
ghost use Rattle.sk_types_rules.specs.Types.{Types, is_generator, is_free, fun_free, struct_free, names_free, has_generator};
ghost use Rattle.sk_types_laws.specs.Whole.{prog_in, items_of, prog_of};
ghost use Rattle.sk_types_names.specs.Envs.{top_seen, IsNumbered};
ghost use Rattle.sk_types_names.specs.Gives.{Gives, IsWidth, IsMemory};
ghost use Rattle.sk_types.specs.Tops.{prog_named, IsFault};
ghost use Rattle.sk_types.specs.Places.{IsPlaced};

use crate::bodies::{Whole, bodies_of};
use crate::items::typed_top;
use crate::names::{are_distinct, is_numbered, named_top};
use crate::place::placed;
use crate::signature::{NOWHERE, is_generator};
use crate::steps::step_fault;
use sk_base::{Bounds, List};
use sk_prog::{ConstDef, FieldDef, Fun, ParamDef, Prog, StructDef};
use sk_tree::{Item, Tree};
use sk_types_laws::{Rule, Typing};
use sk_types_names::{Listed, Names, StructTable, fault};
use sk_types_plain::{plain, unsteady_step};
use sk_types_stmts::{body_free, is_free};
use std::alloc::{AllocError, Global};

#[tactic(auto, using(sk_types_names::proofs::Places::split_at))]
fn has_generator(funs: &[Fun]) -> bool
    ensures { result ≡ list_any (λ (f : Fun). is_generator f.kind) funs.now }
{
    for fun in funs {
        if is_generator(fun.kind) {
            return true;
        }
    }
    false
}

#[tactic(auto, using(sk_types_names::proofs::Places::split_at))]
fn params_free(params: &[ParamDef]) -> bool
    ensures { result ≡ list_all (λ (d : ParamDef). is_free d.name) params.now }
{
    for param in params {
        if !is_free(&param.name) {
            return false;
        }
    }
    true
}

#[tactic(auto, using(sk_types_names::proofs::Places::split_at))]
fn fields_free(fields: &[FieldDef]) -> bool
    ensures { result ≡ list_all (λ (y : FieldDef). is_free y.name) fields.now }
{
    for field in fields {
        if !is_free(&field.name) {
            return false;
        }
    }
    true
}

fn fun_free(fun: &Fun) -> bool
    ensures { result ≡ (is_free fun.now.name && fun_free fun.now) }
{
    is_free(&fun.name) && (params_free(fun.params.as_slice()) && body_free(fun.body.as_slice()))
}

fn struct_free(def: &StructDef) -> bool
    ensures { result ≡ (is_free def.now.name && struct_free def.now) }
{
    is_free(&def.name) && fields_free(def.fields.as_slice())
}

#[tactic(auto, using(sk_types_names::proofs::Places::split_at))]
fn structs_free(defs: &[StructDef]) -> bool
    ensures { result ≡ list_all (λ (d : StructDef). is_free d.name && struct_free d) defs.now }
{
    for def in defs {
        if !struct_free(def) {
            return false;
        }
    }
    true
}

#[tactic(auto, using(sk_types_names::proofs::Places::split_at))]
fn consts_free(consts: &[ConstDef]) -> bool
    ensures { result ≡ list_all (λ (c : ConstDef). is_free c.name) consts.now }
{
    for def in consts {
        if !is_free(&def.name) {
            return false;
        }
    }
    true
}

#[tactic(auto, using(sk_types_names::proofs::Places::split_at))]
fn funs_free(funs: &[Fun]) -> bool
    ensures { result ≡ list_all (λ (f : Fun). is_free f.name && fun_free f) funs.now }
{
    for fun in funs {
        if !fun_free(fun) {
            return false;
        }
    }
    true
}

/// Whether no name that is declared ends as those of copies do.
#[tactic(auto, using(crate::proofs::FreeLaws::free_by_rows))]
fn names_free(prog: &Prog) -> bool
    ensures { result ≡ names_free prog.now }
{
    structs_free(prog.structs.as_slice())
        && (consts_free(prog.consts.as_slice()) && funs_free(prog.funs.as_slice()))
}

/// Whether names may end as those of copies do, which they may where no function is a generator, or none does.
fn may_keep_names(prog: &Prog) -> bool
    ensures { result ≡ (not (has_generator prog.now) || names_free prog.now) }
{
    !has_generator(prog.funs.as_slice()) || names_free(prog)
}

/// The structs as they stand in a program.
#[tactic(auto, using(crate::proofs::TopLaws::defs))]
fn struct_defs(alloc: Global, tables: Listed<StructTable>) -> Result<List<StructDef>, AllocError>
    ensures { IfOk result (λ defs. defs ≡ tables) }
{
    let mut defs = List::new(alloc);
    for table in tables.into_vec() {
        defs.push(table.into_def())?;
    }
    Ok(defs)
}

/// The program of these items, where these names stand at the top.
fn prog_in(alloc: Global, bounds: &Bounds, top: Names, items: &[Item]) -> Result<Prog, Typing>
    requires { IsWidth bounds.now }
    ensures { Gives result (prog_in bounds.now (top_seen top) items.now) }
{
    if !is_numbered(&top) {
        return Err(Typing::Memory);
    }
    let whole = bodies_of(alloc, bounds, &top, items)?;
    let Whole {
        consts,
        funs,
        known: _,
    } = whole;
    let Names {
        structs,
        consts: _,
        funs: _,
    } = top;
    let structs = struct_defs(alloc, structs)?;
    let prog = Prog {
        structs,
        consts,
        funs,
    };
    if !may_keep_names(&prog) {
        return Err(fault(Rule::NameKept, NOWHERE));
    }
    Ok(prog)
}

/// The program of these items, where these are the names at the top.
fn prog_named(alloc: Global, bounds: &Bounds, names: &Names, items: &[Item]) -> Result<Prog, Typing>
    requires width { IsWidth bounds.now }
    requires numbered { IsNumbered names.now }
    ensures { Gives result (prog_named bounds.now (top_seen names.now) items.now) }
{
    let top = typed_top(alloc, bounds, names, items)?;
    let prog = prog_in(alloc, bounds, top, items)?;
    Ok(prog)
}

/// The program of plain items.
fn items_of(alloc: Global, bounds: &Bounds, items: &[Item]) -> Result<Prog, Typing>
    requires { IsWidth bounds.now }
    ensures { Gives result (items_of bounds.now items.now) }
{
    let names = named_top(alloc, items)?;
    let distinct = are_distinct(alloc, &names)?;
    if !distinct {
        return Err(fault(Rule::Twice, NOWHERE));
    }
    if !is_numbered(&names) {
        return Err(Typing::Memory);
    }
    let prog = prog_named(alloc, bounds, &names, items)?;
    Ok(prog)
}

/// The program that a tree becomes, as the definition computes it.
fn prog_of(alloc: Global, tree: &Tree, bounds: &Bounds) -> Result<Prog, Typing>
    requires { IsWidth bounds.now }
    ensures { Gives result (prog_of bounds.now tree.now) }
{
    match unsteady_step(tree) {
        Some(target) => Err(step_fault(alloc, tree, bounds, target)),
        None => {
            let plain = plain(alloc, tree)?;
            let prog = items_of(alloc, bounds, plain.items.as_slice())?;
            Ok(prog)
        }
    }
}

/// The same, with the place of a fault where that stands in the tree.
fn prog_placed(alloc: Global, tree: &Tree, bounds: &Bounds) -> Result<Prog, Typing>
    requires { IsWidth bounds.now }
    ensures gives { Gives result (prog_of bounds.now tree.now) }
    ensures place { IfErr result (λ why. IsPlaced tree.now why) }
{
    match prog_of(alloc, tree, bounds) {
        Ok(prog) => Ok(prog),
        Err(why) => Err(placed(tree, why)),
    }
}

/// The program that a tree means. Where the names of the tree are words and no keywords, as those of a tree that is
/// read are, the program is well-formed: its numbers name what is there. A fault names the rule that is broken, and a span of the tree at which it is, or 0
/// to 0 where what breaks it has none.
pub fn check(alloc: Global, tree: &Tree, bounds: &Bounds) -> Result<Prog, Typing>
    requires { IsWidth bounds.now }
    ensures found { IfOk result (λ prog. Types tree.now bounds.now prog) }
    ensures only { (prog : Prog) → Types tree.now bounds.now prog → MatchResult result (λ made. made ≡ prog) IsMemory }
    ensures fault { IfErr result (λ why. IsFault why → (prog : Prog) → Types tree.now bounds.now prog → ⊥) }
    ensures place { IfErr result (λ why. IsPlaced tree.now why) }
    ensures fits { IfOk result (λ prog. IsTrue (all_names is_name tree.now) → IsTrue (prog_fits prog)) }
{
    let meant = prog_placed(alloc, tree, bounds)?;
    Ok(meant)
}
