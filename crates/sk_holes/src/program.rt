//! Fills functions and whole programs.
ghost use Rattle.std.specs.Prelude.{◌≡◌, ◌+◌, ◌≤◌, ◌++◌, ◌∷◌, [], ℕ, ◌≢◌, IsTrue, IfOk, IfErr, OnOk, MatchResult, length, map, if◌then◌else◌};
ghost use Rattle.sk_base.specs.declared.bounds.Bounds.{Bounds};
ghost use Rattle.sk_model.specs.Parts.{total};
ghost use Rattle.sk_model.specs.Sites.{sites};
ghost use Rattle.sk_model.specs.Fill.{InRange, before_body, fill, fill_fun, fill_funs};
ghost use Rattle.sk_holes.specs.Filling.{Reaches, number, stmts};
ghost use Rattle.sk_holes_standing.specs.Functions.{minimize_paid, sites_in};
ghost use Rattle.sk_holes.specs.Whole.{filled_by};
ghost use Rattle.sk_expand_sites.specs.Needs.{HasItsSites, are_narrow};
ghost use Rattle.sk_holes.specs.Range.{are_numbers, IsRefused, IsFirstOut, IsWrongLengthOrMemory, IsOutOrMemory};

use crate::fault::FillFault;
use crate::filler::Filler;
use crate::range::test_range;
use sk_base::List;
use sk_expand_copies::{
    copy_consts, copy_name, copy_params, copy_structs, number_functions, slots_needed,
};
use sk_holes_standing::{Paid, Stood, Walker, what_stands};
use sk_model::{Choice, Expanded};
use sk_prog::{Elem, Fun, FunKind, PEForm, PExpr, PForm, PStmt, Prog, Ty};
use std::alloc::{AllocError, Global};

/// `minimize(v);` for a minrepeat that pays v.
fn minimize_paid(paid: Paid) -> PStmt
    ensures { result ≡ minimize_paid paid }
{
    let e = PExpr {
        span: paid.span,
        ty: Some(Ty::One(Elem::Int)),
        form: PEForm::Number(paid.amount),
    };
    PStmt {
        span: paid.span,
        form: PForm::Minimize(e),
    }
}

fn minimize_all(alloc: Global, paid: &[Paid]) -> Result<Vec<PStmt>, AllocError>
    ensures { IfOk result (λ x. x.items ≡ map minimize_paid paid.now) }
{
    let mut all = Vec::new(alloc);
    for p in paid {
        all.push(minimize_paid(*p))?;
    }
    Ok(all)
}

/// What stands at the start of the body of a function of this kind.
fn start(alloc: Global, kind: FunKind, paid: &[Paid]) -> Result<Vec<PStmt>, AllocError>
    ensures { IfOk result (λ x. x.items ≡ before_body kind (map minimize_paid paid.now)) }
{
    match kind {
        FunKind::Harness => {
            let all = minimize_all(alloc, paid)?;
            Ok(all)
        }
        FunKind::Plain => Ok(Vec::new(alloc)),
        FunKind::Generator => Ok(Vec::new(alloc)),
    }
}

impl Filler<'_> {
    /// The body of a function whose first site has the place.
    fn body(&self, at: &mut usize, f: &Fun, paid: &[Paid]) -> Result<Vec<PStmt>, AllocError>
        requires { Reaches self.now at.old ((stmts self.now f.now.body).count) }
        ensures filled { IfOk result (λ x. x.items ≡ before_body f.now.kind (map minimize_paid paid.now) ++ (stmts self.now f.now.body).at at.old) }
        ensures at { OnOk result (at.new ≡ at.old + ((stmts self.now f.now.body).count)) }
    {
        let mut body = start(self.alloc, f.kind, paid)?;
        let mut rest = self.stmts(at, f.body.as_slice())?;
        body.append(&mut rest)?;
        Ok(body)
    }

    /// A function that stands, whose first site has the place.
    fn fun(&self, at: &mut usize, f: &Fun, paid: &[Paid]) -> Result<Fun, AllocError>
        requires { Reaches self.now at.old ((stmts self.now f.now.body).count) }
        ensures filled { IfOk result (λ x. x ≡ fill_fun self.now.values.now (number self.now) (map minimize_paid paid.now) f.now at.old) }
        ensures at { OnOk result (at.new ≡ at.old + ((stmts self.now f.now.body).count)) }
    {
        let body = self.body(at, f, paid)?;
        let slots = slots_needed(f.params.len(), body.as_slice())?;
        let name = copy_name(self.alloc, &f.name)?;
        let params = copy_params(self.alloc, f.params.as_slice())?;
        Ok(Fun {
            name,
            kind: f.kind,
            result: f.result,
            params,
            slots,
            implements: f.implements,
            body: List::from_vec(body),
        })
    }

    /// Adds a function of so many sites, whose first site has the place, if it stands.
    fn add(
        &self,
        at: &mut usize,
        filled: &mut Vec<Fun>,
        stands: bool,
        count: usize,
        f: &Fun,
        paid: &[Paid],
    ) -> Result<(), AllocError>
        requires count { count ≡ (stmts self.now f.now.body).count }
        requires reaches { Reaches self.now at.old count }
        ensures filled { OnOk result (filled.new.items ≡ filled.old.items ++ (if stands then fill_fun self.now.values.now (number self.now) (map minimize_paid paid.now) f.now at.old ∷ [] else [])) }
        ensures at { OnOk result (at.new ≡ at.old + count) }
    {
        if stands {
            let f = self.fun(at, f, paid)?;
            filled.push(f)?;
            return Ok(());
        }
        *at += count;
        Ok(())
    }

    /// The functions that stand, filled.
    #[tactic(auto, using(crate::proofs::ProgramLaws::functions))]
    fn funs(&self, stood: &Stood, paid: &[Paid], funs: &[Fun]) -> Result<Vec<Fun>, AllocError>
        requires stands { length stood.now.stands.items ≡ length funs.now }
        requires counts { stood.now.counts.items ≡ map (sites_in self.now.values.now) funs.now }
        requires reaches { total stood.now.counts.items ≤ length self.now.values.now }
        ensures { IfOk result (λ x. x.items ≡ fill_funs self.now.values.now (number self.now) (map minimize_paid paid.now) stood.now.stands.items funs.now 0) }
    {
        let mut filled = Vec::new(self.alloc);
        let mut at = 0;
        for (n, f) in funs.iter().enumerate() {
            self.add(
                &mut at,
                &mut filled,
                stood.stands[n],
                stood.counts[n],
                f,
                paid,
            )?;
        }
        Ok(filled)
    }
}

/// The values of a choice as numbers of a program.
fn numbers(alloc: Global, values: &[u64]) -> Result<Vec<u32>, AllocError>
    requires { IsTrue (are_numbers values.now) }
    ensures { IfOk result (λ xs. xs.items ≡ values.now) }
{
    let mut numbers = Vec::with_capacity(alloc, values.len())?;
    for value in values {
        numbers.push(*value as u32)?;
    }
    Ok(numbers)
}

/// The functions of an expanded program that stand under these values, filled.
#[tactic(auto, using(crate::proofs::ProgramLaws::filled_functions))]
fn filled_funs(
    alloc: Global,
    values: &[u32],
    ordinary: u32,
    funs: &[Fun],
) -> Result<List<Fun>, AllocError>
    requires { total (map (sites_in values.now) funs.now) ≤ length values.now }
    ensures { IfOk result (λ x. x ≡ filled_by values.now ordinary funs.now) }
{
    let walker = Walker { values };
    let stood = what_stands(alloc, &walker, ordinary, funs)?;
    let ranks = number_functions(alloc, stood.stands.as_slice())?;
    let filler = Filler {
        alloc,
        values,
        table: ranks.table.as_slice(),
        last: ranks.last,
    };
    let filled = filler.funs(&stood, stood.met.paid(), funs)?;
    Ok(List::from_vec(filled))
}

/// The functions of an expanded program that stand under a choice, filled.
#[tactic(auto, using(crate::proofs::ProgramLaws::chosen))]
fn chosen_funs(alloc: Global, expanded: &Expanded, choice: &Choice) -> Result<List<Fun>, AllocError>
    requires sites { HasItsSites expanded.now }
    requires narrow { IsTrue (are_narrow expanded.now.sites) }
    requires range { InRange expanded.now choice.now }
    ensures { IfOk result (λ x. x ≡ filled_by choice.now.values expanded.now.ordinary expanded.now.prog.funs) }
{
    let values = numbers(alloc, choice.values.as_slice())?;
    let funs = expanded.prog.funs.as_slice();
    let filled = filled_funs(alloc, values.as_slice(), expanded.ordinary, funs)?;
    Ok(filled)
}

/// The program that an expanded program becomes under a choice, with its copies of what stays as it is.
#[tactic(auto, using(crate::proofs::ProgramLaws::filling))]
fn filled(alloc: Global, expanded: &Expanded, choice: &Choice) -> Result<Prog, FillFault>
    requires sites { HasItsSites expanded.now }
    requires narrow { IsTrue (are_narrow expanded.now.sites) }
    requires few { length expanded.now.sites ≤ 4294967296 }
    ensures found { IfOk result (λ p. p ≡ fill expanded.now choice.now) }
    ensures range { IfOk result (λ p. InRange expanded.now choice.now) }
    ensures refused { IfErr result (λ fault. IsRefused fault expanded.now choice.now) }
{
    test_range(expanded, choice)?;
    let prog = &expanded.prog;
    let funs = chosen_funs(alloc, expanded, choice)?;
    let structs = copy_structs(alloc, prog.structs.as_slice())?;
    let consts = copy_consts(alloc, prog.consts.as_slice())?;
    Ok(Prog {
        structs,
        consts,
        funs,
    })
}

/// The program that an expanded program becomes under a choice: every site is filled, and copies of
/// generators that do not stand are left out.
///
/// # Errors
///
/// `WrongLength` where the choice has not one value for each site, and `OutOfRange` with the first site
/// whose value is not below its size.
#[tactic(auto, using(crate::proofs::ProgramLaws::told))]
pub fn fill(alloc: Global, expanded: &Expanded, choice: &Choice) -> Result<Prog, FillFault>
    requires sites { HasItsSites expanded.now }
    requires narrow { IsTrue (are_narrow expanded.now.sites) }
    requires few { length expanded.now.sites ≤ 4294967296 }
    ensures found { IfOk result (λ p. p ≡ fill expanded.now choice.now) }
    ensures range { IfOk result (λ p. InRange expanded.now choice.now) }
    ensures closed { IfOk result (λ p. (bounds : Bounds) → sites bounds p ≡ []) }
    ensures refused { IfErr result (λ fault. IsRefused fault expanded.now choice.now) }
    // Where a choice is out of range, that is the fault.
    ensures wrong_length { length choice.now.values ≢ length expanded.now.sites → MatchResult result (λ _. ⊥) IsWrongLengthOrMemory }
    ensures out_of_range { (site : ℕ) → IsFirstOut expanded.now choice.now site → MatchResult result (λ _. ⊥) (IsOutOrMemory site) }
{
    match filled(alloc, expanded, choice) {
        Ok(prog) => Ok(prog),
        Err(fault) => Err(fault),
    }
}
