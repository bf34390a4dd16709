//! The type that an expression has by itself.
ghost use Rattle.std.specs.Prelude.{◌≡◌};
ghost use Rattle.sk_types_rules.specs.Rules.{array_of, count_of};
ghost use Rattle.sk_types_rules.specs.Sorts.{named, member_of, struct_meant, reference_to, reference_meant, array_meant, slice_of, sliced, is_harness};
ghost use Rattle.sk_types_laws.specs.Envs.{meaning};
ghost use Rattle.sk_types_names.specs.Envs.{top_seen, context_of, IsEnv};
ghost use Rattle.sk_types_laws.specs.Owns.{own_type, callee_result};
ghost use Rattle.sk_types_laws.specs.Elaborate.{callee_meant};
ghost use Rattle.sk_types_laws.specs.Parts.{form_part, part};

use crate::env::Env;
use crate::scope::Scope;
use sk_base::{Name, at};
use sk_prog::{Elem, FunKind, StructId, Ty};
use sk_tree::{EForm, Expr};
use sk_types_laws::Meant;
use sk_types_rules::{
    Own, choice, element_of, number_own, operation_own, operator_of, unary_of, unary_own,
};

/// The type of a reference to a record of this struct.
pub fn reference_to(s: StructId) -> Ty
    ensures { result ≡ reference_to s }
{
    Ty::One(Elem::Reference(s))
}

/// The struct whose records an expression of this type refers to.
pub fn reference_meant(own: Own) -> Option<StructId>
    ensures { result ≡ reference_meant own }
{
    match own {
        Own::Firm(Ty::One(Elem::Reference(s))) => Some(s),
        _ => None,
    }
}

pub fn count_of(ty: Ty) -> u32
    ensures { result ≡ count_of ty }
{
    match ty {
        Ty::One(_) => 0,
        Ty::Array(_, n) => n,
        Ty::Grid(_, _, m) => m,
    }
}

fn array_of(ty: Ty, n: u32) -> Option<Ty>
    ensures { result ≡ array_of ty n }
{
    match ty {
        Ty::One(elem) => Some(Ty::Array(elem, n)),
        Ty::Array(elem, k) => Some(Ty::Grid(elem, k, n)),
        Ty::Grid(_, _, _) => None,
    }
}

/// The type of a slice of so many elements of an array.
pub fn sliced(ty: Ty, n: u32) -> Option<Ty>
    ensures { result ≡ sliced ty n }
{
    match element_of(ty) {
        None => None,
        Some(element) => {
            if 1 <= n && n <= count_of(ty) {
                array_of(element, n)
            } else {
                None
            }
        }
    }
}

/// The struct that a name means.
pub fn struct_meant(meant: Meant) -> Option<StructId>
    ensures { result ≡ struct_meant (meaning meant) }
{
    match meant {
        Meant::Struct(s) => Some(s),
        _ => None,
    }
}

fn array_meant(own: Own) -> Option<Ty>
    ensures { result ≡ array_meant own }
{
    match own {
        Own::Firm(ty) => element_of(ty),
        _ => None,
    }
}

fn slice_of(own: Own, n: Option<u32>) -> Option<Ty>
    ensures { result ≡ slice_of own n }
{
    match (own, n) {
        (Own::Firm(ty), Some(n)) => sliced(ty, n),
        _ => None,
    }
}

/// The own type of an expression that has this type, if any.
fn own_type(ty: Option<Ty>) -> Own
    ensures { result ≡ own_type ty }
{
    match ty {
        None => Own::Wrong,
        Some(ty) => Own::Firm(ty),
    }
}

fn named_own(meant: Meant) -> Own
    ensures { result ≡ (named (meaning meant)).own }
{
    match meant {
        Meant::Variable(place) => Own::Firm(place.ty),
        Meant::Constant(_) => Own::Firm(Ty::One(Elem::Int)),
        _ => Own::Wrong,
    }
}

/// Whether it is a harness, which is not called.
pub fn is_harness(kind: FunKind) -> bool
    ensures { result ≡ is_harness kind }
{
    match kind {
        FunKind::Harness => true,
        _ => false,
    }
}

impl Env<'_> {
    /// The type of a call of what a name means.
    #[tactic(auto, using(crate::proofs::Follows::get_signature))]
    fn call_type(&self, meant: Meant) -> Option<Ty>
        ensures { result ≡ callee_result (callee_meant (top_seen self.now.top.now) (meaning meant)) }
    {
        match meant {
            Meant::Function(f) => match at(self.top.funs.as_slice(), f.index as usize) {
                None => None,
                Some(heading) => {
                    if is_harness(heading.kind) {
                        None
                    } else {
                        heading.result
                    }
                }
            },
            _ => None,
        }
    }

    /// The type of a field of what is referred to.
    pub fn member_type(&self, s: Option<StructId>, name: &Name) -> Option<Ty>
        ensures { result ≡ member_of (top_seen self.now.top.now) s name.now }
    {
        match s {
            None => None,
            Some(s) => self.field_type(s, name),
        }
    }

    /// The type that an expression has by itself.
    #[cycle(own)]
    pub fn own(&self, scope: &Scope, e: &Expr) -> Own
        requires { IsEnv self.now }
        ensures { result ≡ (part (context_of self.now) scope.now e.now).own }
    {
        self.form_own(scope, &e.form)
    }

    #[cycle(own)]
    fn form_own(&self, scope: &Scope, form: &EForm) -> Own
        requires { IsEnv self.now }
        ensures { result ≡ (form_part (context_of self.now) scope.now form.now).own }
    {
        match form {
            EForm::Number(n) => number_own(*n),
            EForm::True | EForm::False => Own::Firm(Ty::One(Elem::Bit)),
            EForm::Null
            | EForm::Hole(_)
            | EForm::Pattern {
                pattern: _,
                strings: _,
            }
            | EForm::Braces(_) => Own::Loose,
            EForm::Word(name) => named_own(self.meaning(scope, name)),
            EForm::Paren(of) => self.own(scope, of.get()),
            EForm::Call { name, args: _ } => { own_type(self.call_type(self.meaning(scope, name))) }
            EForm::New { name, fields: _ } => match struct_meant(self.meaning(scope, name)) {
                None => Own::Wrong,
                Some(s) => Own::Firm(reference_to(s)),
            },
            EForm::Member { base, name } => {
                let base = self.own(scope, base.get());
                own_type(self.member_type(reference_meant(base), name))
            }
            EForm::Index { base, index: _ } => {
                own_type(array_meant(self.own(scope, base.get())))
            }
            EForm::Slice {
                base,
                from: _,
                length,
            } => {
                let base = self.own(scope, base.get());
                own_type(slice_of(base, self.constant_number(scope, length.get())))
            }
            EForm::Unary { op, of } => match unary_of(*op) {
                None => Own::Wrong,
                Some(op) => unary_own(op, self.own(scope, of.get())),
            },
            EForm::Binary { op, left, right } => match operator_of(*op) {
                None => Own::Wrong,
                Some(op) => {
                    let left = self.own(scope, left.get());
                    let right = self.own(scope, right.get());
                    operation_own(op, left, right)
                }
            },
            EForm::Cond {
                cond: _,
                then,
                other,
            } => {
                let then = self.own(scope, then.get());
                let other = self.own(scope, other.get());
                choice(then, other)
            }
        }
    }
}
