//! The numbers of constant expressions.
ghost use Rattle.std.specs.Prelude.{◌≡◌, map, pos, ◌+ℤ◌, ◌-ℤ◌, ◌*ℤ◌};
ghost use Rattle.sk_types_rules.specs.Rules.{only_if, in_range};
ghost use Rattle.sk_types_rules.specs.Constants.{number_known, number_named, near, computed, natural, constant_number};
ghost use Rattle.sk_types_laws.specs.Envs.{known};
ghost use Rattle.sk_types_names.specs.Envs.{context_of, IsEnv};
ghost use Rattle.sk_types_laws.specs.Parts.{form_part, part, length_of};
ghost use Rattle.sk_types_names.specs.Gives.{IsWidth};

use crate::env::Env;
use crate::listed::Listed;
use crate::scope::Scope;
use sk_base::{Bounds, Name, at};
use sk_tree::{EForm, Expr, Mark};
use sk_types_laws::Constant;
use sk_types_rules::{Place, in_range};

/// A number from -2^62 to 2^62.
fn near(z: i64) -> Option<i64>
    ensures { result ≡ near z }
{
    if -4_611_686_018_427_387_904 <= z && z <= 4_611_686_018_427_387_904 {
        Some(z)
    } else {
        None
    }
}

#[tactic(auto, using(crate::proofs::NumberLaws::near_some, crate::proofs::NumberLaws::near_none))]
fn added(a: i64, b: i64) -> Option<i64>
    ensures { result ≡ near (a +ℤ b) }
{
    match a.checked_add(b) {
        None => None,
        Some(z) => near(z),
    }
}

#[tactic(auto, using(crate::proofs::NumberLaws::near_some, crate::proofs::NumberLaws::near_none))]
fn subtracted(a: i64, b: i64) -> Option<i64>
    ensures { result ≡ near (a -ℤ b) }
{
    match a.checked_sub(b) {
        None => None,
        Some(z) => near(z),
    }
}

#[tactic(auto, using(crate::proofs::NumberLaws::near_some, crate::proofs::NumberLaws::near_none))]
fn multiplied(a: i64, b: i64) -> Option<i64>
    ensures { result ≡ near (a *ℤ b) }
{
    match a.checked_mul(b) {
        None => None,
        Some(z) => near(z),
    }
}

fn computed(op: Mark, a: i64, b: i64) -> Option<i64>
    ensures { result ≡ computed op a b }
{
    match op {
        Mark::Plus => added(a, b),
        Mark::Minus => subtracted(a, b),
        Mark::Star => multiplied(a, b),
        _ => None,
    }
}

#[tactic(auto, using(crate::proofs::Follows::number_placed))]
fn number_known(constants: &Listed<Constant>, name: &Name) -> Option<i64>
    ensures { result ≡ number_known (map known constants.now) name.now }
{
    match constants.place(name) {
        None => None,
        Some(place) => match at(constants.as_slice(), place) {
            None => None,
            Some(constant) => Some(i64::from(constant.number)),
        },
    }
}

fn number_named(place: Option<Place>, constants: &Listed<Constant>, name: &Name) -> Option<i64>
    ensures { result ≡ number_named place (map known constants.now) name.now }
{
    match place {
        Some(_) => None,
        None => number_known(constants, name),
    }
}

fn number_of(bounds: &Bounds, n: u32) -> Option<i64>
    requires { IsWidth bounds.now }
    ensures { result ≡ only_if (in_range bounds.now n) (pos n) }
{
    if in_range(bounds, n) {
        Some(i64::from(n))
    } else {
        None
    }
}

/// A number in the range of `int` that is not negative.
#[tactic(auto, using(crate::proofs::NumberLaws::natural_negative, crate::proofs::NumberLaws::natural_positive))]
fn natural(bounds: &Bounds, z: i64) -> Option<u32>
    requires { IsWidth bounds.now }
    ensures { result ≡ natural bounds.now z }
{
    if z < 0 {
        return None;
    }
    match u32::try_from(z.unsigned_abs()) {
        Err(_) => None,
        Ok(n) => { if in_range(bounds, n) { Some(n) } else { None } }
    }
}

impl Env<'_> {
    #[cycle(number)]
    fn whole_number(&self, scope: &Scope, e: &Expr) -> Option<i64>
        requires { IsEnv self.now }
        ensures { result ≡ (part (context_of self.now) scope.now e.now).whole }
    {
        self.form_number(scope, &e.form)
    }

    #[cycle(number)]
    fn form_number(&self, scope: &Scope, form: &EForm) -> Option<i64>
        requires { IsEnv self.now }
        ensures { result ≡ (form_part (context_of self.now) scope.now form.now).whole }
    {
        match form {
            EForm::Number(n) => number_of(&self.bounds, *n),
            EForm::Word(name) => number_named(scope.lookup(name), self.known, name),
            EForm::Paren(of) => self.whole_number(scope, of.get()),
            EForm::Binary { op, left, right } => {
                let left = self.whole_number(scope, left.get())?;
                let right = self.whole_number(scope, right.get())?;
                computed(*op, left, right)
            }
            _ => None,
        }
    }

    fn length_number(&self, scope: &Scope, e: &Expr) -> Option<u32>
        requires { IsEnv self.now }
        ensures { result ≡ length_of (context_of self.now) scope.now e.now }
    {
        let z = self.whole_number(scope, e)?;
        natural(&self.bounds, z)
    }

    /// The number of a constant expression.
    pub fn constant_number(&self, scope: &Scope, e: &Expr) -> Option<u32>
        requires { IsEnv self.now }
        ensures part { result ≡ length_of (context_of self.now) scope.now e.now }
        ensures number { result ≡ constant_number (context_of self.now) scope.now e.now }
    {
        self.length_number(scope, e)
    }
}
