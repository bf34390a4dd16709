//! What names mean, and what else an expression is typed by.
ghost use Rattle.std.specs.Prelude.{◌≡◌, [], map};
ghost use Rattle.sk_types_rules.specs.Scope.{Signature, place_of, function_or, constant_or, top_meaning, meaning_of};
ghost use Rattle.sk_types_rules.specs.Sorts.{field_type};
ghost use Rattle.sk_types_laws.specs.Envs.{meaning};
ghost use Rattle.sk_types_names.specs.Envs.{top_seen, IsNumbered, IsEnv};

use crate::listed::Listed;
use crate::named::StructTable;
use crate::scope::Scope;
use sk_base::{Bounds, Name, at};
use sk_prog::{ConstId, FunId, StructId, Ty};
use sk_types_laws::{Constant, Heading, Meant};
use std::alloc::Global;

/// What stands at the top of a text: its structs, the names of its constants, and what its functions are to their
/// callers.
#[derive(Drop)]
pub struct Names {
    pub structs: Listed<StructTable>,
    pub consts: Listed<Name>,
    pub funs: Listed<Heading>,
}

/// What an expression is typed by, apart from the variables in scope: the bounds, what stands at the top of the
/// text, and the constants that stand earlier.
#[derive(Drop)]
pub struct Env<'a> {
    pub alloc: Global,
    pub bounds: Bounds,
    pub top: &'a Names,
    pub known: &'a Listed<Constant>,
}

impl Names {
    /// Nothing at the top. It takes no memory.
    pub fn new(alloc: Global) -> Names
        ensures { result ≡ record { structs = []; consts = []; funs = [] } }
    {
        Names {
            structs: Listed::new(alloc),
            consts: Listed::new(alloc),
            funs: Listed::new(alloc),
        }
    }

    #[tactic(auto, using(crate::proofs::Follows::function_names))]
    fn function_named(&self, name: &Name) -> Meant
        requires { IsNumbered self.now }
        ensures { meaning result ≡ function_or (place_of (map (λ (s : Signature). s.name) (top_seen self.now).funs) name.now) }
    {
        match self.funs.place(name) {
            None => Meant::Nothing,
            Some(i) => Meant::Function(FunId { index: i as u32 }),
        }
    }

    fn constant_named(&self, name: &Name) -> Meant
        requires { IsNumbered self.now }
        ensures { meaning result ≡ constant_or (place_of (top_seen self.now).consts name.now) (function_or (place_of (map (λ (s : Signature). s.name) (top_seen self.now).funs) name.now)) }
    {
        match self.consts.place(name) {
            None => self.function_named(name),
            Some(i) => Meant::Constant(ConstId { index: i as u32 }),
        }
    }

    /// What a name means at the top.
    pub fn meaning(&self, name: &Name) -> Meant
        requires { IsNumbered self.now }
        ensures { meaning result ≡ top_meaning (top_seen self.now) name.now }
    {
        match self.structs.place(name) {
            None => self.constant_named(name),
            Some(i) => Meant::Struct(StructId { index: i as u32 }),
        }
    }
}

impl Env<'_> {
    /// What a name means: its nearest visible declaration.
    pub fn meaning(&self, scope: &Scope, name: &Name) -> Meant
        requires { IsEnv self.now }
        ensures { meaning result ≡ meaning_of (top_seen self.now.top.now) scope.now name.now }
    {
        match scope.lookup(name) {
            None => self.top.meaning(name),
            Some(place) => Meant::Variable(place),
        }
    }

    /// The type of a struct's field.
    pub fn field_type(&self, s: StructId, name: &Name) -> Option<Ty>
        ensures { result ≡ field_type (top_seen self.now.top.now) s name.now }
    {
        match at(self.top.structs.as_slice(), s.index as usize) {
            None => None,
            Some(def) => def.type_of(name),
        }
    }
}
