//! A program and its algebraic types.
ghost use Rattle.std.specs.Prelude.{◌≡◌, IfOk, map, option_map};
ghost use Rattle.sk_adt_tags.specs.Tags.{type_named, algebraic_of, variant_at, of_variant, role_in};

use crate::role::Role;
use sk_adt::{Algebraic, Variant};
use sk_base::{Name, at};
use sk_parser_exprs::token::copy;
use sk_prog::{Prog, StructId};
use sk_types_names::Listed;
use std::alloc::{AllocError, Global};

/// A program, its algebraic types, and their names.
#[derive(Drop)]
pub struct Ground<'a> {
    pub prog: &'a Prog,
    pub types: &'a [Algebraic],
    pub names: Listed<Name>,
    ghost named: { names ≡ map (λ a. a.name) types.now },
}

// The names of types.
fn names_of(alloc: Global, types: &[Algebraic]) -> Result<Listed<Name>, AllocError>
    ensures { IfOk result (λ names. names ≡ map (λ a. a.name) types.now) }
{
    let mut out = Listed::new(alloc);
    for ty in types {
        out.push(copy(alloc, &ty.name)?)?;
    }
    Ok(out)
}

impl<'a> Ground<'a> {
    /// A program and its algebraic types. Want of memory is the only error.
    pub fn new(
        alloc: Global,
        prog: &'a Prog,
        types: &'a [Algebraic],
    ) -> Result<Ground<'a>, AllocError>
        ensures prog { IfOk result (λ g. g.prog.now ≡ prog.now) }
        ensures types { IfOk result (λ g. g.types.now ≡ types.now) }
    {
        let names = names_of(alloc, types)?;
        Ok(Ground { prog, types, names })
    }

    // The type of this name.
    fn type_named(&self, name: &Name) -> Option<&Algebraic>
        ensures { option_map (λ a. a.now) result ≡ type_named self.now.types.now name.now }
    {
        match self.names.place(name) {
            None => None,
            Some(place) => at(self.types, place),
        }
    }

    /// The type of a struct, where it is algebraic.
    pub fn algebraic(&self, s: StructId) -> Option<&Algebraic>
        ensures { option_map (λ a. a.now) result ≡ algebraic_of self.now.types.now self.now.prog.now.structs s }
    {
        match self.prog.structs.get(s.index as usize) {
            None => None,
            Some(def) => self.type_named(&def.name),
        }
    }

    /// What a field of a struct is.
    pub fn role(&self, s: StructId, field: u32) -> Role
        ensures { result ≡ role_in (algebraic_of self.now.types.now self.now.prog.now.structs s) field }
    {
        role_in(self.algebraic(s), field)
    }
}

// The variant of one of these fields, the first of which is that of the first variant.
#[tactic(auto, unfolding(crate::specs::Tags::variant_at))]
fn variant_at(variants: &[Variant], field: usize) -> Option<usize>
    ensures { result ≡ variant_at 0 variants.now field }
{
    let mut left = field;
    for (i, variant) in variants.iter().enumerate() {
        if left < variant.fields.len() {
            return Some(i);
        }
        left -= variant.fields.len();
    }
    None
}

/// What a field of a type is, where there is one.
#[tactic(auto, using(crate::proofs::Roles::role_first, crate::proofs::Roles::role_more))]
pub fn role_in(ty: Option<&Algebraic>, field: u32) -> Role
    ensures { result ≡ role_in (option_map (λ a. a.now) ty.entry) field }
{
    let Some(ty) = ty else {
        return Role::Free;
    };
    if field == 0 {
        return Role::Tag;
    }
    match variant_at(ty.variants.as_slice(), field as usize - 1) {
        None => Role::Free,
        Some(i) => Role::Of(i),
    }
}
