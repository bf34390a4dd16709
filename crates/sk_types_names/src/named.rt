//! What names the things have that are listed, and structs with tables of their fields.
ghost use Rattle.std.specs.Prelude.{◌≡◌, ◌<◌, length, IfSome};
ghost use Rattle.sk_prog.specs.declared.prog.StructDef.{StructDef};
ghost use Rattle.sk_types_rules.specs.Scope.{field_of};
ghost use Rattle.sk_types_names.specs.Envs.{type_of_field};

use crate::listed::{Listed, Named};
use sk_base::{List, Name, at};
use sk_prog::{FieldDef, ParamDef, StructDef, Ty};
use sk_tree::NewField;
use sk_types_laws::{Constant, Heading};
use std::marker::Model;

impl Named for Name {
    ghost name_of = { λ name. name };

    fn name(&self) -> &Name {
        self
    }
}

impl Named for FieldDef {
    ghost name_of = { λ field. field.name };

    fn name(&self) -> &Name {
        &self.name
    }
}

impl Named for ParamDef {
    ghost name_of = { λ param. param.name };

    fn name(&self) -> &Name {
        &self.name
    }
}

impl Named for NewField {
    ghost name_of = { λ field. field.name };

    fn name(&self) -> &Name {
        &self.name
    }
}

impl Named for Heading {
    ghost name_of = { λ heading. heading.name };

    fn name(&self) -> &Name {
        &self.name
    }
}

impl Named for Constant {
    ghost name_of = { λ constant. constant.name };

    fn name(&self) -> &Name {
        &self.name
    }
}

impl Named for StructTable {
    ghost name_of = { λ def. def.name };

    fn name(&self) -> &Name {
        &self.name
    }
}

/// A struct, with a table of the places of its fields. Contracts see the struct.
#[derive(Drop)]
pub struct StructTable {
    name: Name,
    fields: Listed<FieldDef>,
}

impl Model for StructTable {
    ghost use Rattle.sk_prog.specs.declared.prog.StructDef.{StructDef as Def};

    ghost Value = { Def };

    ghost view = { λ table. record { name = table.name; fields = table.fields } };
}

impl StructTable {
    /// A struct of these fields.
    pub fn new(name: Name, fields: Listed<FieldDef>) -> StructTable
        ensures { result ≡ record { name = name; fields = fields } }
    {
        StructTable { name, fields }
    }

    /// The struct as it stands in a program.
    pub fn into_def(self) -> StructDef
        ensures { result ≡ self }
    {
        StructDef {
            name: self.name,
            fields: List::from_vec(self.fields.into_vec()),
        }
    }

    /// The fields.
    pub fn fields(&self) -> &[FieldDef]
        ensures { result.now ≡ self.now.fields }
    {
        self.fields.as_slice()
    }

    /// The place of a field.
    pub fn field(&self, name: &Name) -> Option<usize>
        ensures value { result ≡ field_of self.now name.now }
        ensures within { IfSome result (λ i. i < length self.now.fields) }
    {
        self.fields.place(name)
    }

    /// The type of a field.
    pub fn type_of(&self, name: &Name) -> Option<Ty>
        ensures { result ≡ type_of_field self.now.fields name.now }
    {
        match self.field(name) {
            None => None,
            Some(place) => match at(self.fields(), place) {
                None => None,
                Some(field) => Some(field.ty),
            },
        }
    }
}
