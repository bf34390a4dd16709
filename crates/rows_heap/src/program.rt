//! A program of two structs.

use sk_base::{List, Name};
use sk_prog::{Elem, FieldDef, Prog, StructDef, StructId, Ty};
use std::alloc::{AllocError, Global};

/// `struct Item { int number; Item next; Pair pair; }`
pub const ITEM: StructId = StructId { index: 0 };

/// `struct Pair { bit mark; int[2] numbers; Item[2] items; bit[2][2] marks; }`
pub const PAIR: StructId = StructId { index: 1 };

pub const NUMBER: u32 = 0;

pub const NEXT: u32 = 1;

pub const PAIR_OF: u32 = 2;

pub const MARK: u32 = 0;

pub const NUMBERS: u32 = 1;

pub const ITEMS: u32 = 2;

pub const MARKS: u32 = 3;

/// A struct with fields of these types. Names have no part in what a heap does, so none is written.
fn struct_of(alloc: Global, types: &[Ty]) -> Result<StructDef, AllocError> {
    let mut fields = List::new(alloc);
    for ty in types {
        fields.push(FieldDef {
            name: Name::from_vec(Vec::new(alloc)),
            ty: *ty,
        })?;
    }
    Ok(StructDef {
        name: Name::from_vec(Vec::new(alloc)),
        fields,
    })
}

/// The program of the two structs.
pub fn program(alloc: Global) -> Result<Prog, AllocError> {
    let mut structs = List::new(alloc);
    structs.push(struct_of(
        alloc,
        &[
            Ty::One(Elem::Int),
            Ty::One(Elem::Reference(ITEM)),
            Ty::One(Elem::Reference(PAIR)),
        ],
    )?)?;
    structs.push(struct_of(
        alloc,
        &[
            Ty::One(Elem::Bit),
            Ty::Array(Elem::Int, 2),
            Ty::Array(Elem::Reference(ITEM), 2),
            Ty::Grid(Elem::Bit, 2, 2),
        ],
    )?)?;
    Ok(Prog {
        structs,
        consts: List::new(alloc),
        funs: List::new(alloc),
    })
}
