//! The fields of the structs of a program.

ghost use Rattle.std.specs.Prelude.{◌≡◌, Some, IsTrue, slice_get};
ghost use Rattle.sk_prog.specs.Fits.{has_struct, has_field};
ghost use Rattle.sk_heap.specs.Types.{fields_of, field_types};

use sk_prog::{FieldDef, Prog, StructId, Ty};

/// The fields of a struct.
#[tactic(auto, using(crate::proofs::Structs::structs))]
pub(crate) fn fields_of(prog: &Prog, s: StructId) -> &[FieldDef]
    requires { IsTrue (has_struct prog.now s) }
    ensures { result.now ≡ fields_of prog.now s }
{
    prog.structs.as_slice()[s.index as usize].fields.as_slice()
}

/// The type of a field.
#[tactic(auto, using(crate::proofs::Structs::structs))]
pub(crate) fn type_of(prog: &Prog, s: StructId, field: u32) -> Ty
    requires { IsTrue (has_field prog.now s field) }
    ensures { slice_get (field_types prog.now s) field ≡ Some result }
{
    let fields = fields_of(prog, s);
    fields[field as usize].ty
}
