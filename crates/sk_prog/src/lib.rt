//! Typed programs: every name is a number of what it means, every coercion is written out.
#![tactic(auto)]

pub mod examples;
mod expr;
mod ids;
pub mod laws;
mod prog;
mod stmt;
mod ty;
mod value;

pub use expr::{BinOp, PEForm, PExpr, PField, UnOp};
pub use ids::{ConstId, FunId, StructId};
pub use prog::{ConstDef, FieldDef, Fun, FunKind, ParamDef, Prog, StructDef};
pub use stmt::{PForm, PStmt};
pub use ty::{Elem, Ty};
pub use value::Value;
