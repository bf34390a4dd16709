//! What must hold of a program. A list that is made here is given up where memory is wanting.

ghost use Rattle.std.specs.Prelude.{◌≡◌, ◌++◌, IfOk, OnOk};
ghost use Rattle.sk_model.specs.Obligations.{obligations, of_fun, of_kind, of_reference};

use sk_base::List;
use sk_limits::number_of;
use sk_model::Obligation;
use sk_prog::{Fun, FunId, FunKind, Prog};
use std::alloc::{AllocError, Global};

fn push_kind(list: &mut List<Obligation>, f: FunId, kind: FunKind) -> Result<(), AllocError>
    ensures { OnOk result (list.new ≡ list.old ++ of_kind f kind) }
{
    match kind {
        FunKind::Plain => Ok(()),
        FunKind::Generator => Ok(()),
        FunKind::Harness => list.push(Obligation::Harness(f)),
    }
}

fn push_reference(
    list: &mut List<Obligation>,
    f: FunId,
    implements: Option<FunId>,
) -> Result<(), AllocError>
    ensures { OnOk result (list.new ≡ list.old ++ of_reference f implements) }
{
    match implements {
        None => Ok(()),
        Some(g) => list.push(Obligation::Implements { f, g }),
    }
}

fn push_fun(list: &mut List<Obligation>, f: FunId, fun: &Fun) -> Result<(), AllocError>
    ensures { OnOk result (list.new ≡ list.old ++ of_fun f fun.now) }
{
    push_kind(list, f, fun.kind)?;
    push_reference(list, f, fun.implements)
}

/// What must hold of a program on every input: in the order of its functions each harness, and each function that
/// implements another.
pub fn obligations(alloc: Global, prog: &Prog) -> Result<List<Obligation>, AllocError>
    ensures { IfOk result (λ list. list ≡ obligations prog.now) }
{
    let mut list = List::new(alloc);
    for (n, fun) in prog.funs.as_slice().iter().enumerate() {
        let index = number_of(n)?;
        let f = FunId { index };
        push_fun(&mut list, f, fun)?;
    }
    Ok(list)
}
