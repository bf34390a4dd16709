//! Whether a program is one without costs.
ghost use Rattle.std.specs.Prelude.{◌≡◌, map, option_map};
ghost use Rattle.std.specs.List.{list_all};
ghost use Rattle.sk_prog.specs.Names.{any_yes};
ghost use Rattle.sk_min_costs.specs.Free.{form_free_of, stmt_free, stmts_free, is_free};

use sk_base::Boxed;
use sk_prog::{Fun, PForm, PStmt, Prog};

#[cycle(free)]
#[tactic(auto, using(crate::proofs::Places::split_at))]
fn stmts_free(stmts: &[PStmt]) -> bool
    ensures { result ≡ stmts_free stmts.now }
{
    for stmt in stmts {
        if !stmt_free(stmt) {
            return false;
        }
    }
    true
}

#[cycle(free)]
fn other_free(stmt: &Option<Boxed<PStmt>>) -> bool
    ensures { result ≡ any_yes (option_map stmt_free stmt.now) }
{
    match stmt {
        None => true,
        Some(stmt) => stmt_free(stmt.get()),
    }
}

#[cycle(free)]
fn stmt_free(stmt: &PStmt) -> bool
    ensures { result ≡ stmt_free stmt.now }
{
    form_free(&stmt.form)
}

#[cycle(free)]
fn form_free(form: &PForm) -> bool
    ensures { result ≡ form_free_of form.now }
{
    match form {
        PForm::Minimize(_) | PForm::MinRepeat(_) => false,
        PForm::Block(stmts) | PForm::Reorder(stmts) => stmts_free(stmts.as_slice()),
        PForm::Repeat { count: _, copies } => stmts_free(copies.as_slice()),
        PForm::If {
            cond: _,
            then,
            other,
        } => stmt_free(then.get()) && other_free(other),
        PForm::While { cond: _, body } => stmt_free(body.get()),
        PForm::Declare {
            slot: _,
            name: _,
            ty: _,
            value: _,
        }
        | PForm::Assign {
            target: _,
            value: _,
        }
        | PForm::Call(_)
        | PForm::Return(_)
        | PForm::Assert(_)
        | PForm::Assume(_) => true,
    }
}

#[tactic(auto, using(crate::proofs::Places::split_at))]
fn funs_free(funs: &[Fun]) -> bool
    ensures { result ≡ list_all (λ (f : Fun). stmts_free f.body) funs.now }
{
    for fun in funs {
        if !stmts_free(fun.body.as_slice()) {
            return false;
        }
    }
    true
}

/// Whether nothing in the program is a `minimize` or a `minrepeat`.
pub fn is_free(prog: &Prog) -> bool
    ensures { result ≡ is_free prog.now }
{
    funs_free(prog.funs.as_slice())
}
