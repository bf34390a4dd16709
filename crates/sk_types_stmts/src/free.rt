//! Names that end as those of copies do.
ghost use Rattle.std.specs.Prelude.{◌≡◌, map, option_map};
ghost use Rattle.std.specs.List.{list_all};
ghost use Rattle.sk_types_rules.specs.Types.{is_digit, is_digits, is_copy_mark, ends_as_copy, is_free, is_yes, any_yes, stmt_free};
ghost use Rattle.sk_types_stmts.specs.Rooms.{form_free_of};

use sk_base::{Boxed, Name};
use sk_prog::{PForm, PStmt};

fn is_digit(byte: u8) -> bool
    ensures { result ≡ is_digit byte }
{
    48 <= byte && byte <= 57
}

#[tactic(auto, using(sk_types_names::proofs::Places::split_at))]
fn all_digits(bytes: &[u8]) -> bool
    ensures { result ≡ list_all is_digit bytes.now }
{
    for byte in bytes {
        if !is_digit(*byte) {
            return false;
        }
    }
    true
}

fn is_digits(bytes: &[u8]) -> bool
    ensures { result ≡ is_digits bytes.now }
{
    !bytes.is_empty() && all_digits(bytes)
}

fn is_copy_mark(bytes: &[u8]) -> bool
    ensures { result ≡ is_copy_mark bytes.now }
{
    match bytes {
        [first, second, digits @ ..] => *first == 95 && *second == 95 && is_digits(digits),
        _ => false,
    }
}

#[tactic(auto, using(crate::proofs::RoomLaws::ends_next))]
fn ends_as_copy(bytes: &[u8]) -> bool
    ensures { result ≡ ends_as_copy bytes.now }
{
    for i in 0..bytes.len() {
        if is_copy_mark(&bytes[i..]) {
            return true;
        }
    }
    false
}

pub fn is_free(name: &Name) -> bool
    ensures { result ≡ is_free name.now }
{
    !ends_as_copy(name.as_bytes())
}

#[cycle(free)]
#[tactic(auto, using(sk_types_names::proofs::Places::split_at))]
fn all_free(stmts: &[PStmt]) -> bool
    ensures { result ≡ list_all is_yes (map stmt_free stmts.now) }
{
    for stmt in stmts {
        if !stmt_free(stmt) {
            return false;
        }
    }
    true
}

#[cycle(free)]
fn any_free(stmt: &Option<Boxed<PStmt>>) -> bool
    ensures { result ≡ any_yes (option_map stmt_free stmt.now) }
{
    match stmt {
        None => true,
        Some(stmt) => stmt_free(stmt.get()),
    }
}

/// Whether no variable that a statement declares has such a name.
#[cycle(free)]
fn stmt_free(stmt: &PStmt) -> bool
    ensures { result ≡ stmt_free stmt.now }
{
    form_free(&stmt.form)
}

#[cycle(free)]
fn form_free(form: &PForm) -> bool
    ensures { result ≡ form_free_of form.now }
{
    match form {
        PForm::Declare {
            slot: _,
            name,
            ty: _,
            value: _,
        } => is_free(name),
        PForm::Block(stmts) | PForm::MinRepeat(stmts) | PForm::Reorder(stmts) => {
            all_free(stmts.as_slice())
        }
        PForm::Repeat { count: _, copies } => all_free(copies.as_slice()),
        PForm::If {
            cond: _,
            then,
            other,
        } => stmt_free(then.get()) && any_free(other),
        PForm::While { cond: _, body } => stmt_free(body.get()),
        PForm::Assign {
            target: _,
            value: _,
        }
        | PForm::Call(_)
        | PForm::Return(_)
        | PForm::Assert(_)
        | PForm::Assume(_)
        | PForm::Minimize(_) => true,
    }
}

/// Whether no variable that these statements declare has such a name.
#[tactic(auto, using(crate::proofs::RoomLaws::all_free))]
pub fn body_free(stmts: &[PStmt]) -> bool
    ensures { result ≡ list_all stmt_free stmts.now }
{
    all_free(stmts)
}
