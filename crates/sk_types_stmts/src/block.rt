//! Statements of plain trees.
ghost use Rattle.std.specs.Prelude.{◌≡◌, map, option_map};
ghost use Rattle.sk_types_stmts.specs.Statements.{copies};
ghost use Rattle.sk_tree.specs.declared.stmt.Form.TheVariants as form;
ghost use Rattle.sk_types_laws.specs.Making.{inside, any_inside, block, make_form, make, make_all};
ghost use Rattle.sk_types_names.specs.Envs.{context_of, IsEnv};
ghost use Rattle.sk_types_names.specs.Leaves.{Leaves};

use crate::single::{
    alone, assign, beside, body_fault, call_of, count_at, declare_one, may_reorder, returned,
};
use crate::target::value_at;
use sk_base::{Boxed, List, Span};
use sk_prog::{PForm, PStmt, Ty};
use sk_tree::{Expr, Form, Stmt};
use sk_types_laws::{Rule, Typing};
use sk_types_names::{BIT, Env, INT, Scope, fault};

/// A body, which does not leave its variables in scope.
#[cycle(making)]
fn inside(
    env: &Env,
    returns: Option<Ty>,
    scope: &mut Scope,
    from: usize,
    stmt: &Stmt,
) -> Result<PStmt, Typing>
    requires { IsEnv env.now }
    ensures { Leaves result scope.new (inside (make (context_of env.now) returns stmt.now) from scope.old) }
{
    let count = scope.len();
    let made = make(env, returns, scope, from, stmt)?;
    scope.leave(count);
    Ok(made)
}

#[cycle(making)]
fn boxed_inside(
    env: &Env,
    returns: Option<Ty>,
    scope: &mut Scope,
    from: usize,
    stmt: &Stmt,
) -> Result<Boxed<PStmt>, Typing>
    requires { IsEnv env.now }
    ensures { Leaves result scope.new (inside (make (context_of env.now) returns stmt.now) from scope.old) }
{
    let made = inside(env, returns, scope, from, stmt)?;
    let made = Boxed::new(env.alloc, made)?;
    Ok(made)
}

#[cycle(making)]
fn any_inside(
    env: &Env,
    returns: Option<Ty>,
    scope: &mut Scope,
    from: usize,
    stmt: &Option<Boxed<Stmt>>,
) -> Result<Option<Boxed<PStmt>>, Typing>
    requires { IsEnv env.now }
    ensures { Leaves result scope.new (any_inside (option_map (make (context_of env.now) returns) stmt.now) from scope.old) }
{
    match stmt {
        None => Ok(None),
        Some(stmt) => {
            let made = boxed_inside(env, returns, scope, from, stmt.get())?;
            Ok(Some(made))
        }
    }
}

/// Statements that follow each other in one block. What a function gives back is of the type `returns`.
#[cycle(making)]
#[tactic(auto, using(sk_types_names::proofs::Follows::makers))]
pub fn make_all(
    env: &Env,
    returns: Option<Ty>,
    scope: &mut Scope,
    from: usize,
    stmts: &[Stmt],
) -> Result<List<PStmt>, Typing>
    requires { IsEnv env.now }
    ensures { Leaves result scope.new (make_all (context_of env.now) returns stmts.now from scope.old) }
{
    let mut made = List::new(env.alloc);
    for stmt in stmts {
        let stmt = make(env, returns, scope, from, stmt)?;
        made.push(stmt)?;
    }
    Ok(made)
}

/// The statements of a block, whose variables begin with the next slot.
#[cycle(making)]
fn block(
    env: &Env,
    returns: Option<Ty>,
    scope: &mut Scope,
    stmts: &[Stmt],
) -> Result<List<PStmt>, Typing>
    requires { IsEnv env.now }
    ensures { Leaves result scope.new (block (map (make (context_of env.now) returns) stmts.now) scope.old) }
{
    let from = scope.len();
    let made = make_all(env, returns, scope, from, stmts)?;
    scope.leave(from);
    Ok(made)
}

#[cycle(making)]
fn make(
    env: &Env,
    returns: Option<Ty>,
    scope: &mut Scope,
    from: usize,
    stmt: &Stmt,
) -> Result<PStmt, Typing>
    requires { IsEnv env.now }
    ensures { Leaves result scope.new (make (context_of env.now) returns stmt.now from scope.old) }
{
    let form = make_form(env, returns, scope, from, stmt.span, &stmt.form)?;
    Ok(PStmt {
        span: stmt.span,
        form,
    })
}

/// The body of a loop, in a box.
#[cycle(making)]
#[tactic(auto, using(sk_types_exprs::proofs::PartLaws::fails_nothing))]
fn loop_body(
    env: &Env,
    returns: Option<Ty>,
    scope: &mut Scope,
    from: usize,
    body: &Stmt,
) -> Result<Boxed<PStmt>, Typing>
    requires { IsEnv env.now }
    ensures { Leaves result scope.new (inside (make (context_of env.now) returns body.now) from scope.old) }
{
    let count = scope.len();
    match boxed_inside(env, returns, scope, from, body) {
        Ok(made) => Ok(made),
        Err(Typing::Memory) => Err(Typing::Memory),
        Err(Typing::Fault(why)) => { Err(body_fault(env, scope, count, body, Typing::Fault(why))) }
    }
}

#[cycle(making)]
fn make_while(
    env: &Env,
    returns: Option<Ty>,
    scope: &mut Scope,
    from: usize,
    body: &Stmt,
    cond: &Expr,
) -> Result<PForm, Typing>
    requires { IsEnv env.now }
    ensures { Leaves result scope.new (make_form (context_of env.now) returns (form.While cond.now body.now) from scope.old) }
{
    let cond = value_at(env, scope, BIT, cond)?;
    loop_body(env, returns, scope, from, body).map(|body| PForm::While { cond, body })
}

/// The copies of a repeat before expansion: its body alone.
#[cycle(making)]
fn copies(
    env: &Env,
    returns: Option<Ty>,
    scope: &mut Scope,
    from: usize,
    body: &Stmt,
) -> Result<List<PStmt>, Typing>
    requires { IsEnv env.now }
    ensures { Leaves result scope.new (copies (make (context_of env.now) returns body.now) from scope.old) }
{
    let body = inside(env, returns, scope, from, body)?;
    alone(env.alloc, body)
}

#[cycle(making)]
fn make_repeat(
    env: &Env,
    returns: Option<Ty>,
    scope: &mut Scope,
    from: usize,
    body: &Stmt,
    count: &Expr,
) -> Result<PForm, Typing>
    requires { IsEnv env.now }
    ensures { Leaves result scope.new (make_form (context_of env.now) returns (form.Repeat count.now body.now) from scope.old) }
{
    let count = count_at(env, scope, count)?;
    copies(env, returns, scope, from, body).map(|copies| PForm::Repeat { count, copies })
}

#[cycle(making)]
fn make_reorder(
    env: &Env,
    returns: Option<Ty>,
    scope: &mut Scope,
    from: usize,
    span: Span,
    stmts: &[Stmt],
) -> Result<PForm, Typing>
    requires { IsEnv env.now }
    ensures { Leaves result scope.new (make_form (context_of env.now) returns (form.Reorder stmts.now) from scope.old) }
{
    let stmts = block(env, returns, scope, stmts)?;
    if may_reorder(stmts.as_slice()) {
        Ok(PForm::Reorder(stmts))
    } else {
        Err(fault(Rule::ReorderForm, span))
    }
}

/// A statement that is no block. A plain tree has no empty statement, no step and no `for`.
#[cycle(making)]
fn make_form(
    env: &Env,
    returns: Option<Ty>,
    scope: &mut Scope,
    from: usize,
    span: Span,
    form: &Form,
) -> Result<PForm, Typing>
    requires { IsEnv env.now }
    ensures { Leaves result scope.new (make_form (context_of env.now) returns form.now from scope.old) }
{
    match form {
        Form::Block(stmts) => {
            let stmts = block(env, returns, scope, stmts.as_slice())?;
            Ok(PForm::Block(stmts))
        }
        Form::Declare { ty, names } => declare_one(env, scope, from, span, ty, names.as_slice()),
        Form::Assign { target, value } => assign(env, scope, target, value),
        Form::Call(e) => {
            let e = call_of(env, scope, e)?;
            Ok(PForm::Call(e))
        }
        Form::If { cond, then, other } => {
            let cond = value_at(env, scope, BIT, cond)?;
            let (cond, then) = beside(cond, boxed_inside(env, returns, scope, from, then.get()))?;
            any_inside(env, returns, scope, from, other).map(|other| PForm::If {
                cond,
                then,
                other,
            })
        }
        Form::While { cond, body } => make_while(env, returns, scope, from, body.get(), cond),
        Form::Return(value) => returned(env, scope, returns, span, value),
        Form::Assert(e) => {
            let e = value_at(env, scope, BIT, e)?;
            Ok(PForm::Assert(e))
        }
        Form::Assume(e) => {
            let e = value_at(env, scope, BIT, e)?;
            Ok(PForm::Assume(e))
        }
        Form::Minimize(e) => {
            let e = value_at(env, scope, INT, e)?;
            Ok(PForm::Minimize(e))
        }
        Form::Repeat { count, body } => {
            make_repeat(env, returns, scope, from, body.get(), count)
        }
        Form::MinRepeat(body) => {
            let copies = copies(env, returns, scope, from, body.get())?;
            Ok(PForm::MinRepeat(copies))
        }
        Form::Reorder(stmts) => { make_reorder(env, returns, scope, from, span, stmts.as_slice()) }
        Form::Empty
        | Form::Step {
            kind: _,
            target: _,
            by: _,
        }
        | Form::For {
            first: _,
            cond: _,
            next: _,
            body: _,
        } => Err(fault(Rule::Mismatch, span)),
    }
}
