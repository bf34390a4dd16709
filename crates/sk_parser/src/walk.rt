//! What is wrong with the patterns of a tree: a walk over all of them, in the order of the text.
ghost use Rattle.std.specs.Prelude.{◌≡◌, ◌++◌, [], true, map, flat_map, option_map, IfOk};
ghost use Rattle.sk_tree.specs.Spelt.{is_there};
ghost use Rattle.sk_tree.specs.Patterns.{join, any_patterns, expr_patterns, ty_patterns, declared_patterns, stmt_patterns, field_patterns, param_patterns, fun_patterns, item_patterns, patterns_of};
ghost use Rattle.sk_parser_laws.specs.StringReader.{strings_at};
ghost use Rattle.sk_parser_laws.specs.Faults.{no_faults, strings_seen, seen, all_seen, set_patterns};
ghost use Rattle.sk_parser.specs.Met.{tally};

use sk_base::{Boxed, List};
use sk_parser_exprs::strings_at;
use sk_parser_laws::Stop;
use sk_tree::{
    Declared, EForm, Expr, Field, Form, FunItem, Item, NewField, Param, Pattern, Stmt, Token, Tree,
    TyTree,
};
use sk_tree_spell::{PatternFault, strings};
use std::alloc::{AllocError, Global};

/// Where the first pattern of each fault stands, as far as the walk has come.
#[derive(Debug, Drop, Clone, Copy)]
pub struct Faults {
    /// A pattern with too many strings.
    pub too_many: Option<u32>,
    /// Another pattern, with a string that reads as no expression.
    pub bad: Option<u32>,
}

// The place of a fault that was met before, else this one.
fn first(met: Option<u32>, at: u32) -> Option<u32>
    ensures { is_there result ≡ true }
{
    match met {
        Some(before) => Some(before),
        None => Some(at),
    }
}

// Whether each of the strings reads as an expression.
fn read_all(alloc: Global, found: &[List<Token>]) -> Result<bool, AllocError>
    ensures { IfOk result (λ all. all ≡ is_there (strings_at [] found.now)) }
{
    match strings_at(alloc, List::new(alloc), found) {
        Ok(_) => Ok(true),
        Err(Stop::NoReading(_)) => Ok(false),
        Err(Stop::NoMemory) => Err(AllocError),
    }
}

// With the strings of a pattern that stands there.
#[tactic(auto, unfolding(sk_parser_laws::specs::Faults::strings_seen))]
fn see_strings(
    alloc: Global,
    faults: Faults,
    at: u32,
    found: &[List<Token>],
) -> Result<Faults, AllocError>
    ensures { IfOk result (λ more. tally more ≡ strings_seen (tally faults) found.now) }
{
    if read_all(alloc, found)? {
        Ok(faults)
    } else {
        Ok(Faults {
            too_many: faults.too_many,
            bad: first(faults.bad, at),
        })
    }
}

// With a pattern that stands there.
#[tactic(auto, unfolding(sk_parser_laws::specs::Faults::seen))]
fn see(alloc: Global, faults: Faults, at: u32, pattern: &Pattern) -> Result<Faults, AllocError>
    ensures { IfOk result (λ more. tally more ≡ seen (tally faults) pattern.now) }
{
    match strings(alloc, pattern) {
        Ok(found) => see_strings(alloc, faults, at, found.as_slice()),
        Err(PatternFault::TooManyStrings) => Ok(Faults {
            too_many: first(faults.too_many, at),
            bad: faults.bad,
        }),
        Err(PatternFault::Memory) => Err(AllocError),
    }
}

// With the patterns of an expression.
#[cycle(expr_faults)]
fn see_expr(alloc: Global, faults: Faults, expr: &Expr) -> Result<Faults, AllocError>
    ensures { IfOk result (λ more. tally more ≡ all_seen (tally faults) (expr_patterns expr.now)) }
{
    match &expr.form {
        EForm::Pattern { pattern, .. } => {
            let faults = see(alloc, faults, expr.span.from, pattern)?;
            Ok(faults)
        }
        EForm::Paren(of) => see_expr(alloc, faults, of.get()),
        EForm::Call { args, .. } => see_exprs(alloc, faults, args.as_slice()),
        EForm::New { fields, .. } => see_sets(alloc, faults, fields.as_slice()),
        EForm::Braces(elements) => see_exprs(alloc, faults, elements.as_slice()),
        EForm::Member { base, .. } => see_expr(alloc, faults, base.get()),
        EForm::Index { base, index } => {
            let faults = see_expr(alloc, faults, base.get())?;
            let faults = see_expr(alloc, faults, index.get())?;
            Ok(faults)
        }
        EForm::Slice { base, from, length } => {
            let faults = see_expr(alloc, faults, base.get())?;
            let faults = see_expr(alloc, faults, from.get())?;
            let faults = see_expr(alloc, faults, length.get())?;
            Ok(faults)
        }
        EForm::Unary { of, .. } => see_expr(alloc, faults, of.get()),
        EForm::Binary { left, right, .. } => {
            let faults = see_expr(alloc, faults, left.get())?;
            let faults = see_expr(alloc, faults, right.get())?;
            Ok(faults)
        }
        EForm::Cond { cond, then, other } => {
            let faults = see_expr(alloc, faults, cond.get())?;
            let faults = see_expr(alloc, faults, then.get())?;
            let faults = see_expr(alloc, faults, other.get())?;
            Ok(faults)
        }
        EForm::Number(_) => Ok(faults),
        EForm::True => Ok(faults),
        EForm::False => Ok(faults),
        EForm::Null => Ok(faults),
        EForm::Word(_) => Ok(faults),
        EForm::Hole(_) => Ok(faults),
    }
}

// With the patterns of expressions.
#[cycle(expr_faults)]
fn see_exprs(alloc: Global, faults: Faults, exprs: &[Expr]) -> Result<Faults, AllocError>
    ensures { IfOk result (λ more. tally more ≡ all_seen (tally faults) (join (map expr_patterns exprs.now))) }
{
    let mut met = faults;
    for expr in exprs {
        met = see_expr(alloc, met, expr)?;
    }
    Ok(met)
}

// With the patterns of a field that `new` sets.
#[cycle(expr_faults)]
fn see_set(alloc: Global, faults: Faults, field: &NewField) -> Result<Faults, AllocError>
    ensures { IfOk result (λ more. tally more ≡ all_seen (tally faults) (set_patterns field.now)) }
{
    let faults = see_expr(alloc, faults, &field.value)?;
    Ok(faults)
}

// With the patterns of the fields that `new` sets.
#[cycle(expr_faults)]
fn see_sets(alloc: Global, faults: Faults, fields: &[NewField]) -> Result<Faults, AllocError>
    ensures { IfOk result (λ more. tally more ≡ all_seen (tally faults) (join (map set_patterns fields.now))) }
{
    let mut met = faults;
    for field in fields {
        met = see_set(alloc, met, field)?;
    }
    Ok(met)
}

// With the patterns of an expression, where there is one.
#[tactic(auto, using(sk_parser_laws::proofs::Walks::all_seen_none))]
fn see_perhaps(alloc: Global, faults: Faults, expr: &Option<Expr>) -> Result<Faults, AllocError>
    ensures { IfOk result (λ more. tally more ≡ all_seen (tally faults) (any_patterns expr_patterns expr.now)) }
{
    match expr {
        None => Ok(faults),
        Some(expr) => see_expr(alloc, faults, expr),
    }
}

// With the patterns of a type.
#[tactic(auto, using(sk_parser_laws::proofs::Walks::join_map))]
fn see_ty(alloc: Global, faults: Faults, ty: &TyTree) -> Result<Faults, AllocError>
    ensures { IfOk result (λ more. tally more ≡ all_seen (tally faults) (ty_patterns ty.now)) }
{
    let faults = see_exprs(alloc, faults, ty.lengths.as_slice())?;
    Ok(faults)
}

// With the patterns of declared names.
fn see_names(alloc: Global, faults: Faults, names: &[Declared]) -> Result<Faults, AllocError>
    ensures { IfOk result (λ more. tally more ≡ all_seen (tally faults) (flat_map declared_patterns names.now)) }
{
    let mut met = faults;
    for name in names {
        met = see_perhaps(alloc, met, &name.value)?;
    }
    Ok(met)
}

// With the patterns of a declaration.
#[tactic(auto, using(sk_parser_laws::proofs::Walks::all_seen_both))]
fn see_declaration(
    alloc: Global,
    faults: Faults,
    ty: &TyTree,
    names: &[Declared],
) -> Result<Faults, AllocError>
    ensures { IfOk result (λ more. tally more ≡ all_seen (tally faults) (ty_patterns ty.now ++ flat_map declared_patterns names.now)) }
{
    let faults = see_ty(alloc, faults, ty)?;
    let faults = see_names(alloc, faults, names)?;
    Ok(faults)
}

// With the patterns of an assignment.
#[tactic(auto, using(sk_parser_laws::proofs::Walks::all_seen_both))]
fn see_assignment(
    alloc: Global,
    faults: Faults,
    target: &Expr,
    value: &Expr,
) -> Result<Faults, AllocError>
    ensures { IfOk result (λ more. tally more ≡ all_seen (tally faults) (expr_patterns target.now ++ expr_patterns value.now)) }
{
    let faults = see_expr(alloc, faults, target)?;
    let faults = see_expr(alloc, faults, value)?;
    Ok(faults)
}

// With the patterns of a step.
#[tactic(auto, using(sk_parser_laws::proofs::Walks::all_seen_both))]
fn see_step(
    alloc: Global,
    faults: Faults,
    target: &Expr,
    by: &Option<Expr>,
) -> Result<Faults, AllocError>
    ensures { IfOk result (λ more. tally more ≡ all_seen (tally faults) (expr_patterns target.now ++ any_patterns expr_patterns by.now)) }
{
    let faults = see_expr(alloc, faults, target)?;
    let faults = see_perhaps(alloc, faults, by)?;
    Ok(faults)
}

// With the patterns of a statement.
#[cycle(stmt_faults)]
fn see_stmt(alloc: Global, faults: Faults, stmt: &Stmt) -> Result<Faults, AllocError>
    ensures { IfOk result (λ more. tally more ≡ all_seen (tally faults) (stmt_patterns stmt.now)) }
{
    match &stmt.form {
        Form::Empty => Ok(faults),
        Form::Block(stmts) | Form::Reorder(stmts) => see_stmts(alloc, faults, stmts.as_slice()),
        Form::Declare { ty, names } => see_declaration(alloc, faults, ty, names.as_slice()),
        Form::Assign { target, value } => see_assignment(alloc, faults, target, value),
        Form::Step { target, by, .. } => see_step(alloc, faults, target, by),
        Form::Return(value) => see_perhaps(alloc, faults, value),
        Form::Call(expr) | Form::Assert(expr) | Form::Assume(expr) | Form::Minimize(expr) =>
            see_expr(alloc, faults, expr),
        Form::If { cond, then, other } => {
            let faults = see_expr(alloc, faults, cond)?;
            let faults = see_stmt(alloc, faults, then.get())?;
            let faults = see_other(alloc, faults, other)?;
            Ok(faults)
        }
        Form::While { cond, body } => {
            let faults = see_expr(alloc, faults, cond)?;
            let faults = see_stmt(alloc, faults, body.get())?;
            Ok(faults)
        }
        Form::For {
            first,
            cond,
            next,
            body,
        } => {
            let faults = see_stmt(alloc, faults, first.get())?;
            let faults = see_expr(alloc, faults, cond)?;
            let faults = see_stmt(alloc, faults, next.get())?;
            let faults = see_stmt(alloc, faults, body.get())?;
            Ok(faults)
        }
        Form::Repeat { count, body } => {
            let faults = see_expr(alloc, faults, count)?;
            let faults = see_stmt(alloc, faults, body.get())?;
            Ok(faults)
        }
        Form::MinRepeat(body) => see_stmt(alloc, faults, body.get()),
    }
}

// With the patterns of what stands behind an `else`, where there is one.
#[cycle(stmt_faults)]
#[tactic(auto, using(sk_parser_laws::proofs::Walks::all_seen_none))]
fn see_other(
    alloc: Global,
    faults: Faults,
    other: &Option<Boxed<Stmt>>,
) -> Result<Faults, AllocError>
    ensures { IfOk result (λ more. tally more ≡ all_seen (tally faults) (any_patterns (λ p. p) (option_map stmt_patterns other.now))) }
{
    match other {
        None => Ok(faults),
        Some(stmt) => see_stmt(alloc, faults, stmt.get()),
    }
}

// With the patterns of statements.
#[cycle(stmt_faults)]
fn see_stmts(alloc: Global, faults: Faults, stmts: &[Stmt]) -> Result<Faults, AllocError>
    ensures { IfOk result (λ more. tally more ≡ all_seen (tally faults) (join (map stmt_patterns stmts.now))) }
{
    let mut met = faults;
    for stmt in stmts {
        met = see_stmt(alloc, met, stmt)?;
    }
    Ok(met)
}

// With the patterns of the fields of a struct.
fn see_fields(alloc: Global, faults: Faults, fields: &[Field]) -> Result<Faults, AllocError>
    ensures { IfOk result (λ more. tally more ≡ all_seen (tally faults) (flat_map field_patterns fields.now)) }
{
    let mut met = faults;
    for field in fields {
        met = see_ty(alloc, met, &field.ty)?;
    }
    Ok(met)
}

// With the patterns of parameters.
fn see_params(alloc: Global, faults: Faults, params: &[Param]) -> Result<Faults, AllocError>
    ensures { IfOk result (λ more. tally more ≡ all_seen (tally faults) (flat_map param_patterns params.now)) }
{
    let mut met = faults;
    for param in params {
        met = see_ty(alloc, met, &param.ty)?;
    }
    Ok(met)
}

// With the patterns of the type of a result.
#[tactic(auto, using(sk_parser_laws::proofs::Walks::all_seen_none))]
fn see_answer(alloc: Global, faults: Faults, ty: &Option<TyTree>) -> Result<Faults, AllocError>
    ensures { IfOk result (λ more. tally more ≡ all_seen (tally faults) (any_patterns ty_patterns ty.now)) }
{
    match ty {
        None => Ok(faults),
        Some(ty) => see_ty(alloc, faults, ty),
    }
}

// With the patterns of a body.
#[tactic(auto, using(sk_parser_laws::proofs::Walks::join_map))]
fn see_body(alloc: Global, faults: Faults, body: &[Stmt]) -> Result<Faults, AllocError>
    ensures { IfOk result (λ more. tally more ≡ all_seen (tally faults) (flat_map stmt_patterns body.now)) }
{
    let faults = see_stmts(alloc, faults, body)?;
    Ok(faults)
}

// With the patterns of a function.
#[tactic(auto, using(sk_parser_laws::proofs::Walks::all_seen_both))]
fn see_fun(alloc: Global, faults: Faults, fun: &FunItem) -> Result<Faults, AllocError>
    ensures { IfOk result (λ more. tally more ≡ all_seen (tally faults) (fun_patterns fun.now)) }
{
    let faults = see_answer(alloc, faults, &fun.result)?;
    let faults = see_params(alloc, faults, fun.params.as_slice())?;
    let faults = see_body(alloc, faults, fun.body.as_slice())?;
    Ok(faults)
}

// With the patterns of an item.
#[tactic(auto, using(sk_parser_laws::proofs::Walks::all_seen_none))]
fn see_item(alloc: Global, faults: Faults, item: &Item) -> Result<Faults, AllocError>
    ensures { IfOk result (λ more. tally more ≡ all_seen (tally faults) (item_patterns item.now)) }
{
    match item {
        Item::Pragma { .. } => Ok(faults),
        Item::Struct { fields, .. } => see_fields(alloc, faults, fields.as_slice()),
        Item::Const { value, .. } => see_expr(alloc, faults, value),
        Item::Fun(fun) => see_fun(alloc, faults, fun),
    }
}

// With the patterns of items.
fn see_items(alloc: Global, faults: Faults, items: &[Item]) -> Result<Faults, AllocError>
    ensures { IfOk result (λ more. tally more ≡ all_seen (tally faults) (flat_map item_patterns items.now)) }
{
    let mut met = faults;
    for item in items {
        met = see_item(alloc, met, item)?;
    }
    Ok(met)
}

/// The faults of the patterns of a tree.
pub fn faults_of(alloc: Global, tree: &Tree) -> Result<Faults, AllocError>
    ensures { IfOk result (λ met. tally met ≡ all_seen no_faults (patterns_of tree.now)) }
{
    let none = Faults {
        too_many: None,
        bad: None,
    };
    let met = see_items(alloc, none, tree.items.as_slice())?;
    Ok(met)
}
