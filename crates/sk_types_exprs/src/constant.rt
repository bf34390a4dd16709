//! Why an expression that is to be constant is none.
ghost use Rattle.std.specs.Prelude.{◌≡◌};
ghost use Rattle.sk_types_names.specs.Envs.{top_seen, context_of, IsEnv};
ghost use Rattle.sk_types_rules.specs.Scope.{meaning_of};
ghost use Rattle.sk_types_exprs.specs.ConstantFaults.{breaks, rule_of_name, operator_fault, part_fault, fault_or_range};

use sk_base::{Name, Span};
use sk_tree::{EForm, Expr, Mark};
use sk_types_laws::{Meant, Rule, Typing};
use sk_types_names::{Env, Scope, fault};
use sk_types_rules::in_range;

/// That a name means nothing that has a value, or else nothing constant.
fn name_fault(env: &Env, scope: &Scope, span: Span, name: &Name) -> Typing
    requires { IsEnv env.now }
    ensures { result ≡ breaks (rule_of_name (meaning_of (top_seen env.now.top.now) scope.now name.now)) span }
{
    match env.meaning(scope, name) {
        Meant::Variable(_) | Meant::Constant(_) => fault(Rule::NotConstant, span),
        _ => fault(Rule::UnknownName, span),
    }
}

/// That no constant is computed by an operator, where none is.
fn operator_fault(op: Mark, span: Span) -> Option<Typing>
    ensures { result ≡ operator_fault op span }
{
    match op {
        Mark::Plus | Mark::Minus | Mark::Star => None,
        _ => Some(fault(Rule::NotConstant, span)),
    }
}

/// The first fault of the parts of an expression that is to be constant, where one has a fault.
fn part_fault(env: &Env, scope: &Scope, e: &Expr) -> Option<Typing>
    requires { IsEnv env.now }
    ensures { result ≡ part_fault (context_of env.now) scope.now e.now }
{
    match &e.form {
        EForm::Number(n) => {
            if in_range(&env.bounds, *n) {
                None
            } else {
                Some(fault(Rule::LiteralRange, e.span))
            }
        }
        EForm::Word(name) => match env.constant_number(scope, e) {
            Some(_) => None,
            None => Some(name_fault(env, scope, e.span, name)),
        },
        EForm::Paren(of) => part_fault(env, scope, of.get()),
        EForm::Binary { op, left, right } => {
            let in_left = part_fault(env, scope, left.get());
            let in_right = part_fault(env, scope, right.get());
            in_left.or(in_right).or(operator_fault(*op, e.span))
        }
        _ => Some(fault(Rule::NotConstant, e.span)),
    }
}

/// Why an expression that is to be constant has no number: the first fault of its parts, else that what it comes to is
/// out of range.
pub fn constant_fault(env: &Env, scope: &Scope, e: &Expr) -> Typing
    requires { IsEnv env.now }
    ensures { result ≡ fault_or_range (part_fault (context_of env.now) scope.now e.now) e.now.span }
{
    let why = fault(Rule::NotConstant, e.span);
    part_fault(env, scope, e).unwrap_or(why)
}
