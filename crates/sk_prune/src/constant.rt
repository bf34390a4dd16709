//! Which value an expression has whatever its variables hold.
ghost use Rattle.std.specs.Prelude.{◌≡◌, ◌≤◌, option_and_then, slice_get};
ghost use Rattle.sk_prune.specs.Constants.{number_at, named, to_int, of_one, of_numbers, of_bits, of_two, unless, of_parts, constant};

use sk_base::wrap;
use sk_prog::{BinOp, ConstDef, ConstId, Elem, PEForm, PExpr, Ty, UnOp};

/// The value of a constant expression.
#[derive(Debug, Drop, Clone, Copy, PartialEq, Eq)]
pub enum Constant {
    Bit(bool),
    Number(i64),
}

/// What the constants of a program are, and how wide its integers.
#[derive(Drop, Clone, Copy)]
pub struct Constants<'a> {
    pub consts: &'a [ConstDef],
    pub width: u32,
}

fn to_int(of: Option<Constant>) -> Option<Constant>
    ensures { result ≡ option_and_then to_int of }
{
    match of {
        Some(Constant::Bit(true)) => Some(Constant::Number(1)),
        Some(Constant::Bit(false)) => Some(Constant::Number(0)),
        _ => None,
    }
}

fn of_one(op: UnOp, of: Option<Constant>) -> Option<Constant>
    ensures { result ≡ option_and_then (of_one op) of }
{
    match (op, of) {
        (UnOp::Not, Some(Constant::Bit(b))) => Some(Constant::Bit(!b)),
        (UnOp::Flip, Some(Constant::Bit(b))) => Some(Constant::Bit(!b)),
        _ => None,
    }
}

fn of_numbers(op: BinOp, x: i64, y: i64) -> Option<Constant>
    ensures { result ≡ of_numbers op x y }
{
    match op {
        BinOp::Lt => Some(Constant::Bit(x < y)),
        BinOp::Le => Some(Constant::Bit(x <= y)),
        BinOp::Gt => Some(Constant::Bit(y < x)),
        BinOp::Ge => Some(Constant::Bit(y <= x)),
        BinOp::Eq => Some(Constant::Bit(x == y)),
        BinOp::Ne => Some(Constant::Bit(!(x == y))),
        _ => None,
    }
}

fn of_bits(op: BinOp, a: bool, b: bool) -> Option<Constant>
    ensures { result ≡ of_bits op a b }
{
    match op {
        BinOp::Eq => Some(Constant::Bit(a == b)),
        BinOp::Ne => Some(Constant::Bit(a != b)),
        BinOp::And => Some(Constant::Bit(a && b)),
        BinOp::Or => Some(Constant::Bit(a || b)),
        BinOp::Xor => Some(Constant::Bit(a != b)),
        _ => None,
    }
}

fn of_two(op: BinOp, a: Option<Constant>, b: Option<Constant>) -> Option<Constant>
    ensures { result ≡ of_two op a b }
{
    match (a, b) {
        (Some(Constant::Number(x)), Some(Constant::Number(y))) => of_numbers(op, x, y),
        (Some(Constant::Bit(a)), Some(Constant::Bit(b))) => of_bits(op, a, b),
        _ => None,
    }
}

/// What `&&` and `||` come to: the first part, where it is the bit that decides, or else the second.
fn unless(decides: bool, a: Option<Constant>, b: Option<Constant>) -> Option<Constant>
    ensures { result ≡ unless decides a b }
{
    match (decides, a, b) {
        (true, Some(Constant::Bit(true)), _) => Some(Constant::Bit(true)),
        (false, Some(Constant::Bit(false)), _) => Some(Constant::Bit(false)),
        (_, Some(Constant::Bit(_)), Some(Constant::Bit(b))) => Some(Constant::Bit(b)),
        _ => None,
    }
}

fn of_parts(op: BinOp, a: Option<Constant>, b: Option<Constant>) -> Option<Constant>
    ensures { result ≡ of_parts op a b }
{
    match op {
        BinOp::AndThen => unless(false, a, b),
        BinOp::OrElse => unless(true, a, b),
        _ => of_two(op, a, b),
    }
}

impl Constants<'_> {
    fn number_at(&self, ty: Option<Ty>, n: u32) -> Option<Constant>
        requires bits_low { 2 ≤ self.now.width }
        requires bits_high { self.now.width ≤ 32 }
        ensures { result ≡ number_at self.now.width ty n }
    {
        match ty {
            Some(Ty::One(Elem::Bit)) => Some(Constant::Bit(n != 0)),
            Some(Ty::One(Elem::Int)) => Some(Constant::Number(wrap(self.width, n as i64))),
            _ => None,
        }
    }

    #[tactic(auto, using(crate::proofs::Numbers::looked_up))]
    fn named(&self, c: ConstId) -> Option<Constant>
        ensures { result ≡ named (slice_get self.now.consts.now c.index) }
    {
        match sk_base::at(self.consts, c.index as usize) {
            None => None,
            Some(c) => Some(Constant::Number(c.number)),
        }
    }

    /// The value of an expression that is constant.
    pub fn constant(&self, e: &PExpr) -> Option<Constant>
        requires bits_low { 2 ≤ self.now.width }
        requires bits_high { self.now.width ≤ 32 }
        ensures { result ≡ constant self.now.consts.now self.now.width e.now }
    {
        match &e.form {
            PEForm::Number(n) => self.number_at(e.ty, *n),
            PEForm::True => Some(Constant::Bit(true)),
            PEForm::False => Some(Constant::Bit(false)),
            PEForm::Const(c) => self.named(*c),
            PEForm::Paren(of) => self.constant(of.get()),
            PEForm::Unary { op, of } => of_one(*op, self.constant(of.get())),
            PEForm::Binary { op, left, right } => {
                let left = self.constant(left.get());
                let right = self.constant(right.get());
                of_parts(*op, left, right)
            }
            PEForm::ToInt(of) => to_int(self.constant(of.get())),
            PEForm::Null => None,
            PEForm::Var { .. } => None,
            PEForm::Hole(_) => None,
            PEForm::Pattern(_) => None,
            PEForm::Call { .. } => None,
            PEForm::New { .. } => None,
            PEForm::Braces(_) => None,
            PEForm::Member { .. } => None,
            PEForm::Index { .. } => None,
            PEForm::Slice { .. } => None,
            PEForm::Cond { .. } => None,
            PEForm::Pad(_) => None,
        }
    }
}
