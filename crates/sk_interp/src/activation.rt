//! What an active call does: its expressions, its statements, and the calls that it makes.

ghost use Rattle.std.specs.Prelude.{◌≡◌, ◌≤◌, map, nat_le, length, Some, None, IsTrue};
ghost use Rattle.std.specs.Option.{option_copied};
ghost use Rattle.sk_model.specs.Eval.{const_value, indexed, sliced, padded_at};
ghost use Rattle.sk_model.specs.Heap.{read_field, write};
ghost use Rattle.sk_model.specs.Operators.{unary_operator, to_int};
ghost use Rattle.sk_model.specs.Exec.{Returns};
ghost use Rattle.sk_model.specs.Sites.{is_hole};
ghost use Rattle.sk_interp_laws.specs.Recording.{pure, lift};
ghost use Rattle.sk_interp_laws.specs.Eval.{in_order, fields_in_order, choose, binary, copy_back, ref_args};
ghost use Rattle.sk_interp_laws.specs.Exec.{holds, assign, drop_value, branch, assert, assume, minimize, turns};
ghost use Rattle.sk_interp_laws.specs.Kept.{kept};
ghost use Rattle.sk_interp.specs.Records.{Records, RecordsAs};
ghost use Rattle.sk_interp.specs.Paths.{IsSteady, IsPath, is_arithmetic};
ghost use Rattle.sk_interp.specs.Places.{location_of};
ghost use Rattle.sk_interp.specs.Calling.{followed, called_of, callee, value_of_call, value_of_called, value_of_new, value_of_braces, flow_of, calls_in, does_in, stored_in, going_in, each_in, field_in, exec_in, exec_all_in};

use crate::call::{
    Called, Flow, count_of, depth_over, finished, first_slots, params_of, result_value,
    with_function,
};
use crate::location::{Location, Root};
use crate::machine::Machine;
use crate::operator::{operator, to_int, unary_operator};
use crate::part::{indexed, literal_value, padded_at, sliced, unfilled};
use crate::row::Row;
use crate::stop::Stop;
use crate::value::copy;
use sk_base::{Bounds, List, Span};
use sk_prog::{
    BinOp, ConstDef, Fun, FunId, PEForm, PExpr, PField, PForm, PStmt, ParamDef, Prog, StructId, Ty,
    UnOp, Value,
};
use std::alloc::Global;

/// A call that is active. Nothing of it changes while it is.
#[derive(Drop)]
pub struct Activation<'a> {
    pub alloc: Global,
    pub prog: &'a Prog,
    pub bounds: Bounds,
    /// How many more calls may become active above it.
    pub left: u32,
    /// How many calls are active, this one among them.
    pub depth: u32,
    /// The functions of the active calls, this one's the last.
    pub active: &'a [u32],
}

/// How deep an index is looked through for whether it is steady.
const STEADY_LEVELS: u32 = 4;

fn const_value(found: Option<&ConstDef>) -> Value
    ensures { result ≡ const_value (option_copied found.entry) }
{
    match found {
        None => Value::Int(0),
        Some(c) => Value::Int(c.number),
    }
}

// Whether the count of a repeat is still to be filled.
fn is_hole(count: &PExpr) -> bool
    ensures { result ≡ is_hole count.now.form }
{
    match &count.form {
        PEForm::Hole(_) => true,
        _ => false,
    }
}

// Whether an operator is one of arithmetic.
fn is_arithmetic(op: BinOp) -> bool
    ensures { result ≡ is_arithmetic op }
{
    match op {
        BinOp::Mul => true,
        BinOp::Div => true,
        BinOp::Rem => true,
        BinOp::Add => true,
        BinOp::Sub => true,
        _ => false,
    }
}

// Whether a `reorder` has one order alone.
fn has_one_order(stmts: &[PStmt]) -> bool
    ensures { result ≡ nat_le (length stmts.now) 1 }
{
    stmts.len() <= 1
}

impl Activation<'_> {
    /// The function that a call means, where it may be made.
    fn callee(&self, f: u32) -> Option<&Fun>
        ensures { option_copied result ≡ callee self.now f }
    {
        if self.left > 0 && count_of(self.active, f) < self.bounds.inline_amnt as usize {
            return self.prog.funs.get(f as usize);
        }
        None
    }

    /// Whether an expression is steady, as far as so many levels show: no call and no `new` stands in it, and no form that
    /// indexes seldom have.
    #[tactic(auto, using(crate::proofs::Paths::steady))]
    fn is_steady(&self, levels: u32, e: &PExpr) -> bool
        ensures { IsTrue result → IsSteady (does_in self.now e.now) }
    {
        if levels == 0 {
            return false;
        }
        let levels = levels - 1;
        match &e.form {
            PEForm::Number(_) => true,
            PEForm::Var { .. } => true,
            PEForm::Const(_) => true,
            PEForm::Paren(a) => self.is_steady(levels, a.get()),
            PEForm::Member { base, .. } => self.is_steady(levels, base.get()),
            PEForm::Index { base, index } => {
                self.is_steady(levels, base.get()) && self.is_steady(levels, index.get())
            }
            PEForm::Binary { op, left, right } => {
                if !is_arithmetic(*op) {
                    return false;
                }
                self.is_steady(levels, left.get()) && self.is_steady(levels, right.get())
            }
            PEForm::ToInt(a) => self.is_steady(levels, a.get()),
            _ => false,
        }
    }

    /// Whether an expression is a path: what it gives stands where it names a location.
    #[tactic(auto, using(crate::proofs::Paths::paths))]
    fn is_path(&self, e: &PExpr) -> bool
        ensures { IsTrue result → IsPath (does_in self.now e.now) }
    {
        match &e.form {
            PEForm::Var { .. } => true,
            PEForm::Member { .. } => true,
            PEForm::Index { base, index } => {
                self.is_steady(STEADY_LEVELS, index.get()) && self.is_path(base.get())
            }
            _ => false,
        }
    }

    /// The value of an expression.
    #[cycle(run)]
    fn eval(&self, room: u32, machine: &mut Machine, span: Span, e: &PExpr) -> Result<Value, Stop>
        requires bits_low { 2 ≤ self.now.bounds.int_bits }
        requires bits_high { self.now.bounds.int_bits ≤ 32 }
        ensures { Records result machine.new ((does_in self.now e.now).value span machine.old) }
    {
        if room == 0 {
            return Err(Stop::NoMemory);
        }
        let room = room - 1;
        match &e.form {
            PEForm::Number(n) => literal_value(self.alloc, self.bounds.int_bits, e.ty, *n),
            PEForm::True => Ok(Value::Bit(true)),
            PEForm::False => Ok(Value::Bit(false)),
            PEForm::Null => Ok(Value::Null),
            PEForm::Var { slot, .. } => machine.variable(self.alloc, *slot),
            PEForm::Const(c) => Ok(const_value(self.prog.consts.get(c.index as usize))),
            PEForm::Hole(_) => unfilled(self.alloc, span, e.ty),
            PEForm::Pattern(_) => Err(Stop::Failed { span }),
            PEForm::Paren(a) => self.eval(room, machine, span, a.get()),
            PEForm::Call { f, args } => self.call_value(room, machine, span, *f, args),
            PEForm::New { s, fields } => self.new_record(room, machine, span, *s, fields),
            PEForm::Braces(parts) => self.braces(room, machine, span, e.ty, parts),
            PEForm::Member { base, field, .. } => {
                self.member(room, machine, span, *field, base.get())
            }
            PEForm::Index { base, index } => {
                if self.is_path(e) {
                    return self.load(room, machine, span, e);
                }
                self.index(room, machine, span, base.get(), index.get())
            }
            PEForm::Slice { base, from, length } => {
                self.slice(room, machine, span, *length, base.get(), from.get())
            }
            PEForm::Unary { op, of } => self.unary(room, machine, span, *op, of.get()),
            PEForm::Binary { op, left, right } => {
                self.binary(room, machine, span, *op, left.get(), right.get())
            }
            PEForm::Cond { cond, then, other } => {
                self.cond(room, machine, span, cond.get(), then.get(), other.get())
            }
            PEForm::ToInt(a) => self.number_of(room, machine, span, a.get()),
            PEForm::Pad(a) => self.pad(room, machine, span, e.ty, a.get()),
        }
    }

    /// A field of the record that an expression stands for.
    #[cycle(run)]
    #[inline(never)]
    fn member(
        &self,
        room: u32,
        machine: &mut Machine,
        span: Span,
        field: u32,
        base: &PExpr,
    ) -> Result<Value, Stop>
        requires bits_low { 2 ≤ self.now.bounds.int_bits }
        requires bits_high { self.now.bounds.int_bits ≤ 32 }
        ensures { Records result machine.new (followed ((does_in self.now base.now).value span) (λ v. lift (read_field span field v)) machine.old) }
    {
        let v = self.eval(room, machine, span, base)?;
        machine.read_field(self.alloc, span, field, &v)
    }

    /// What stands at a path.
    #[cycle(run)]
    #[inline(never)]
    fn load(&self, room: u32, machine: &mut Machine, span: Span, e: &PExpr) -> Result<Value, Stop>
        requires bits_low { 2 ≤ self.now.bounds.int_bits }
        requires bits_high { self.now.bounds.int_bits ≤ 32 }
        requires path { IsPath (does_in self.now e.now) }
        ensures { Records result machine.new ((does_in self.now e.now).value span machine.old) }
    {
        let location = self.target(room, machine, span, e)?;
        machine.load(self.alloc, span, &location)
    }

    /// An element of an array.
    #[cycle(run)]
    #[inline(never)]
    fn index(
        &self,
        room: u32,
        machine: &mut Machine,
        span: Span,
        base: &PExpr,
        index: &PExpr,
    ) -> Result<Value, Stop>
        requires bits_low { 2 ≤ self.now.bounds.int_bits }
        requires bits_high { self.now.bounds.int_bits ≤ 32 }
        ensures { Records result machine.new (followed ((does_in self.now base.now).value span) (λ v. followed ((does_in self.now index.now).value span) (λ i. lift (indexed span v i))) machine.old) }
    {
        let v = self.eval(room, machine, span, base)?;
        let i = self.eval(room, machine, span, index)?;
        indexed(self.alloc, span, &v, &i)
    }

    /// Elements of an array, from an index on.
    #[cycle(run)]
    #[inline(never)]
    fn slice(
        &self,
        room: u32,
        machine: &mut Machine,
        span: Span,
        length: u32,
        base: &PExpr,
        from: &PExpr,
    ) -> Result<Value, Stop>
        requires bits_low { 2 ≤ self.now.bounds.int_bits }
        requires bits_high { self.now.bounds.int_bits ≤ 32 }
        ensures { Records result machine.new (followed ((does_in self.now base.now).value span) (λ v. followed ((does_in self.now from.now).value span) (λ i. lift (sliced span length v i))) machine.old) }
    {
        let v = self.eval(room, machine, span, base)?;
        let i = self.eval(room, machine, span, from)?;
        sliced(self.alloc, span, length, &v, &i)
    }

    #[cycle(run)]
    #[inline(never)]
    fn unary(
        &self,
        room: u32,
        machine: &mut Machine,
        span: Span,
        op: UnOp,
        of: &PExpr,
    ) -> Result<Value, Stop>
        requires bits_low { 2 ≤ self.now.bounds.int_bits }
        requires bits_high { self.now.bounds.int_bits ≤ 32 }
        ensures { Records result machine.new (followed ((does_in self.now of.now).value span) (λ v. lift (unary_operator self.now.bounds.int_bits span op v)) machine.old) }
    {
        let v = self.eval(room, machine, span, of)?;
        unary_operator(self.alloc, self.bounds.int_bits, span, op, &v)
    }

    /// The one or the other by a bit.
    #[cycle(run)]
    #[inline(never)]
    fn cond(
        &self,
        room: u32,
        machine: &mut Machine,
        span: Span,
        cond: &PExpr,
        a: &PExpr,
        b: &PExpr,
    ) -> Result<Value, Stop>
        requires bits_low { 2 ≤ self.now.bounds.int_bits }
        requires bits_high { self.now.bounds.int_bits ≤ 32 }
        ensures { Records result machine.new (followed ((does_in self.now cond.now).value span) (choose span ((does_in self.now a.now).value span) ((does_in self.now b.now).value span)) machine.old) }
    {
        match self.eval(room, machine, span, cond)? {
            Value::Bit(true) => self.eval(room, machine, span, a),
            Value::Bit(false) => self.eval(room, machine, span, b),
            _ => Err(Stop::Failed { span }),
        }
    }

    /// A bit as a number.
    #[cycle(run)]
    #[inline(never)]
    fn number_of(
        &self,
        room: u32,
        machine: &mut Machine,
        span: Span,
        of: &PExpr,
    ) -> Result<Value, Stop>
        requires bits_low { 2 ≤ self.now.bounds.int_bits }
        requires bits_high { self.now.bounds.int_bits ≤ 32 }
        ensures { Records result machine.new (followed ((does_in self.now of.now).value span) (λ v. lift (to_int span v)) machine.old) }
    {
        let v = self.eval(room, machine, span, of)?;
        to_int(span, &v)
    }

    /// A value as one of a longer type.
    #[cycle(run)]
    #[inline(never)]
    fn pad(
        &self,
        room: u32,
        machine: &mut Machine,
        span: Span,
        ty: Option<Ty>,
        of: &PExpr,
    ) -> Result<Value, Stop>
        requires bits_low { 2 ≤ self.now.bounds.int_bits }
        requires bits_high { self.now.bounds.int_bits ≤ 32 }
        ensures { Records result machine.new (followed ((does_in self.now of.now).value span) (λ v. pure (padded_at ty v)) machine.old) }
    {
        let v = self.eval(room, machine, span, of)?;
        let v = padded_at(self.alloc, ty, v)?;
        Ok(v)
    }

    /// The value of a call.
    #[cycle(run)]
    #[inline(never)]
    fn call_value(
        &self,
        room: u32,
        machine: &mut Machine,
        span: Span,
        f: FunId,
        args: &List<PExpr>,
    ) -> Result<Value, Stop>
        requires bits_low { 2 ≤ self.now.bounds.int_bits }
        requires bits_high { self.now.bounds.int_bits ≤ 32 }
        ensures { Records result machine.new (value_of_call self.now span f args.now machine.old) }
    {
        let room = room.saturating_sub(1);
        let args = args.as_slice();
        let values = self.eval_all(room, machine, span, args)?;
        self.call_with(room, machine, span, f, args, values)
    }

    /// The value of a call whose arguments have these values.
    #[cycle(run)]
    #[inline(never)]
    fn call_with(
        &self,
        room: u32,
        machine: &mut Machine,
        span: Span,
        f: FunId,
        args: &[PExpr],
        values: Row<Value>,
    ) -> Result<Value, Stop>
        requires bits_low { 2 ≤ self.now.bounds.int_bits }
        requires bits_high { self.now.bounds.int_bits ≤ 32 }
        ensures { Records result machine.new (value_of_called self.now span f args.now values machine.old) }
    {
        let called = self.call(room, machine, span, f.index, values)?;
        let params = params_of(self.prog.funs.get(f.index as usize));
        self.copy_back(room, machine, span, params, args, called.refs.as_slice())?;
        Ok(result_value(called.result))
    }

    /// A new record, with its fields set.
    #[cycle(run)]
    #[inline(never)]
    fn new_record(
        &self,
        room: u32,
        machine: &mut Machine,
        span: Span,
        s: StructId,
        fields: &List<PField>,
    ) -> Result<Value, Stop>
        requires bits_low { 2 ≤ self.now.bounds.int_bits }
        requires bits_high { self.now.bounds.int_bits ≤ 32 }
        ensures { Records result machine.new (value_of_new self.now span s fields.now machine.old) }
    {
        let room = room.saturating_sub(1);
        let set = self.eval_fields(room, machine, span, fields.as_slice())?;
        machine.allocate(self.alloc, self.prog, s, set)
    }

    /// An array of elements that are written out, at its type.
    #[cycle(run)]
    #[inline(never)]
    fn braces(
        &self,
        room: u32,
        machine: &mut Machine,
        span: Span,
        ty: Option<Ty>,
        parts: &List<PExpr>,
    ) -> Result<Value, Stop>
        requires bits_low { 2 ≤ self.now.bounds.int_bits }
        requires bits_high { self.now.bounds.int_bits ≤ 32 }
        ensures { Records result machine.new (value_of_braces self.now span ty parts.now machine.old) }
    {
        let room = room.saturating_sub(1);
        let vs = self.eval_all(room, machine, span, parts.as_slice())?;
        let v = padded_at(self.alloc, ty, Value::Array(vs.into_list()))?;
        Ok(v)
    }

    #[cycle(run)]
    #[inline(never)]
    #[tactic(auto, using(crate::proofs::Activations::eager))]
    fn binary(
        &self,
        room: u32,
        machine: &mut Machine,
        span: Span,
        op: BinOp,
        left: &PExpr,
        right: &PExpr,
    ) -> Result<Value, Stop>
        requires bits_low { 2 ≤ self.now.bounds.int_bits }
        requires bits_high { self.now.bounds.int_bits ≤ 32 }
        ensures { Records result machine.new (binary self.now.bounds.int_bits span op ((does_in self.now left.now).value span) ((does_in self.now right.now).value span) machine.old) }
    {
        match op {
            BinOp::AndThen => match self.eval(room, machine, span, left)? {
                Value::Bit(true) => self.eval(room, machine, span, right),
                Value::Bit(false) => Ok(Value::Bit(false)),
                _ => Err(Stop::Failed { span }),
            },
            BinOp::OrElse => match self.eval(room, machine, span, left)? {
                Value::Bit(true) => Ok(Value::Bit(true)),
                Value::Bit(false) => self.eval(room, machine, span, right),
                _ => Err(Stop::Failed { span }),
            },
            _ => {
                let v = self.eval(room, machine, span, left)?;
                let w = self.eval(room, machine, span, right)?;
                operator(self.alloc, self.bounds.int_bits, span, op, &v, &w)
            }
        }
    }

    /// The values of expressions, from the first to the last.
    #[cycle(run)]
    #[inline(never)]
    #[tactic(auto, using(crate::proofs::Activations::split_at))]
    fn eval_all(
        &self,
        room: u32,
        machine: &mut Machine,
        span: Span,
        es: &[PExpr],
    ) -> Result<Row<Value>, Stop>
        requires bits_low { 2 ≤ self.now.bounds.int_bits }
        requires bits_high { self.now.bounds.int_bits ≤ 32 }
        ensures { Records result machine.new (in_order span (each_in self.now es.now) machine.old) }
    {
        let mut values = Row::new(self.alloc);
        for e in es {
            let value = self.eval(room, machine, span, e)?;
            values.push(value)?;
        }
        Ok(values)
    }

    /// The fields that `new` sets, from the first to the last.
    #[cycle(run)]
    #[inline(never)]
    #[tactic(auto, using(crate::proofs::Activations::split_at))]
    fn eval_fields(
        &self,
        room: u32,
        machine: &mut Machine,
        span: Span,
        fields: &[PField],
    ) -> Result<Vec<(u32, Value)>, Stop>
        requires bits_low { 2 ≤ self.now.bounds.int_bits }
        requires bits_high { self.now.bounds.int_bits ≤ 32 }
        ensures { RecordsAs (λ set. set.items) result machine.new (fields_in_order span (map (field_in self.now) fields.now) machine.old) }
    {
        let mut set = Vec::new(self.alloc);
        for f in fields {
            let v = self.eval(room, machine, span, &f.value)?;
            set.push((f.field, v))?;
        }
        Ok(set)
    }

    /// What an expression names as a target.
    #[cycle(run)]
    #[inline(never)]
    fn target(
        &self,
        room: u32,
        machine: &mut Machine,
        span: Span,
        e: &PExpr,
    ) -> Result<Location, Stop>
        requires bits_low { 2 ≤ self.now.bounds.int_bits }
        requires bits_high { self.now.bounds.int_bits ≤ 32 }
        ensures { RecordsAs location_of result machine.new ((does_in self.now e.now).target span machine.old) }
    {
        if room == 0 {
            return Err(Stop::NoMemory);
        }
        let room = room - 1;
        match &e.form {
            PEForm::Var { slot, .. } => Ok(Location::new(
                self.alloc,
                Root::Variable { slot: *slot },
            )),
            PEForm::Member { base, field, .. } => {
                let reference = self.eval(room, machine, span, base.get())?;
                let field = *field;
                Ok(Location::new(self.alloc, Root::Field { reference, field }))
            }
            PEForm::Index { base, index } => {
                let location = self.target(room, machine, span, base.get())?;
                let i = self.eval(room, machine, span, index.get())?;
                location.with_index(span, &i)
            }
            PEForm::Number(_) => Err(Stop::Failed { span }),
            PEForm::True => Err(Stop::Failed { span }),
            PEForm::False => Err(Stop::Failed { span }),
            PEForm::Null => Err(Stop::Failed { span }),
            PEForm::Const(_) => Err(Stop::Failed { span }),
            PEForm::Hole(_) => Err(Stop::Failed { span }),
            PEForm::Pattern(_) => Err(Stop::Failed { span }),
            PEForm::Paren(_) => Err(Stop::Failed { span }),
            PEForm::Call { .. } => Err(Stop::Failed { span }),
            PEForm::New { .. } => Err(Stop::Failed { span }),
            PEForm::Braces(_) => Err(Stop::Failed { span }),
            PEForm::Slice { .. } => Err(Stop::Failed { span }),
            PEForm::Unary { .. } => Err(Stop::Failed { span }),
            PEForm::Binary { .. } => Err(Stop::Failed { span }),
            PEForm::Cond { .. } => Err(Stop::Failed { span }),
            PEForm::ToInt(_) => Err(Stop::Failed { span }),
            PEForm::Pad(_) => Err(Stop::Failed { span }),
        }
    }

    /// A call of a function with these arguments.
    #[cycle(run)]
    #[inline(never)]
    pub fn call(
        &self,
        room: u32,
        machine: &mut Machine,
        span: Span,
        f: u32,
        args: Row<Value>,
    ) -> Result<Called, Stop>
        requires bits_low { 2 ≤ self.now.bounds.int_bits }
        requires bits_high { self.now.bounds.int_bits ≤ 32 }
        ensures { RecordsAs called_of result machine.new (calls_in self.now span f args machine.old) }
    {
        let fun = match self.callee(f) {
            None => return Err(Stop::Failed { span }),
            Some(fun) => fun,
        };
        let active = with_function(self.alloc, self.active, f)?;
        let left = self.left - 1;
        let inner = Activation {
            alloc: self.alloc,
            prog: self.prog,
            bounds: self.bounds,
            left,
            depth: depth_over(left),
            active: active.as_slice(),
        };
        let outer = machine.exchange(first_slots(fun, args)?);
        let flow = inner.exec_all(room, machine, fun.body.as_slice())?;
        let slots = machine.exchange(outer);
        let called = finished(self.alloc, fun, flow, slots.as_slice())?;
        Ok(called)
    }

    /// Copies the final values of `ref` parameters back to the variables that were passed, in order.
    #[cycle(run)]
    #[inline(never)]
    #[tactic(auto, using(crate::proofs::Activations::back))]
    fn copy_back(
        &self,
        room: u32,
        machine: &mut Machine,
        span: Span,
        params: &[ParamDef],
        args: &[PExpr],
        refs: &[Value],
    ) -> Result<(), Stop>
        requires bits_low { 2 ≤ self.now.bounds.int_bits }
        requires bits_high { self.now.bounds.int_bits ≤ 32 }
        ensures { Records result machine.new (copy_back span (ref_args params.now (each_in self.now args.now)) refs.now machine.old) }
    {
        let mut params = params;
        let mut refs = refs;
        for a in args {
            let [p, others @ ..] = params else {
                return Ok(());
            };
            params = others;
            if !p.by_ref {
                continue;
            }
            let [v, more @ ..] = refs else {
                return Ok(());
            };
            refs = more;
            let location = self.target(room, machine, span, a)?;
            let v = copy(self.alloc, v)?;
            machine.store(self.alloc, span, &location, v)?;
        }
        Ok(())
    }

    /// Statements one after another, until one returns.
    #[cycle(run)]
    #[inline(never)]
    #[tactic(auto, using(crate::proofs::Activations::split_at))]
    fn exec_all(&self, room: u32, machine: &mut Machine, stmts: &[PStmt]) -> Result<Flow, Stop>
        requires bits_low { 2 ≤ self.now.bounds.int_bits }
        requires bits_high { self.now.bounds.int_bits ≤ 32 }
        ensures { RecordsAs flow_of result machine.new (exec_all_in self.now stmts.now machine.old) }
    {
        for stmt in stmts {
            if let Flow::Returns(v) = self.exec(room, machine, stmt)? {
                return Ok(Flow::Returns(v));
            }
        }
        Ok(Flow::Onward)
    }

    /// One statement.
    #[cycle(run)]
    fn exec(&self, room: u32, machine: &mut Machine, stmt: &PStmt) -> Result<Flow, Stop>
        requires bits_low { 2 ≤ self.now.bounds.int_bits }
        requires bits_high { self.now.bounds.int_bits ≤ 32 }
        ensures { RecordsAs flow_of result machine.new (exec_in self.now stmt.now machine.old) }
    {
        if room == 0 {
            return Err(Stop::NoMemory);
        }
        let room = room - 1;
        let span = stmt.span;
        match &stmt.form {
            PForm::Block(stmts) => self.exec_all(room, machine, stmts.as_slice()),
            PForm::Declare {
                slot,
                ty,
                value,
                ..
            } => match value {
                None => machine.declare(self.alloc, *slot, *ty),
                Some(e) => self.set(room, machine, span, *slot, e),
            },
            PForm::Assign { target, value } => self.assign(room, machine, span, target, value),
            PForm::Call(e) => self.drop_value(room, machine, span, e),
            PForm::If { cond, then, other } => match other {
                None => self.branch(room, machine, span, cond, then.get()),
                Some(other) => self.branches(room, machine, span, cond, then.get(), other.get()),
            },
            PForm::While { cond, body } => self.turns(room, machine, span, cond, body.get()),
            PForm::Return(value) => match value {
                None => machine.go(span, self.depth, Flow::Returns(None)),
                Some(e) => self.give(room, machine, span, e),
            },
            PForm::Assert(e) => self.assert(room, machine, span, e),
            PForm::Assume(e) => self.assume(room, machine, span, e),
            PForm::Minimize(e) => self.minimize(room, machine, span, e),
            PForm::Repeat { count, copies } => {
                if is_hole(count) {
                    return Err(Stop::Failed { span });
                }
                self.exec_all(room, machine, copies.as_slice())
            }
            PForm::MinRepeat(_) => Err(Stop::Failed { span }),
            PForm::Reorder(stmts) => {
                if has_one_order(stmts.as_slice()) {
                    return self.exec_all(room, machine, stmts.as_slice());
                }
                Err(Stop::Failed { span })
            }
        }
    }

    /// Whether a condition is true, which is told as a step.
    #[cycle(run)]
    #[inline(never)]
    fn holds(&self, room: u32, machine: &mut Machine, span: Span, e: &PExpr) -> Result<bool, Stop>
        requires bits_low { 2 ≤ self.now.bounds.int_bits }
        requires bits_high { self.now.bounds.int_bits ≤ 32 }
        ensures { Records result machine.new (holds kept self.now.depth span (does_in self.now e.now) machine.old) }
    {
        let v = self.eval(room, machine, span, e)?;
        machine.decide(span, self.depth, &v)
    }

    /// Gives a variable its first value.
    #[cycle(run)]
    #[inline(never)]
    fn set(
        &self,
        room: u32,
        machine: &mut Machine,
        span: Span,
        slot: u32,
        e: &PExpr,
    ) -> Result<Flow, Stop>
        requires bits_low { 2 ≤ self.now.bounds.int_bits }
        requires bits_high { self.now.bounds.int_bits ≤ 32 }
        ensures { RecordsAs flow_of result machine.new (followed ((does_in self.now e.now).value span) (λ v. stored_in self.now span (write slot v) v) machine.old) }
    {
        let v = self.eval(room, machine, span, e)?;
        machine.set(self.alloc, span, self.depth, slot, v)
    }

    /// Puts a value into what a target names.
    #[cycle(run)]
    #[inline(never)]
    fn assign(
        &self,
        room: u32,
        machine: &mut Machine,
        span: Span,
        target: &PExpr,
        value: &PExpr,
    ) -> Result<Flow, Stop>
        requires bits_low { 2 ≤ self.now.bounds.int_bits }
        requires bits_high { self.now.bounds.int_bits ≤ 32 }
        ensures { RecordsAs flow_of result machine.new (assign kept self.now.depth span (does_in self.now target.now) (does_in self.now value.now) machine.old) }
    {
        let location = self.target(room, machine, span, target)?;
        let v = self.eval(room, machine, span, value)?;
        machine.assign(self.alloc, span, self.depth, &location, v)
    }

    /// A call whose value is dropped.
    #[cycle(run)]
    #[inline(never)]
    fn drop_value(
        &self,
        room: u32,
        machine: &mut Machine,
        span: Span,
        e: &PExpr,
    ) -> Result<Flow, Stop>
        requires bits_low { 2 ≤ self.now.bounds.int_bits }
        requires bits_high { self.now.bounds.int_bits ≤ 32 }
        ensures { RecordsAs flow_of result machine.new (drop_value kept self.now.depth span (does_in self.now e.now) machine.old) }
    {
        self.eval(room, machine, span, e)?;
        machine.go(span, self.depth, Flow::Onward)
    }

    /// A statement, where a condition is true.
    #[cycle(run)]
    #[inline(never)]
    fn branch(
        &self,
        room: u32,
        machine: &mut Machine,
        span: Span,
        cond: &PExpr,
        a: &PStmt,
    ) -> Result<Flow, Stop>
        requires bits_low { 2 ≤ self.now.bounds.int_bits }
        requires bits_high { self.now.bounds.int_bits ≤ 32 }
        ensures { RecordsAs flow_of result machine.new (branch kept self.now.depth span (does_in self.now cond.now) (exec_in self.now a.now) None machine.old) }
    {
        if self.holds(room, machine, span, cond)? {
            return self.exec(room, machine, a);
        }
        Ok(Flow::Onward)
    }

    /// The one statement or the other by a condition.
    #[cycle(run)]
    #[inline(never)]
    fn branches(
        &self,
        room: u32,
        machine: &mut Machine,
        span: Span,
        cond: &PExpr,
        a: &PStmt,
        b: &PStmt,
    ) -> Result<Flow, Stop>
        requires bits_low { 2 ≤ self.now.bounds.int_bits }
        requires bits_high { self.now.bounds.int_bits ≤ 32 }
        ensures { RecordsAs flow_of result machine.new (branch kept self.now.depth span (does_in self.now cond.now) (exec_in self.now a.now) (Some (exec_in self.now b.now)) machine.old) }
    {
        if self.holds(room, machine, span, cond)? {
            return self.exec(room, machine, a);
        }
        self.exec(room, machine, b)
    }

    /// Returns with a value.
    #[cycle(run)]
    #[inline(never)]
    fn give(&self, room: u32, machine: &mut Machine, span: Span, e: &PExpr) -> Result<Flow, Stop>
        requires bits_low { 2 ≤ self.now.bounds.int_bits }
        requires bits_high { self.now.bounds.int_bits ≤ 32 }
        ensures { RecordsAs flow_of result machine.new (followed ((does_in self.now e.now).value span) (λ v. going_in self.now span (Returns (Some v))) machine.old) }
    {
        let v = self.eval(room, machine, span, e)?;
        machine.go(span, self.depth, Flow::Returns(Some(v)))
    }

    /// Fails where a condition is false.
    #[cycle(run)]
    #[inline(never)]
    fn assert(&self, room: u32, machine: &mut Machine, span: Span, e: &PExpr) -> Result<Flow, Stop>
        requires bits_low { 2 ≤ self.now.bounds.int_bits }
        requires bits_high { self.now.bounds.int_bits ≤ 32 }
        ensures { RecordsAs flow_of result machine.new (assert kept self.now.depth span (does_in self.now e.now) machine.old) }
    {
        if self.holds(room, machine, span, e)? {
            return Ok(Flow::Onward);
        }
        Err(Stop::Failed { span })
    }

    /// Skips the run where a condition is false.
    #[cycle(run)]
    #[inline(never)]
    fn assume(&self, room: u32, machine: &mut Machine, span: Span, e: &PExpr) -> Result<Flow, Stop>
        requires bits_low { 2 ≤ self.now.bounds.int_bits }
        requires bits_high { self.now.bounds.int_bits ≤ 32 }
        ensures { RecordsAs flow_of result machine.new (assume kept self.now.depth span (does_in self.now e.now) machine.old) }
    {
        if self.holds(room, machine, span, e)? {
            return Ok(Flow::Onward);
        }
        Err(Stop::Skipped { span })
    }

    /// Adds a number to the cost.
    #[cycle(run)]
    #[inline(never)]
    fn minimize(
        &self,
        room: u32,
        machine: &mut Machine,
        span: Span,
        e: &PExpr,
    ) -> Result<Flow, Stop>
        requires bits_low { 2 ≤ self.now.bounds.int_bits }
        requires bits_high { self.now.bounds.int_bits ≤ 32 }
        ensures { RecordsAs flow_of result machine.new (minimize kept self.now.depth span (does_in self.now e.now) machine.old) }
    {
        let v = self.eval(room, machine, span, e)?;
        machine.pay(span, self.depth, &v)
    }

    /// The turns of a loop.
    #[cycle(run)]
    #[inline(never)]
    #[tactic(auto, using(crate::proofs::Activations::turn_on))]
    fn turns(
        &self,
        room: u32,
        machine: &mut Machine,
        span: Span,
        cond: &PExpr,
        body: &PStmt,
    ) -> Result<Flow, Stop>
        requires bits_low { 2 ≤ self.now.bounds.int_bits }
        requires bits_high { self.now.bounds.int_bits ≤ 32 }
        ensures { RecordsAs flow_of result machine.new (turns kept self.now.depth self.now.bounds.unroll span (does_in self.now cond.now) (exec_in self.now body.now) machine.old) }
    {
        for _turn in 0..self.bounds.unroll {
            if !self.holds(room, machine, span, cond)? {
                return Ok(Flow::Onward);
            }
            if let Flow::Returns(v) = self.exec(room, machine, body)? {
                return Ok(Flow::Returns(v));
            }
        }
        match self.holds(room, machine, span, cond)? {
            true => Err(Stop::Failed { span }),
            false => Ok(Flow::Onward),
        }
    }
}
