//! The walk over the expressions and statements of an active call.

ghost use Rattle.std.specs.Prelude.{◌≡◌, ◌<◌, length, IfOk, OnOk, Some, false, true};
ghost use Rattle.std.specs.Option.{option_copied};
ghost use Rattle.sk_dag.specs.Graph.{HasBool};
ghost use Rattle.sk_dag.specs.Eval.{Keeps};
ghost use Rattle.sk_arr.specs.Shapes.{Stands, AllStand};
ghost use Rattle.sk_sym_state.specs.Seen.{AreWorth};
ghost use Rattle.sk_sym_state.specs.Stands.{StateStands, EndedStands};
ghost use Rattle.sk_sym_state.specs.Shows.{EndedIs};
ghost use Rattle.sk_sym_forms.specs.Steps.{EvaluatesOn};
ghost use Rattle.sk_sym_state.specs.Meaning.{Executes};
ghost use Rattle.sk_sym_state.specs.Branching.{IsBit};
ghost use Rattle.sk_sym_walk.specs.Walk.{exec_all_at, eval_part, stmt_part, all_part, IsBehind};
ghost use Rattle.sk_sym_walk.specs.Parts.{IsEvaluated, IsEvaluatedOn, IsTested, IsGuarded, IsExecuted, IsExecutedOn, AreEvaluated, given, either_part, single_part, double_part, binary_part, pick_part, cond_part, act_part, other_part, ways_part, branch_part, list_part, braces_part};
ghost use Rattle.sk_sym_walk.specs.Calls.{callee, value_called, call_part, ends, copied_at, copied_first, AreCopiedBack, IsCopiedBack, HasResult, IsInside, IsCalled};
ghost use Rattle.sk_sym_walk.specs.Turns.{turns_part, turn_part, decided_part};
ghost use Rattle.sk_sym_walk.specs.Copies.{some_part, copies_part, copy_part, repeat_part};
ghost use Rattle.sk_sym_walk.specs.Orders.{ordered_part, reorder_part, one_turn_part, AreOrders};
ghost use Rattle.sk_sym_walk.specs.Patterns.{strings_part, string_part, pattern_part, strings_target, string_target, pattern_target};
ghost use Rattle.sk_sym_walk.specs.Targets.{target_part, field_target, index_target, assign_part, fields_part, new_part, IsLocated, IsPlaced, IsPlacedOn, AreSetTo};

use crate::calling::{
    absent, count_of, first_param, first_shape, pays_nothing, value_of, with_function,
};
use crate::failing::{bit_of, fail_nowhere, fail_without};
use crate::leaf::{hole, leaf};
use crate::pattern::{first_expr, is_at_most, number_behind};
use crate::step::{
    exceeds, inside, is_hole, is_over, joined, pass_digits, pass_loop, pass_other, pass_site,
    turn_node,
};
use sk_base::{Bounds, Boxed, List, Span};
use sk_dag::{BoolId, Dag, Shape};
use sk_limits::{never, too_deep};
use sk_prog::{BinOp, Fun, FunId, PEForm, PExpr, PField, PForm, PStmt, ParamDef, StructId, Ty};
use sk_sym_choices::orders;
use sk_sym_folds::{and, known_bool, not, or};
use sk_sym_forms::frames::{enter, leave};
use sk_sym_forms::{
    Act, Double, Single, apply, apply_two, declare_zero, fail_here, give_nothing, perform,
};
use sk_sym_places::stores::{Init, Location, make, store};
use sk_sym_places::{Place, assign};
use sk_sym_sites::{pass_expr, pass_exprs, pass_stmt, pass_stmts, start_of};
use sk_sym_state::{Ended, Setting, SymState};
use std::alloc::AllocError;

/// A call that is active. Nothing of it changes while it is.
#[derive(Clone, Copy)]
pub struct Activation<'a> {
    pub setting: Setting<'a>,
    pub bounds: Bounds,
    /// How many more calls may become active above it.
    pub left: u32,
    /// The functions of the active calls, this one's the last.
    pub active: &'a [u32],
}

impl Activation<'_> {
    /// The value of an expression.
    #[cycle(run)]
    fn eval(
        &self,
        room: u32,
        dag: &mut Dag,
        state: &mut SymState,
        at: &mut usize,
        span: Span,
        e: &PExpr,
    ) -> Result<Shape, AllocError>
        requires stands { StateStands dag.old self.now.setting.expanded.now.prog state.old }
        ensures keeps { Keeps dag.old dag.new }
        ensures evaluated { IfOk result (λ r. IsEvaluated self.now dag.old dag.new state.old state.new at.old at.new (eval_part self.now span e.now) r) }
    {
        if room == 0 {
            return Err(too_deep());
        }
        let room = room - 1;
        match &e.form {
            PEForm::Number(_)
            | PEForm::True
            | PEForm::False
            | PEForm::Null
            | PEForm::Var { slot: _, name: _ }
            | PEForm::Const(_) => leaf(self, dag, state, *at, span, e),
            PEForm::Hole(_) => hole(self, dag, state, at, span, e),
            PEForm::Paren(of) => self.eval(room, dag, state, at, span, inside(of.get())),
            PEForm::Unary { op, of } => {
                self.single(room, dag, state, at, span, Single::Unary(*op), of.get())
            }
            PEForm::ToInt(of) => self.single(room, dag, state, at, span, Single::ToInt, of.get()),
            PEForm::Pad(of) => self.single(room, dag, state, at, span, Single::Pad(e.ty), of.get()),
            PEForm::Member { base, s, field } => self.single(
                room,
                dag,
                state,
                at,
                span,
                Single::Member(*s, *field),
                base.get(),
            ),
            PEForm::Index { base, index } => self.double(
                room,
                dag,
                state,
                at,
                span,
                Double::Index,
                base.get(),
                index.get(),
            ),
            PEForm::Slice { base, from, length } => self.double(
                room,
                dag,
                state,
                at,
                span,
                Double::Slice(*length),
                base.get(),
                from.get(),
            ),
            PEForm::Braces(parts) => {
                self.braces(room, dag, state, at, span, e.ty, parts.as_slice())
            }
            PEForm::Call { f, args } => {
                self.call(room, dag, state, at, span, e.ty, *f, args.as_slice())
            }
            PEForm::New { s, fields } => {
                self.new_record(room, dag, state, at, span, *s, fields.as_slice())
            }
            PEForm::Binary { op, left, right } => {
                self.binary(room, dag, state, at, span, *op, left.get(), right.get())
            }
            PEForm::Cond { cond, then, other } => self.cond(
                room,
                dag,
                state,
                at,
                span,
                cond.get(),
                then.get(),
                other.get(),
            ),
            PEForm::Pattern(strings) => {
                self.pattern(room, dag, state, at, span, strings.as_slice())
            }
        }
    }

    /// What is done with the value of one part.
    #[cycle(run)]
    #[inline(never)]
    fn single(
        &self,
        room: u32,
        dag: &mut Dag,
        state: &mut SymState,
        at: &mut usize,
        span: Span,
        what: Single,
        of: &PExpr,
    ) -> Result<Shape, AllocError>
        requires stands { StateStands dag.old self.now.setting.expanded.now.prog state.old }
        ensures keeps { Keeps dag.old dag.new }
        ensures evaluated { IfOk result (λ r. IsEvaluated self.now dag.old dag.new state.old state.new at.old at.new (single_part self.now span what of.now) r) }
    {
        let a = self.eval(room, dag, state, at, span, of)?;
        let r = apply(
            &self.setting,
            dag,
            state,
            self.bounds.int_bits,
            span,
            what,
            a,
        )?;
        Ok(r)
    }

    /// What is done with the values of two parts.
    #[cycle(run)]
    #[inline(never)]
    #[tactic(auto, using(crate::proofs::Sequences::keeping))]
    fn double(
        &self,
        room: u32,
        dag: &mut Dag,
        state: &mut SymState,
        at: &mut usize,
        span: Span,
        what: Double,
        left: &PExpr,
        right: &PExpr,
    ) -> Result<Shape, AllocError>
        requires stands { StateStands dag.old self.now.setting.expanded.now.prog state.old }
        ensures keeps { Keeps dag.old dag.new }
        ensures evaluated { IfOk result (λ r. IsEvaluated self.now dag.old dag.new state.old state.new at.old at.new (double_part self.now span what left.now right.now) r) }
    {
        let a = self.eval(room, dag, state, at, span, left)?;
        let b = self.eval(room, dag, state, at, span, right)?;
        let r = apply_two(
            &self.setting,
            dag,
            state,
            self.bounds.int_bits,
            span,
            what,
            &a,
            &b,
        )?;
        Ok(r)
    }

    /// An operator. `&&` and `||` evaluate the second part only where the first does not decide.
    #[cycle(run)]
    #[inline(never)]
    fn binary(
        &self,
        room: u32,
        dag: &mut Dag,
        state: &mut SymState,
        at: &mut usize,
        span: Span,
        op: BinOp,
        left: &PExpr,
        right: &PExpr,
    ) -> Result<Shape, AllocError>
        requires stands { StateStands dag.old self.now.setting.expanded.now.prog state.old }
        ensures keeps { Keeps dag.old dag.new }
        ensures evaluated { IfOk result (λ r. IsEvaluated self.now dag.old dag.new state.old state.new at.old at.new (binary_part self.now span op left.now right.now) r) }
    {
        match op {
            BinOp::AndThen => {
                let c = self.test(room, dag, state, at, span, left)?;
                self.also(room, dag, state, at, span, c, right)
            }
            BinOp::OrElse => {
                let c = self.test(room, dag, state, at, span, left)?;
                self.otherwise(room, dag, state, at, span, c, right)
            }
            _ => self.double(
                room,
                dag,
                state,
                at,
                span,
                Double::Operator(op),
                left,
                right,
            ),
        }
    }

    /// The second part of `&&`, behind a bit.
    #[cycle(run)]
    #[inline(never)]
    #[tactic(auto, using(crate::proofs::Sequences::keeping))]
    fn also(
        &self,
        room: u32,
        dag: &mut Dag,
        state: &mut SymState,
        at: &mut usize,
        span: Span,
        cond: BoolId,
        e: &PExpr,
    ) -> Result<Shape, AllocError>
        requires stands { StateStands dag.old self.now.setting.expanded.now.prog state.old }
        requires cond { HasBool dag.old.nodes cond }
        ensures keeps { Keeps dag.old dag.new }
        ensures evaluated { IfOk result (λ r. IsEvaluatedOn self.now dag.old dag.new state.old state.new at.old at.new (IsBit cond) (either_part span (eval_part self.now span e.now) (given false)) r) }
    {
        match known_bool(dag, cond) {
            Some(true) => self.eval(room, dag, state, at, span, e),
            Some(false) => {
                pass_expr(at, e)?;
                Ok(Shape::Bit(cond))
            }
            None => {
                let y = self.guarded(room, dag, state, at, span, cond, e)?;
                let r = and(dag, cond, y)?;
                Ok(Shape::Bit(r))
            }
        }
    }

    /// The second part of `||`, behind a bit.
    #[cycle(run)]
    #[inline(never)]
    #[tactic(auto, using(crate::proofs::Sequences::keeping))]
    fn otherwise(
        &self,
        room: u32,
        dag: &mut Dag,
        state: &mut SymState,
        at: &mut usize,
        span: Span,
        cond: BoolId,
        e: &PExpr,
    ) -> Result<Shape, AllocError>
        requires stands { StateStands dag.old self.now.setting.expanded.now.prog state.old }
        requires cond { HasBool dag.old.nodes cond }
        ensures keeps { Keeps dag.old dag.new }
        ensures evaluated { IfOk result (λ r. IsEvaluatedOn self.now dag.old dag.new state.old state.new at.old at.new (IsBit cond) (either_part span (given true) (eval_part self.now span e.now)) r) }
    {
        match known_bool(dag, cond) {
            Some(true) => {
                pass_expr(at, e)?;
                Ok(Shape::Bit(cond))
            }
            Some(false) => self.eval(room, dag, state, at, span, e),
            None => {
                let other = not(dag, cond)?;
                let y = self.guarded(room, dag, state, at, span, other, e)?;
                let r = or(dag, cond, y)?;
                Ok(Shape::Bit(r))
            }
        }
    }

    /// A bit, evaluated where a condition holds.
    #[cycle(run)]
    #[inline(never)]
    #[tactic(auto, using(crate::proofs::Sequences::keeping))]
    fn guarded(
        &self,
        room: u32,
        dag: &mut Dag,
        state: &mut SymState,
        at: &mut usize,
        span: Span,
        cond: BoolId,
        e: &PExpr,
    ) -> Result<BoolId, AllocError>
        requires stands { StateStands dag.old self.now.setting.expanded.now.prog state.old }
        requires cond { HasBool dag.old.nodes cond }
        ensures keeps { Keeps dag.old dag.new }
        ensures guarded { IfOk result (λ y. IsGuarded self.now dag.old dag.new state.old state.new at.old at.new span cond (eval_part self.now span e.now) y) }
    {
        let waits = state.fork(&self.setting, dag, cond)?;
        let v = self.eval(room, dag, state, at, span, e)?;
        let Shape::Bit(y) = v else {
            return Err(never());
        };
        let gone = state.turn(waits);
        state.join(&self.setting, dag, cond, gone)?;
        Ok(y)
    }

    /// The bit of a condition. The run fails where its value is none.
    #[cycle(run)]
    #[inline(never)]
    fn test(
        &self,
        room: u32,
        dag: &mut Dag,
        state: &mut SymState,
        at: &mut usize,
        span: Span,
        e: &PExpr,
    ) -> Result<BoolId, AllocError>
        requires stands { StateStands dag.old self.now.setting.expanded.now.prog state.old }
        ensures keeps { Keeps dag.old dag.new }
        ensures tested { IfOk result (λ c. IsTested self.now dag.old dag.new state.old state.new at.old at.new span (eval_part self.now span e.now) c) }
    {
        let v = self.eval(room, dag, state, at, span, e)?;
        let c = bit_of(&self.setting, dag, state, span, &v)?;
        Ok(c)
    }

    /// The one value or the other by a condition.
    #[cycle(run)]
    #[inline(never)]
    fn cond(
        &self,
        room: u32,
        dag: &mut Dag,
        state: &mut SymState,
        at: &mut usize,
        span: Span,
        cond: &PExpr,
        a: &PExpr,
        b: &PExpr,
    ) -> Result<Shape, AllocError>
        requires stands { StateStands dag.old self.now.setting.expanded.now.prog state.old }
        ensures keeps { Keeps dag.old dag.new }
        ensures evaluated { IfOk result (λ r. IsEvaluated self.now dag.old dag.new state.old state.new at.old at.new (cond_part self.now span cond.now a.now b.now) r) }
    {
        let c = self.test(room, dag, state, at, span, cond)?;
        self.pick(room, dag, state, at, span, c, a, b)
    }

    /// The one value or the other by a bit.
    #[cycle(run)]
    #[inline(never)]
    fn pick(
        &self,
        room: u32,
        dag: &mut Dag,
        state: &mut SymState,
        at: &mut usize,
        span: Span,
        cond: BoolId,
        a: &PExpr,
        b: &PExpr,
    ) -> Result<Shape, AllocError>
        requires stands { StateStands dag.old self.now.setting.expanded.now.prog state.old }
        requires cond { HasBool dag.old.nodes cond }
        ensures keeps { Keeps dag.old dag.new }
        ensures evaluated { IfOk result (λ r. IsEvaluatedOn self.now dag.old dag.new state.old state.new at.old at.new (IsBit cond) (pick_part self.now span a.now b.now) r) }
    {
        match known_bool(dag, cond) {
            Some(true) => {
                let r = self.eval(room, dag, state, at, span, a)?;
                pass_expr(at, b)?;
                Ok(r)
            }
            Some(false) => {
                pass_expr(at, a)?;
                self.eval(room, dag, state, at, span, b)
            }
            None => self.both(room, dag, state, at, span, cond, a, b),
        }
    }

    /// Both values, of which one is taken by a bit.
    #[cycle(run)]
    #[inline(never)]
    #[tactic(auto, using(crate::proofs::Sequences::keeping))]
    fn both(
        &self,
        room: u32,
        dag: &mut Dag,
        state: &mut SymState,
        at: &mut usize,
        span: Span,
        cond: BoolId,
        a: &PExpr,
        b: &PExpr,
    ) -> Result<Shape, AllocError>
        requires stands { StateStands dag.old self.now.setting.expanded.now.prog state.old }
        requires cond { HasBool dag.old.nodes cond }
        ensures keeps { Keeps dag.old dag.new }
        ensures evaluated { IfOk result (λ r. IsEvaluatedOn self.now dag.old dag.new state.old state.new at.old at.new (IsBit cond) (pick_part self.now span a.now b.now) r) }
    {
        let waits = state.fork(&self.setting, dag, cond)?;
        let x = self.eval(room, dag, state, at, span, a)?;
        let gone = state.turn(waits);
        let y = self.eval(room, dag, state, at, span, b)?;
        let r = joined(&self.setting, dag, state, cond, gone, &x, &y)?;
        Ok(r)
    }

    /// The values of expressions, from left to right.
    #[cycle(run)]
    #[inline(never)]
    fn all(
        &self,
        room: u32,
        dag: &mut Dag,
        state: &mut SymState,
        at: &mut usize,
        span: Span,
        parts: &[PExpr],
    ) -> Result<List<Shape>, AllocError>
        requires stands { StateStands dag.old self.now.setting.expanded.now.prog state.old }
        ensures keeps { Keeps dag.old dag.new }
        ensures evaluated { IfOk result (λ made. AreEvaluated self.now dag.old dag.new state.old state.new at.old at.new (list_part self.now span parts.now) made) }
    {
        let mut made = List::new(self.setting.alloc);
        for part in parts {
            let one = self.eval(room, dag, state, at, span, part)?;
            made.push(one)?;
        }
        Ok(made)
    }

    /// An array of elements that are written out, at its type.
    #[cycle(run)]
    #[inline(never)]
    fn braces(
        &self,
        room: u32,
        dag: &mut Dag,
        state: &mut SymState,
        at: &mut usize,
        span: Span,
        ty: Option<Ty>,
        parts: &[PExpr],
    ) -> Result<Shape, AllocError>
        requires stands { StateStands dag.old self.now.setting.expanded.now.prog state.old }
        ensures keeps { Keeps dag.old dag.new }
        ensures evaluated { IfOk result (λ r. IsEvaluated self.now dag.old dag.new state.old state.new at.old at.new (braces_part self.now span ty parts.now) r) }
    {
        let made = self.all(room, dag, state, at, span, parts)?;
        let r = apply(
            &self.setting,
            dag,
            state,
            self.bounds.int_bits,
            span,
            Single::Pad(ty),
            Shape::Array(made),
        )?;
        Ok(r)
    }

    /// The function that a call means, where it may be made.
    fn callee(&self, f: u32) -> Option<&Fun>
        ensures { option_copied result ≡ callee self.now f }
    {
        if self.left > 0 && count_of(self.active, f) < self.bounds.inline_amnt as usize {
            return self.setting.expanded.prog.funs.as_slice().get(f as usize);
        }
        None
    }

    /// A call.
    #[cycle(run)]
    #[inline(never)]
    fn call(
        &self,
        room: u32,
        dag: &mut Dag,
        state: &mut SymState,
        at: &mut usize,
        span: Span,
        ty: Option<Ty>,
        f: FunId,
        args: &[PExpr],
    ) -> Result<Shape, AllocError>
        requires stands { StateStands dag.old self.now.setting.expanded.now.prog state.old }
        ensures keeps { Keeps dag.old dag.new }
        ensures evaluated { IfOk result (λ r. IsEvaluated self.now dag.old dag.new state.old state.new at.old at.new (call_part self.now span f args.now) r) }
    {
        let first = *at;
        let values = self.all(room, dag, state, at, span, args)?;
        let r = self.call_with(room, dag, state, span, ty, f.index, first, args, values)?;
        Ok(r)
    }

    /// A call on the values of arguments whose first site has the place `first`. Where the run is seen to go on nowhere, it is
    /// not entered.
    #[cycle(run)]
    #[inline(never)]
    #[tactic(auto, using(crate::proofs::Sequences::keeping))]
    fn call_with(
        &self,
        room: u32,
        dag: &mut Dag,
        state: &mut SymState,
        span: Span,
        ty: Option<Ty>,
        f: u32,
        first: usize,
        args: &[PExpr],
        values: List<Shape>,
    ) -> Result<Shape, AllocError>
        requires stands { StateStands dag.old self.now.setting.expanded.now.prog state.old }
        requires values { AllStand dag.old values }
        ensures keeps { Keeps dag.old dag.new }
        ensures evaluates { IfOk result (λ r. EvaluatesOn self.now.setting dag.old dag.new state.old state.new (λ g e vs. AreWorth g e state.old.heap values vs) r (value_called self.now span f args.now first)) }
    {
        if is_over(dag, state) {
            let r = absent(self.setting.alloc, dag, ty)?;
            return Ok(r);
        }
        match self.callee(f) {
            None => {
                fail_here(&self.setting, dag, state, span)?;
                let r = absent(self.setting.alloc, dag, ty)?;
                Ok(r)
            }
            Some(fun) => {
                let r = self.call_of(room, dag, state, span, f, fun, first, args, values)?;
                Ok(r)
            }
        }
    }

    /// A call of a function that may be made.
    #[cycle(run)]
    #[inline(never)]
    fn call_of(
        &self,
        room: u32,
        dag: &mut Dag,
        state: &mut SymState,
        span: Span,
        f: u32,
        fun: &Fun,
        first: usize,
        args: &[PExpr],
        values: List<Shape>,
    ) -> Result<Shape, AllocError>
        requires stands { StateStands dag.old self.now.setting.expanded.now.prog state.old }
        requires values { AllStand dag.old values }
        requires callee { callee self.now f ≡ Some fun.now }
        ensures keeps { Keeps dag.old dag.new }
        ensures evaluates { IfOk result (λ r. EvaluatesOn self.now.setting dag.old dag.new state.old state.new (λ g e vs. AreWorth g e state.old.heap values vs) r (value_called self.now span f args.now first)) }
    {
        if room == 0 {
            return Err(too_deep());
        }
        pays_nothing(fun)?;
        let start = start_of(&self.setting.expanded.prog, f)?;
        let active = with_function(self.setting.alloc, self.active, f)?;
        let left = self.left.saturating_sub(1);
        let inner = Activation {
            setting: Setting {
                alloc: self.setting.alloc,
                expanded: self.setting.expanded,
                choice: self.setting.choice,
                fun,
            },
            bounds: self.bounds,
            left,
            active: active.as_slice(),
        };
        let ended = self.within(room - 1, dag, state, &inner, start, values)?;
        let r = self.end_call(room - 1, dag, state, span, fun, first, args, ended)?;
        Ok(r)
    }

    /// What a call of a function gives as a value, once the final values of its `ref` parameters have gone back to the
    /// arguments.
    #[cycle(run)]
    #[inline(never)]
    fn end_call(
        &self,
        room: u32,
        dag: &mut Dag,
        state: &mut SymState,
        span: Span,
        fun: &Fun,
        first: usize,
        args: &[PExpr],
        ended: Ended,
    ) -> Result<Shape, AllocError>
        requires stands { StateStands dag.old self.now.setting.expanded.now.prog state.old }
        requires ended { EndedStands dag.old ended }
        ensures keeps { Keeps dag.old dag.new }
        ensures evaluates { IfOk result (λ r. EvaluatesOn self.now.setting dag.old dag.new state.old state.new (λ g e called. EndedIs g e state.old.heap (Some ended) called.result called.refs × HasResult fun.now.result called.result) r (ends self.now span fun.now.params args.now first)) }
    {
        let params = fun.params.as_slice();
        let refs = ended.refs.as_slice();
        self.copy_back(room, dag, state, span, params, first, args, refs)?;
        let r = value_of(self.setting.alloc, dag, fun.result, ended.result)?;
        Ok(r)
    }

    /// Final values go back to the arguments for `ref` parameters, from left to right. The first site of all arguments has the
    /// place `first`.
    #[cycle(run)]
    #[inline(never)]
    fn copy_back(
        &self,
        room: u32,
        dag: &mut Dag,
        state: &mut SymState,
        span: Span,
        params: &[ParamDef],
        first: usize,
        args: &[PExpr],
        refs: &[Shape],
    ) -> Result<(), AllocError>
        requires stands { StateStands dag.old self.now.setting.expanded.now.prog state.old }
        requires refs { AllStand dag.old refs.now }
        ensures keeps { Keeps dag.old dag.new }
        ensures copied { OnOk result (AreCopiedBack self.now dag.old dag.new state.old state.new refs.now (copied_at self.now span params.now args.now first)) }
    {
        if room == 0 {
            return Err(too_deep());
        }
        let Some(param) = first_param(params) else {
            return Ok(());
        };
        let Some(arg) = first_expr(args) else {
            return Ok(());
        };
        self.copy_arg(
            room - 1,
            dag,
            state,
            span,
            param.by_ref,
            param.more,
            first,
            arg.first,
            arg.more,
            refs,
        )?;
        Ok(())
    }

    /// The first of final values goes back to an argument where that is for a `ref` parameter, and then the others to those
    /// behind it.
    #[cycle(run)]
    #[inline(never)]
    #[tactic(auto, using(crate::proofs::Sequences::keeping))]
    fn copy_arg(
        &self,
        room: u32,
        dag: &mut Dag,
        state: &mut SymState,
        span: Span,
        by_ref: bool,
        params: &[ParamDef],
        first: usize,
        arg: &PExpr,
        args: &[PExpr],
        refs: &[Shape],
    ) -> Result<(), AllocError>
        requires stands { StateStands dag.old self.now.setting.expanded.now.prog state.old }
        requires refs { AllStand dag.old refs.now }
        ensures keeps { Keeps dag.old dag.new }
        ensures copied { OnOk result (AreCopiedBack self.now dag.old dag.new state.old state.new refs.now (copied_first self.now span by_ref arg.now params.now args.now first)) }
    {
        let mut at = first;
        if !by_ref {
            pass_expr(&mut at, arg)?;
            self.copy_back(room, dag, state, span, params, at, args, refs)?;
            return Ok(());
        }
        let Some(value) = first_shape(refs) else {
            return Ok(());
        };
        self.copy_one(room, dag, state, &mut at, span, arg, value.first)?;
        self.copy_back(room, dag, state, span, params, at, args, value.more)?;
        Ok(())
    }

    /// A final value goes back to an argument.
    #[cycle(run)]
    #[inline(never)]
    fn copy_one(
        &self,
        room: u32,
        dag: &mut Dag,
        state: &mut SymState,
        at: &mut usize,
        span: Span,
        arg: &PExpr,
        value: &Shape,
    ) -> Result<(), AllocError>
        requires stands { StateStands dag.old self.now.setting.expanded.now.prog state.old }
        requires value { Stands dag.old value.now }
        ensures keeps { Keeps dag.old dag.new }
        ensures copied { OnOk result (IsCopiedBack self.now dag.old dag.new state.old state.new at.old at.new span arg.now value.now) }
    {
        let location = self.target(room, dag, state, at, span, arg)?;
        store(&self.setting, dag, state, span, &location, value)?;
        Ok(())
    }

    /// Runs the body of a call that is made inside this one.
    #[cycle(run)]
    #[inline(never)]
    #[tactic(auto, using(crate::proofs::Sequences::keeping))]
    fn within(
        &self,
        room: u32,
        dag: &mut Dag,
        state: &mut SymState,
        inner: &Activation<'_>,
        start: usize,
        values: List<Shape>,
    ) -> Result<Ended, AllocError>
        requires stands { StateStands dag.old self.now.setting.expanded.now.prog state.old }
        requires values { AllStand dag.old values }
        requires inside { IsInside self.now inner.now }
        ensures keeps { Keeps dag.old dag.new }
        ensures called { IfOk result (λ r. IsCalled self.now inner.now start dag.old dag.new state.old state.new values r) }
    {
        let caller = enter(&self.setting, dag, state, values)?;
        let mut at = start;
        inner.exec_all(room, dag, state, &mut at, inner.setting.fun.body.as_slice())?;
        let ended = leave(&self.setting, dag, state, inner.setting.fun, caller)?;
        Ok(ended)
    }

    /// The value of a pattern: that of the string whose number is the value of its site.
    #[cycle(run)]
    #[inline(never)]
    fn pattern(
        &self,
        room: u32,
        dag: &mut Dag,
        state: &mut SymState,
        at: &mut usize,
        span: Span,
        list: &[PExpr],
    ) -> Result<Shape, AllocError>
        requires stands { StateStands dag.old self.now.setting.expanded.now.prog state.old }
        ensures keeps { Keeps dag.old dag.new }
        ensures evaluated { IfOk result (λ r. IsEvaluated self.now dag.old dag.new state.old state.new at.old at.new (pattern_part self.now span list.now) r) }
    {
        let site = *at;
        pass_site(at)?;
        let r = self.strings(room, dag, state, at, span, site, 0, list)?;
        Ok(r)
    }

    /// The value of one of some strings, whose first has number `k`, by the value of a site. One past the last string
    /// fails.
    #[cycle(run)]
    #[inline(never)]
    fn strings(
        &self,
        room: u32,
        dag: &mut Dag,
        state: &mut SymState,
        at: &mut usize,
        span: Span,
        site: usize,
        k: usize,
        list: &[PExpr],
    ) -> Result<Shape, AllocError>
        requires stands { StateStands dag.old self.now.setting.expanded.now.prog state.old }
        ensures keeps { Keeps dag.old dag.new }
        ensures evaluated { IfOk result (λ r. IsEvaluated self.now dag.old dag.new state.old state.new at.old at.new (strings_part self.now span site k list.now) r) }
    {
        if room == 0 {
            return Err(too_deep());
        }
        let Some(found) = first_expr(list) else {
            return fail_without(&self.setting, dag, state, span);
        };
        let next = number_behind(k)?;
        let here = is_at_most(&self.setting, dag, site, k as u64)?;
        let r = self.string(
            room - 1,
            dag,
            state,
            at,
            span,
            site,
            next,
            here,
            found.first,
            found.more,
        )?;
        Ok(r)
    }

    /// The value of a string where a bit holds, and else of one of those behind it, whose first has number `next`.
    #[cycle(run)]
    #[inline(never)]
    fn string(
        &self,
        room: u32,
        dag: &mut Dag,
        state: &mut SymState,
        at: &mut usize,
        span: Span,
        site: usize,
        next: usize,
        here: BoolId,
        first: &PExpr,
        more: &[PExpr],
    ) -> Result<Shape, AllocError>
        requires stands { StateStands dag.old self.now.setting.expanded.now.prog state.old }
        requires here { HasBool dag.old.nodes here }
        ensures keeps { Keeps dag.old dag.new }
        ensures evaluated { IfOk result (λ r. IsEvaluatedOn self.now dag.old dag.new state.old state.new at.old at.new (IsBit here) (string_part self.now span site next first.now more.now) r) }
    {
        match known_bool(dag, here) {
            Some(true) => {
                let r = self.eval(room, dag, state, at, span, first)?;
                pass_exprs(at, more)?;
                Ok(r)
            }
            Some(false) => {
                pass_expr(at, first)?;
                self.strings(room, dag, state, at, span, site, next, more)
            }
            None => self.both_strings(room, dag, state, at, span, site, next, here, first, more),
        }
    }

    /// The values of a string and of those behind it, of which one is taken by a bit.
    #[cycle(run)]
    #[inline(never)]
    #[tactic(auto, using(crate::proofs::Sequences::keeping))]
    fn both_strings(
        &self,
        room: u32,
        dag: &mut Dag,
        state: &mut SymState,
        at: &mut usize,
        span: Span,
        site: usize,
        next: usize,
        here: BoolId,
        first: &PExpr,
        more: &[PExpr],
    ) -> Result<Shape, AllocError>
        requires stands { StateStands dag.old self.now.setting.expanded.now.prog state.old }
        requires here { HasBool dag.old.nodes here }
        ensures keeps { Keeps dag.old dag.new }
        ensures evaluated { IfOk result (λ r. IsEvaluatedOn self.now dag.old dag.new state.old state.new at.old at.new (IsBit here) (string_part self.now span site next first.now more.now) r) }
    {
        let waits = state.fork(&self.setting, dag, here)?;
        let x = self.eval(room, dag, state, at, span, first)?;
        let gone = state.turn(waits);
        let y = self.strings(room, dag, state, at, span, site, next, more)?;
        let r = joined(&self.setting, dag, state, here, gone, &x, &y)?;
        Ok(r)
    }

    /// What an expression names as the target of an assignment: a variable, a field, or an element of a target.
    #[cycle(run)]
    #[inline(never)]
    fn target(
        &self,
        room: u32,
        dag: &mut Dag,
        state: &mut SymState,
        at: &mut usize,
        span: Span,
        e: &PExpr,
    ) -> Result<Location, AllocError>
        requires stands { StateStands dag.old self.now.setting.expanded.now.prog state.old }
        ensures keeps { Keeps dag.old dag.new }
        ensures located { IfOk result (λ l. IsLocated self.now dag.old dag.new state.old state.new at.old at.new (target_part self.now span e.now) l) }
    {
        if room == 0 {
            return Err(too_deep());
        }
        let room = room - 1;
        match &e.form {
            PEForm::Var { slot, name: _ } => Ok(Location::variable(self.setting.alloc, *slot)),
            PEForm::Member { base, s, field } => {
                self.field_target(room, dag, state, at, span, base.get(), *s, *field)
            }
            PEForm::Index { base, index } => {
                self.index_target(room, dag, state, at, span, base.get(), index.get())
            }
            _ => Err(never()),
        }
    }

    /// A field of the record that a reference is at, as a target.
    #[cycle(run)]
    #[inline(never)]
    fn field_target(
        &self,
        room: u32,
        dag: &mut Dag,
        state: &mut SymState,
        at: &mut usize,
        span: Span,
        base: &PExpr,
        s: StructId,
        field: u32,
    ) -> Result<Location, AllocError>
        requires stands { StateStands dag.old self.now.setting.expanded.now.prog state.old }
        ensures keeps { Keeps dag.old dag.new }
        ensures located { IfOk result (λ l. IsLocated self.now dag.old dag.new state.old state.new at.old at.new (field_target self.now span base.now field) l) }
    {
        let reference = self.eval(room, dag, state, at, span, base)?;
        Ok(Location::field(self.setting.alloc, reference, s, field))
    }

    /// An element of what an expression names, as a target.
    #[cycle(run)]
    #[inline(never)]
    fn index_target(
        &self,
        room: u32,
        dag: &mut Dag,
        state: &mut SymState,
        at: &mut usize,
        span: Span,
        base: &PExpr,
        index: &PExpr,
    ) -> Result<Location, AllocError>
        requires stands { StateStands dag.old self.now.setting.expanded.now.prog state.old }
        ensures keeps { Keeps dag.old dag.new }
        ensures located { IfOk result (λ l. IsLocated self.now dag.old dag.new state.old state.new at.old at.new (index_target self.now span base.now index.now) l) }
    {
        let mut location = self.target(room, dag, state, at, span, base)?;
        let i = self.eval(room, dag, state, at, span, index)?;
        location.push_index(&i)?;
        Ok(location)
    }

    /// An assignment: the parts of the target, the value, and then what is stored. A value is walked once, also where the target is a
    /// pattern.
    #[cycle(run)]
    #[inline(never)]
    #[tactic(auto, using(crate::proofs::Sequences::keeping))]
    fn assign(
        &self,
        room: u32,
        dag: &mut Dag,
        state: &mut SymState,
        at: &mut usize,
        span: Span,
        target: &PExpr,
        value: &PExpr,
    ) -> Result<(), AllocError>
        requires stands { StateStands dag.old self.now.setting.expanded.now.prog state.old }
        ensures keeps { Keeps dag.old dag.new }
        ensures executed { OnOk result (IsExecuted self.now dag.old dag.new state.old state.new at.old at.new (assign_part self.now span target.now value.now)) }
    {
        let place = self.place(room, dag, state, at, span, target)?;
        let v = self.eval(room, dag, state, at, span, value)?;
        assign(&self.setting, dag, state, span, &place, &v)?;
        Ok(())
    }

    /// What the target of an assignment may name: of a pattern what the string does that the value of its site names.
    #[cycle(run)]
    #[inline(never)]
    fn place(
        &self,
        room: u32,
        dag: &mut Dag,
        state: &mut SymState,
        at: &mut usize,
        span: Span,
        e: &PExpr,
    ) -> Result<Place, AllocError>
        requires stands { StateStands dag.old self.now.setting.expanded.now.prog state.old }
        ensures keeps { Keeps dag.old dag.new }
        ensures placed { IfOk result (λ p. IsPlaced self.now dag.old dag.new state.old state.new at.old at.new (target_part self.now span e.now) p) }
    {
        match &e.form {
            PEForm::Pattern(strings) => {
                self.pattern_place(room, dag, state, at, span, strings.as_slice())
            }
            _ => self.target_place(room, dag, state, at, span, e),
        }
    }

    /// What a target that is no pattern names.
    #[cycle(run)]
    #[inline(never)]
    fn target_place(
        &self,
        room: u32,
        dag: &mut Dag,
        state: &mut SymState,
        at: &mut usize,
        span: Span,
        e: &PExpr,
    ) -> Result<Place, AllocError>
        requires stands { StateStands dag.old self.now.setting.expanded.now.prog state.old }
        ensures keeps { Keeps dag.old dag.new }
        ensures placed { IfOk result (λ p. IsPlaced self.now dag.old dag.new state.old state.new at.old at.new (target_part self.now span e.now) p) }
    {
        let location = self.target(room, dag, state, at, span, e)?;
        Ok(Place::One(location))
    }

    /// What a pattern may name as a target.
    #[cycle(run)]
    #[inline(never)]
    fn pattern_place(
        &self,
        room: u32,
        dag: &mut Dag,
        state: &mut SymState,
        at: &mut usize,
        span: Span,
        list: &[PExpr],
    ) -> Result<Place, AllocError>
        requires stands { StateStands dag.old self.now.setting.expanded.now.prog state.old }
        ensures keeps { Keeps dag.old dag.new }
        ensures placed { IfOk result (λ p. IsPlaced self.now dag.old dag.new state.old state.new at.old at.new (pattern_target self.now span list.now) p) }
    {
        let site = *at;
        pass_site(at)?;
        let p = self.places(room, dag, state, at, span, site, 0, list)?;
        Ok(p)
    }

    /// What one of some strings names, whose first has number `k`, by the value of a site. One past the last string fails.
    #[cycle(run)]
    #[inline(never)]
    fn places(
        &self,
        room: u32,
        dag: &mut Dag,
        state: &mut SymState,
        at: &mut usize,
        span: Span,
        site: usize,
        k: usize,
        list: &[PExpr],
    ) -> Result<Place, AllocError>
        requires stands { StateStands dag.old self.now.setting.expanded.now.prog state.old }
        ensures keeps { Keeps dag.old dag.new }
        ensures placed { IfOk result (λ p. IsPlaced self.now dag.old dag.new state.old state.new at.old at.new (strings_target self.now span site k list.now) p) }
    {
        if room == 0 {
            return Err(too_deep());
        }
        let Some(found) = first_expr(list) else {
            return fail_nowhere(&self.setting, dag, state, span);
        };
        let next = number_behind(k)?;
        let here = is_at_most(&self.setting, dag, site, k as u64)?;
        let p = self.string_place(
            room - 1,
            dag,
            state,
            at,
            span,
            site,
            next,
            here,
            found.first,
            found.more,
        )?;
        Ok(p)
    }

    /// What a string names where a bit holds, and else one of those behind it, whose first has number `next`.
    #[cycle(run)]
    #[inline(never)]
    fn string_place(
        &self,
        room: u32,
        dag: &mut Dag,
        state: &mut SymState,
        at: &mut usize,
        span: Span,
        site: usize,
        next: usize,
        here: BoolId,
        first: &PExpr,
        more: &[PExpr],
    ) -> Result<Place, AllocError>
        requires stands { StateStands dag.old self.now.setting.expanded.now.prog state.old }
        requires here { HasBool dag.old.nodes here }
        ensures keeps { Keeps dag.old dag.new }
        ensures placed { IfOk result (λ p. IsPlacedOn self.now dag.old dag.new state.old state.new at.old at.new (IsBit here) (string_target self.now span site next first.now more.now) p) }
    {
        match known_bool(dag, here) {
            Some(true) => {
                let p = self.place(room, dag, state, at, span, first)?;
                pass_exprs(at, more)?;
                Ok(p)
            }
            Some(false) => {
                pass_expr(at, first)?;
                self.places(room, dag, state, at, span, site, next, more)
            }
            None => self.both_places(room, dag, state, at, span, site, next, here, first, more),
        }
    }

    /// What a string and those behind it name, of which one is meant by a bit.
    #[cycle(run)]
    #[inline(never)]
    #[tactic(auto, using(crate::proofs::Sequences::keeping))]
    fn both_places(
        &self,
        room: u32,
        dag: &mut Dag,
        state: &mut SymState,
        at: &mut usize,
        span: Span,
        site: usize,
        next: usize,
        here: BoolId,
        first: &PExpr,
        more: &[PExpr],
    ) -> Result<Place, AllocError>
        requires stands { StateStands dag.old self.now.setting.expanded.now.prog state.old }
        requires here { HasBool dag.old.nodes here }
        ensures keeps { Keeps dag.old dag.new }
        ensures placed { IfOk result (λ p. IsPlacedOn self.now dag.old dag.new state.old state.new at.old at.new (IsBit here) (string_target self.now span site next first.now more.now) p) }
    {
        let waits = state.fork(&self.setting, dag, here)?;
        let x = self.place(room, dag, state, at, span, first)?;
        let gone = state.turn(waits);
        let y = self.places(room, dag, state, at, span, site, next, more)?;
        state.join(&self.setting, dag, here, gone)?;
        let p = Place::either(self.setting.alloc, here, x, y)?;
        Ok(p)
    }

    /// The fields that a new record is given.
    #[cycle(run)]
    #[inline(never)]
    fn fields(
        &self,
        room: u32,
        dag: &mut Dag,
        state: &mut SymState,
        at: &mut usize,
        span: Span,
        given: &[PField],
    ) -> Result<List<Init>, AllocError>
        requires stands { StateStands dag.old self.now.setting.expanded.now.prog state.old }
        ensures keeps { Keeps dag.old dag.new }
        ensures set { IfOk result (λ made. AreSetTo self.now dag.old dag.new state.old state.new at.old at.new (fields_part self.now span given.now) made) }
    {
        let mut made = List::new(self.setting.alloc);
        for x in given {
            let value = self.eval(room, dag, state, at, span, &x.value)?;
            made.push(Init {
                field: x.field,
                value,
            })?;
        }
        Ok(made)
    }

    /// A new record.
    #[cycle(run)]
    #[inline(never)]
    fn new_record(
        &self,
        room: u32,
        dag: &mut Dag,
        state: &mut SymState,
        at: &mut usize,
        span: Span,
        s: StructId,
        given: &[PField],
    ) -> Result<Shape, AllocError>
        requires stands { StateStands dag.old self.now.setting.expanded.now.prog state.old }
        ensures keeps { Keeps dag.old dag.new }
        ensures evaluated { IfOk result (λ r. IsEvaluated self.now dag.old dag.new state.old state.new at.old at.new (new_part self.now span s given.now) r) }
    {
        let inits = self.fields(room, dag, state, at, span, given)?;
        let r = make(&self.setting, dag, state, span, s, inits.as_slice())?;
        Ok(r)
    }

    /// Runs statements one after another, until one returns. The first of their sites has the place `at`, which moves behind
    /// the last. `room` is how many levels of statements and expressions may nest, past which the answer is want of memory. A turn
    /// of a loop, a string of a pattern and an argument whose final value may go back are a level each.
    ///
    /// # Errors
    ///
    /// Want of memory. After a refusal the graph has all nodes that it had (`keeps`); the state and the place are given up
    /// with the walk that holds them.
    #[cycle(run)]
    pub fn exec_all(
        &self,
        room: u32,
        dag: &mut Dag,
        state: &mut SymState,
        at: &mut usize,
        stmts: &[PStmt],
    ) -> Result<(), AllocError>
        requires stands { StateStands dag.old self.now.setting.expanded.now.prog state.old }
        ensures keeps { Keeps dag.old dag.new }
        ensures executes { OnOk result (Executes self.now.setting dag.old dag.new state.old state.new (exec_all_at self.now at.old stmts.now)) }
        ensures place { OnOk result (IsBehind (all_part self.now stmts.now) at.old at.new) }
    {
        for stmt in stmts {
            self.exec(room, dag, state, at, stmt)?;
        }
        Ok(())
    }

    /// One statement.
    #[cycle(run)]
    fn exec(
        &self,
        room: u32,
        dag: &mut Dag,
        state: &mut SymState,
        at: &mut usize,
        stmt: &PStmt,
    ) -> Result<(), AllocError>
        requires stands { StateStands dag.old self.now.setting.expanded.now.prog state.old }
        ensures keeps { Keeps dag.old dag.new }
        ensures executed { OnOk result (IsExecuted self.now dag.old dag.new state.old state.new at.old at.new (stmt_part self.now stmt.now)) }
    {
        if room == 0 {
            return Err(too_deep());
        }
        if is_over(dag, state) {
            return pass_stmt(at, stmt);
        }
        let room = room - 1;
        let span = stmt.span;
        match &stmt.form {
            PForm::Block(stmts) => self.block(room, dag, state, at, stmts.as_slice()),
            PForm::Assert(e) => self.act(room, dag, state, at, span, Act::Assert, e),
            PForm::Assume(e) => self.act(room, dag, state, at, span, Act::Assume, e),
            PForm::Minimize(e) => self.act(room, dag, state, at, span, Act::Minimize, e),
            PForm::Call(e) => self.act(room, dag, state, at, span, Act::Drop, e),
            PForm::Return(e) => match e {
                Some(e) => self.act(room, dag, state, at, span, Act::Return, e),
                None => give_nothing(&self.setting, dag, state),
            },
            PForm::Declare {
                slot,
                name: _,
                ty,
                value,
            } => match value {
                Some(e) => self.act(room, dag, state, at, span, Act::Declare(*slot), e),
                None => declare_zero(&self.setting, dag, state, span, *slot, *ty),
            },
            PForm::Assign { target, value } => {
                self.assign(room, dag, state, at, span, target, value)
            }
            PForm::If { cond, then, other } => {
                self.branches(room, dag, state, at, span, cond, then.get(), other)
            }
            PForm::While { cond, body } => {
                let left = self.bounds.unroll;
                self.turns(room, dag, state, at, span, left, cond, body.get())
            }
            PForm::Repeat { count, copies } => {
                self.repeat(room, dag, state, at, span, count, copies.as_slice())
            }
            PForm::MinRepeat(copies) => {
                self.copies(room, dag, state, at, span, copies.as_slice())
            }
            PForm::Reorder(stmts) => self.reorder(room, dag, state, at, span, stmts.as_slice()),
        }
    }

    /// A statement of one expression.
    #[cycle(run)]
    #[inline(never)]
    fn act(
        &self,
        room: u32,
        dag: &mut Dag,
        state: &mut SymState,
        at: &mut usize,
        span: Span,
        what: Act,
        e: &PExpr,
    ) -> Result<(), AllocError>
        requires stands { StateStands dag.old self.now.setting.expanded.now.prog state.old }
        ensures keeps { Keeps dag.old dag.new }
        ensures executed { OnOk result (IsExecuted self.now dag.old dag.new state.old state.new at.old at.new (act_part self.now span what e.now)) }
    {
        let v = self.eval(room, dag, state, at, span, e)?;
        perform(&self.setting, dag, state, span, what, v)?;
        Ok(())
    }

    /// A block. Its variables leave the scope at its end.
    #[cycle(run)]
    #[inline(never)]
    fn block(
        &self,
        room: u32,
        dag: &mut Dag,
        state: &mut SymState,
        at: &mut usize,
        stmts: &[PStmt],
    ) -> Result<(), AllocError>
        requires stands { StateStands dag.old self.now.setting.expanded.now.prog state.old }
        ensures keeps { Keeps dag.old dag.new }
        ensures executed { OnOk result (IsExecuted self.now dag.old dag.new state.old state.new at.old at.new (all_part self.now stmts.now)) }
    {
        let count = state.frame.slots.len();
        self.exec_all(room, dag, state, at, stmts)?;
        state.forget(count);
        Ok(())
    }

    /// The one statement or the other by a condition.
    #[cycle(run)]
    #[inline(never)]
    fn branches(
        &self,
        room: u32,
        dag: &mut Dag,
        state: &mut SymState,
        at: &mut usize,
        span: Span,
        cond: &PExpr,
        a: &PStmt,
        other: &Option<Boxed<PStmt>>,
    ) -> Result<(), AllocError>
        requires stands { StateStands dag.old self.now.setting.expanded.now.prog state.old }
        ensures keeps { Keeps dag.old dag.new }
        ensures executed { OnOk result (IsExecuted self.now dag.old dag.new state.old state.new at.old at.new (branch_part self.now span cond.now a.now other.now)) }
    {
        let c = self.test(room, dag, state, at, span, cond)?;
        self.ways(room, dag, state, at, span, c, a, other)
    }

    /// The one statement or the other by a bit.
    #[cycle(run)]
    #[inline(never)]
    fn ways(
        &self,
        room: u32,
        dag: &mut Dag,
        state: &mut SymState,
        at: &mut usize,
        span: Span,
        cond: BoolId,
        a: &PStmt,
        other: &Option<Boxed<PStmt>>,
    ) -> Result<(), AllocError>
        requires stands { StateStands dag.old self.now.setting.expanded.now.prog state.old }
        requires cond { HasBool dag.old.nodes cond }
        ensures keeps { Keeps dag.old dag.new }
        ensures executed { OnOk result (IsExecutedOn self.now dag.old dag.new state.old state.new at.old at.new (IsBit cond) (ways_part self.now span a.now other.now)) }
    {
        match known_bool(dag, cond) {
            Some(true) => {
                self.exec(room, dag, state, at, a)?;
                pass_other(at, other)
            }
            Some(false) => {
                pass_stmt(at, a)?;
                self.other(room, dag, state, at, other)
            }
            None => self.both_ways(room, dag, state, at, span, cond, a, other),
        }
    }

    /// Both ways of a branch by a bit.
    #[cycle(run)]
    #[inline(never)]
    #[tactic(auto, using(crate::proofs::Sequences::keeping))]
    fn both_ways(
        &self,
        room: u32,
        dag: &mut Dag,
        state: &mut SymState,
        at: &mut usize,
        span: Span,
        cond: BoolId,
        a: &PStmt,
        other: &Option<Boxed<PStmt>>,
    ) -> Result<(), AllocError>
        requires stands { StateStands dag.old self.now.setting.expanded.now.prog state.old }
        requires cond { HasBool dag.old.nodes cond }
        ensures keeps { Keeps dag.old dag.new }
        ensures executed { OnOk result (IsExecutedOn self.now dag.old dag.new state.old state.new at.old at.new (IsBit cond) (ways_part self.now span a.now other.now)) }
    {
        let waits = state.fork(&self.setting, dag, cond)?;
        self.exec(room, dag, state, at, a)?;
        let gone = state.turn(waits);
        self.other(room, dag, state, at, other)?;
        state.join(&self.setting, dag, cond, gone)?;
        Ok(())
    }

    /// A statement that may not be there.
    #[cycle(run)]
    #[inline(never)]
    fn other(
        &self,
        room: u32,
        dag: &mut Dag,
        state: &mut SymState,
        at: &mut usize,
        other: &Option<Boxed<PStmt>>,
    ) -> Result<(), AllocError>
        requires stands { StateStands dag.old self.now.setting.expanded.now.prog state.old }
        ensures keeps { Keeps dag.old dag.new }
        ensures executed { OnOk result (IsExecuted self.now dag.old dag.new state.old state.new at.old at.new (other_part self.now other.now)) }
    {
        match other {
            Some(s) => self.exec(room, dag, state, at, s.get()),
            None => Ok(()),
        }
    }

    /// A loop of which so many turns are left. It is unrolled no further once the run is seen to go on nowhere.
    #[cycle(run)]
    #[inline(never)]
    fn turns(
        &self,
        room: u32,
        dag: &mut Dag,
        state: &mut SymState,
        at: &mut usize,
        span: Span,
        left: u32,
        cond: &PExpr,
        body: &PStmt,
    ) -> Result<(), AllocError>
        requires stands { StateStands dag.old self.now.setting.expanded.now.prog state.old }
        ensures keeps { Keeps dag.old dag.new }
        ensures executed { OnOk result (IsExecuted self.now dag.old dag.new state.old state.new at.old at.new (turns_part self.now span left cond.now body.now)) }
    {
        if is_over(dag, state) {
            return pass_loop(at, cond, body);
        }
        let start = *at;
        let c = self.test(room, dag, state, at, span, cond)?;
        self.decided(room, dag, state, at, span, left, start, c, cond, body)
    }

    /// A turn of a loop, where the bit of its condition holds. All turns begin with the site at `start`.
    #[cycle(run)]
    #[inline(never)]
    fn decided(
        &self,
        room: u32,
        dag: &mut Dag,
        state: &mut SymState,
        at: &mut usize,
        span: Span,
        left: u32,
        start: usize,
        bit: BoolId,
        cond: &PExpr,
        body: &PStmt,
    ) -> Result<(), AllocError>
        requires stands { StateStands dag.old self.now.setting.expanded.now.prog state.old }
        requires bit { HasBool dag.old.nodes bit }
        requires start { IsBehind (eval_part self.now span cond.now) start at.old }
        ensures keeps { Keeps dag.old dag.new }
        ensures executed { OnOk result (IsExecutedOn self.now dag.old dag.new state.old state.new at.old at.new (IsBit bit) (decided_part self.now span left start cond.now body.now)) }
    {
        match known_bool(dag, bit) {
            Some(true) => self.turn(room, dag, state, at, span, left, start, cond, body),
            Some(false) => pass_stmt(at, body),
            None => self.may_turn(room, dag, state, at, span, left, start, bit, cond, body),
        }
    }

    /// A turn of a loop by a bit, and where it does not hold the way out.
    #[cycle(run)]
    #[inline(never)]
    #[tactic(auto, using(crate::proofs::Sequences::keeping))]
    fn may_turn(
        &self,
        room: u32,
        dag: &mut Dag,
        state: &mut SymState,
        at: &mut usize,
        span: Span,
        left: u32,
        start: usize,
        bit: BoolId,
        cond: &PExpr,
        body: &PStmt,
    ) -> Result<(), AllocError>
        requires stands { StateStands dag.old self.now.setting.expanded.now.prog state.old }
        requires bit { HasBool dag.old.nodes bit }
        requires start { IsBehind (eval_part self.now span cond.now) start at.old }
        ensures keeps { Keeps dag.old dag.new }
        ensures executed { OnOk result (IsExecutedOn self.now dag.old dag.new state.old state.new at.old at.new (IsBit bit) (decided_part self.now span left start cond.now body.now)) }
    {
        let waits = state.fork(&self.setting, dag, bit)?;
        self.turn(room, dag, state, at, span, left, start, cond, body)?;
        let gone = state.turn(waits);
        state.join(&self.setting, dag, bit, gone)?;
        Ok(())
    }

    /// The body of a loop, and the turns that are left after it. It fails where none is left.
    #[cycle(run)]
    #[inline(never)]
    fn turn(
        &self,
        room: u32,
        dag: &mut Dag,
        state: &mut SymState,
        at: &mut usize,
        span: Span,
        left: u32,
        start: usize,
        cond: &PExpr,
        body: &PStmt,
    ) -> Result<(), AllocError>
        requires stands { StateStands dag.old self.now.setting.expanded.now.prog state.old }
        requires start { IsBehind (eval_part self.now span cond.now) start at.old }
        ensures keeps { Keeps dag.old dag.new }
        ensures executed { OnOk result (IsExecuted self.now dag.old dag.new state.old state.new at.old at.new (turn_part self.now span left start cond.now body.now)) }
    {
        if left == 0 {
            fail_here(&self.setting, dag, state, span)?;
            return pass_stmt(at, body);
        }
        if room == 0 {
            return Err(too_deep());
        }
        let room = room - 1;
        self.exec(room, dag, state, at, body)?;
        let mut from = start;
        self.turns(room, dag, state, &mut from, span, left - 1, cond, body)
    }

    /// A repeat, which is by a constant where its count is no hole.
    #[cycle(run)]
    #[inline(never)]
    fn repeat(
        &self,
        room: u32,
        dag: &mut Dag,
        state: &mut SymState,
        at: &mut usize,
        span: Span,
        count: &PExpr,
        copies: &[PStmt],
    ) -> Result<(), AllocError>
        requires stands { StateStands dag.old self.now.setting.expanded.now.prog state.old }
        ensures keeps { Keeps dag.old dag.new }
        ensures executed { OnOk result (IsExecuted self.now dag.old dag.new state.old state.new at.old at.new (repeat_part self.now count.now copies.now)) }
    {
        if is_hole(count) {
            return self.copies(room, dag, state, at, span, copies);
        }
        self.block(room, dag, state, at, copies)
    }

    /// As many of the copies as the value of the site before them says.
    #[cycle(run)]
    #[inline(never)]
    fn copies(
        &self,
        room: u32,
        dag: &mut Dag,
        state: &mut SymState,
        at: &mut usize,
        span: Span,
        copies: &[PStmt],
    ) -> Result<(), AllocError>
        requires stands { StateStands dag.old self.now.setting.expanded.now.prog state.old }
        ensures keeps { Keeps dag.old dag.new }
        ensures executed { OnOk result (IsExecuted self.now dag.old dag.new state.old state.new at.old at.new (copies_part self.now copies.now)) }
    {
        let site = *at;
        pass_site(at)?;
        self.some_copies(room, dag, state, at, span, site, copies)
    }

    /// As many of the copies as the value of a site says.
    #[cycle(run)]
    #[inline(never)]
    fn some_copies(
        &self,
        room: u32,
        dag: &mut Dag,
        state: &mut SymState,
        at: &mut usize,
        span: Span,
        site: usize,
        copies: &[PStmt],
    ) -> Result<(), AllocError>
        requires stands { StateStands dag.old self.now.setting.expanded.now.prog state.old }
        ensures keeps { Keeps dag.old dag.new }
        ensures executed { OnOk result (IsExecuted self.now dag.old dag.new state.old state.new at.old at.new (some_part self.now site copies.now)) }
    {
        let mut k = 0;
        for stmt in copies {
            self.copy(room, dag, state, at, span, site, k, stmt)?;
            k += 1;
        }
        Ok(())
    }

    /// A copy, where the value of a site is above its number.
    #[cycle(run)]
    #[inline(never)]
    fn copy(
        &self,
        room: u32,
        dag: &mut Dag,
        state: &mut SymState,
        at: &mut usize,
        span: Span,
        site: usize,
        k: usize,
        stmt: &PStmt,
    ) -> Result<(), AllocError>
        requires stands { StateStands dag.old self.now.setting.expanded.now.prog state.old }
        ensures keeps { Keeps dag.old dag.new }
        ensures executed { OnOk result (IsExecuted self.now dag.old dag.new state.old state.new at.old at.new (copy_part self.now site k stmt.now)) }
    {
        let here = exceeds(&self.setting, dag, site, k as u64)?;
        self.ways(room, dag, state, at, span, here, stmt, &None)?;
        Ok(())
    }

    /// Statements in the order that the sites before them give.
    #[cycle(run)]
    #[inline(never)]
    fn reorder(
        &self,
        room: u32,
        dag: &mut Dag,
        state: &mut SymState,
        at: &mut usize,
        span: Span,
        stmts: &[PStmt],
    ) -> Result<(), AllocError>
        requires stands { StateStands dag.old self.now.setting.expanded.now.prog state.old }
        ensures keeps { Keeps dag.old dag.new }
        ensures executed { OnOk result (IsExecuted self.now dag.old dag.new state.old state.new at.old at.new (reorder_part self.now stmts.now)) }
    {
        let setting = &self.setting;
        let first = *at;
        let count = stmts.len();
        let columns = orders(
            setting.alloc,
            dag,
            setting.expanded,
            first,
            count,
            setting.choice,
        )?;
        pass_digits(at, count)?;
        self.ordered(room, dag, state, at, span, first, stmts, columns.as_slice())?;
        Ok(())
    }

    /// Statements in the order that the sites from `first` on give.
    #[cycle(run)]
    #[inline(never)]
    fn ordered(
        &self,
        room: u32,
        dag: &mut Dag,
        state: &mut SymState,
        at: &mut usize,
        span: Span,
        first: usize,
        stmts: &[PStmt],
        columns: &[List<BoolId>],
    ) -> Result<(), AllocError>
        requires stands { StateStands dag.old self.now.setting.expanded.now.prog state.old }
        requires columns { AreOrders self.now dag.old first (length stmts.now) columns.now }
        ensures keeps { Keeps dag.old dag.new }
        ensures executed { OnOk result (IsExecuted self.now dag.old dag.new state.old state.new at.old at.new (ordered_part self.now first stmts.now)) }
    {
        let start = *at;
        self.all_turns(room, dag, state, span, first, start, stmts, columns)?;
        pass_stmts(at, stmts)
    }

    /// All turns of statements whose first site has the place `start`.
    #[cycle(run)]
    #[inline(never)]
    fn all_turns(
        &self,
        room: u32,
        dag: &mut Dag,
        state: &mut SymState,
        span: Span,
        first: usize,
        start: usize,
        stmts: &[PStmt],
        columns: &[List<BoolId>],
    ) -> Result<(), AllocError>
        requires stands { StateStands dag.old self.now.setting.expanded.now.prog state.old }
        requires columns { AreOrders self.now dag.old first (length stmts.now) columns.now }
        ensures keeps { Keeps dag.old dag.new }
        ensures executes { OnOk result (Executes self.now.setting dag.old dag.new state.old state.new (λ e. (ordered_part self.now first stmts.now e).at start)) }
    {
        for n in 0..stmts.len() {
            let mut from = start;
            self.one_turn(room, dag, state, &mut from, span, first, n, stmts, columns)?;
        }
        Ok(())
    }

    /// One turn: of the statements the one whose turn it is.
    #[cycle(run)]
    #[inline(never)]
    fn one_turn(
        &self,
        room: u32,
        dag: &mut Dag,
        state: &mut SymState,
        at: &mut usize,
        span: Span,
        first: usize,
        n: usize,
        stmts: &[PStmt],
        columns: &[List<BoolId>],
    ) -> Result<(), AllocError>
        requires stands { StateStands dag.old self.now.setting.expanded.now.prog state.old }
        requires columns { AreOrders self.now dag.old first (length stmts.now) columns.now }
        requires turn { n < length stmts.now }
        ensures keeps { Keeps dag.old dag.new }
        ensures executed { OnOk result (IsExecuted self.now dag.old dag.new state.old state.new at.old at.new (one_turn_part self.now first (length stmts.now) n stmts.now)) }
    {
        let mut k = 0;
        for stmt in stmts {
            let node = turn_node(columns, k, n);
            self.ways(room, dag, state, at, span, node, stmt, &None)?;
            k += 1;
        }
        Ok(())
    }
}
