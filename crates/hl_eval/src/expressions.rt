//! The value of an expression, form by form.

ghost use Rattle.std.specs.Prelude.{◌≡◌, ◌<◌, ◌^◌, [], ◌∷◌, length, map, option_map, IfOk, IsTrue, is_some};
ghost use Rattle.hl_data.specs.declared.typed.TypedArm.{out-TypedArm};
ghost use Rattle.hl_meaning.specs.Answer.{stuck, and_then};
ghost use Rattle.hl_meaning.specs.Loops.{folded, counted, is_counter_width};
ghost use Rattle.hl_meaning.specs.Mean.{all_in, converted, loop_over, counting_loop, block_of, last_of, matched, taken, or_after, mean_statement, mean_arm};
ghost use Rattle.hl_data.specs.declared.value.HlValue.TheViews.{out-HlValue};
ghost use Rattle.hl_eval.specs.Here.{witness_in, functions_in, mean_in, gathered_of, ForFunction};
ghost use Rattle.hl_eval.specs.Outcome.{AnswersMeaning, Goes};
ghost use Rattle.hl_eval.specs.Turned.{turned};
ghost use Rattle.hl_eval.specs.Uses.{items_in, use_of};

use crate::conversion::convert;
use crate::copy::copy_value;
use crate::evaluator::Evaluator;
use crate::fault::EvalFault;
use crate::jet_calls::call_jet;
use crate::literals::literal;
use crate::patterns::{bind, bind_parameters, bind_side};
use crate::scope::{Scope, value_of};
use crate::turn::{Turn, turned};
use crate::uses::{Gathering, Items, Use, loop_items, used};
use crate::values::{number, takes, three, two};
use hl_data::{
    HlValue, HlValues, TypedArm, TypedArms, TypedExpr, TypedExprs, TypedForm, TypedStatement,
    TypedStatements,
};
use hl_syntax::HlType;
use lists::{Boxed, Text};

impl Evaluator<'_> {
    /// The value of an expression.
    #[cycle(evaluation)]
    pub(crate) fn expression(&self, e: &TypedExpr, scope: &mut Scope) -> Result<HlValue, EvalFault>
        ensures value { AnswersMeaning (mean_in self.now e.now scope.old) result }
        ensures scope { IfOk result (λ _. scope.new ≡ scope.old) }
    {
        match &e.form {
            TypedForm::Block(statements, last) => self.block(statements, last, scope),
            TypedForm::Match(part, arms) => self.choice(part.get(), arms, scope),
            TypedForm::Tuple(parts) => self.gathered(Gathering::Tuple, parts, scope),
            TypedForm::Array(items) => self.gathered(Gathering::Array, items, scope),
            TypedForm::List(items) => self.gathered(Gathering::List, items, scope),
            TypedForm::Assert(part) => self.used(Use::Assert, part.get(), scope),
            TypedForm::Dbg(part) => self.used(Use::Dbg, part.get(), scope),
            TypedForm::Panic => Err(EvalFault::Failed),
            TypedForm::Jet(name, parts) => self.gathered(Gathering::Jet(name), parts, scope),
            TypedForm::Witness(name) => self.witness_of(name),
            TypedForm::Value(value) => Ok(copy_value(self.alloc, value)?),
            TypedForm::Into(from, part) => self.converted(from, &e.kind, part.get(), scope),
            TypedForm::Unwrap(part) => self.used(Use::Unwrap, part.get(), scope),
            TypedForm::UnwrapLeft(_, part) => self.used(Use::UnwrapLeft, part.get(), scope),
            TypedForm::UnwrapRight(_, part) => self.used(Use::UnwrapRight, part.get(), scope),
            TypedForm::IsNone(_, part) => self.used(Use::IsNone, part.get(), scope),
            TypedForm::Fold(name, _, items, start) => {
                self.loop_over(Items::List, name, items.get(), start.get(), scope)
            }
            TypedForm::ArrayFold(name, _, items, start) => {
                self.loop_over(Items::Array, name, items.get(), start.get(), scope)
            }
            TypedForm::ForWhile(name, start, context) => {
                self.counting(name, start.get(), context.get(), scope)
            }
            TypedForm::Left(part) => self.used(Use::Left, part.get(), scope),
            TypedForm::Right(part) => self.used(Use::Right, part.get(), scope),
            TypedForm::Some(part) => self.used(Use::Some, part.get(), scope),
            TypedForm::Nothing => Ok(HlValue::Nothing),
            TypedForm::True => Ok(HlValue::Bool(true)),
            TypedForm::False => Ok(HlValue::Bool(false)),
            TypedForm::Literal(word) => literal(&e.kind, word),
            TypedForm::Call(name, parts) => self.gathered(Gathering::Call(name), parts, scope),
            TypedForm::Name(name) => value_of(self.alloc, scope, name),
        }
    }

    /// What comes of the value of an expression in a use.
    #[cycle(evaluation)]
    fn used(&self, how: Use, part: &TypedExpr, scope: &mut Scope) -> Result<HlValue, EvalFault>
        ensures value { AnswersMeaning (and_then (mean_in self.now part.now scope.old) (use_of how)) result }
        ensures scope { IfOk result (λ _. scope.new ≡ scope.old) }
    {
        let value = self.expression(part, scope)?;
        used(self.alloc, how, value)
    }

    /// The value of an expression of one type as a value of another.
    #[cycle(evaluation)]
    fn converted(
        &self,
        from: &HlType,
        to: &HlType,
        part: &TypedExpr,
        scope: &mut Scope,
    ) -> Result<HlValue, EvalFault>
        ensures value { AnswersMeaning
            (and_then (mean_in self.now part.now scope.old) (converted from.now to.now)) result }
        ensures scope { IfOk result (λ _. scope.new ≡ scope.old) }
    {
        let value = self.expression(part, scope)?;
        convert(self.alloc, &value, from, to)
    }

    /// What comes of the values of expressions.
    #[cycle(evaluation)]
    fn gathered(
        &self,
        how: Gathering,
        parts: &TypedExprs,
        scope: &mut Scope,
    ) -> Result<HlValue, EvalFault>
        ensures value { AnswersMeaning
            (and_then (all_in (map (mean_in self.now) parts.now) scope.old) (gathered_of self.now how.entry))
            result }
        ensures scope { IfOk result (λ _. scope.new ≡ scope.old) }
    {
        let values = self.parts(parts, scope)?;
        match how {
            Gathering::Tuple => Ok(HlValue::Tuple(values)),
            Gathering::Array => Ok(HlValue::Array(values)),
            Gathering::List => Ok(HlValue::List(values)),
            Gathering::Jet(name) => call_jet(self.alloc, self.jets, name, values),
            Gathering::Call(name) => {
                let place = self.place_of(name)?;
                self.run(place, values)
            }
        }
    }

    /// The value of a loop over items.
    #[cycle(evaluation)]
    fn loop_over(
        &self,
        from: Items,
        name: &Text,
        items: &TypedExpr,
        start: &TypedExpr,
        scope: &mut Scope,
    ) -> Result<HlValue, EvalFault>
        ensures value { AnswersMeaning
            (loop_over (functions_in self.now) (witness_in self.now) (items_in from) name.now
            (mean_in self.now items.now) (mean_in self.now start.now) scope.old)
            result }
        ensures scope { IfOk result (λ _. scope.new ≡ scope.old) }
    {
        let place = self.place_of(name)?;
        let items = self.expression(items, scope)?;
        let items = loop_items(from, items)?;
        let start = self.expression(start, scope)?;
        self.fold(place, items, start)
    }

    /// The value of a loop with a counter.
    #[cycle(evaluation)]
    fn counting(
        &self,
        name: &Text,
        start: &TypedExpr,
        context: &TypedExpr,
        scope: &mut Scope,
    ) -> Result<HlValue, EvalFault>
        ensures value { AnswersMeaning
            (counting_loop (functions_in self.now) (witness_in self.now) name.now
            (mean_in self.now start.now) (mean_in self.now context.now) scope.old)
            result }
        ensures scope { IfOk result (λ _. scope.new ≡ scope.old) }
    {
        let place = self.place_of(name)?;
        let width = self.counter_width_of(place)?;
        let start = Boxed::new(self.alloc, self.expression(start, scope)?)?;
        let context = self.expression(context, scope)?;
        self.for_while(place, width, start, &context)
    }

    /// The values of expressions, from the first.
    #[cycle(evaluation)]
    fn parts(&self, parts: &TypedExprs, scope: &mut Scope) -> Result<HlValues, EvalFault>
        ensures values { AnswersMeaning (all_in (map (mean_in self.now) parts.now) scope.old) result }
        ensures scope { IfOk result (λ _. scope.new ≡ scope.old) }
    {
        let mut values = HlValues::new(self.alloc);
        'parts: for part in parts.as_slice() {
            values.push(self.expression(part, scope)?)?;
        }
        Ok(values)
    }

    /// The value of a block.
    #[cycle(evaluation)]
    fn block(
        &self,
        statements: &TypedStatements,
        last: &Option<Boxed<TypedExpr>>,
        scope: &mut Scope,
    ) -> Result<HlValue, EvalFault>
        ensures value { AnswersMeaning
            (block_of (map (mean_statement (functions_in self.now) (witness_in self.now)) statements.now)
            (option_map (mean_in self.now) last.now) scope.old)
            result }
        ensures scope { IfOk result (λ _. scope.new ≡ scope.old) }
    {
        let mark = scope.len();
        'statements: for statement in statements.as_slice() {
            self.statement(statement, scope)?;
        }
        let value = self.last(last, scope)?;
        scope.truncate(mark);
        Ok(value)
    }

    /// The value of a block's last expression; the tuple of nothing where there is none.
    #[cycle(evaluation)]
    fn last(&self, last: &Option<Boxed<TypedExpr>>, scope: &mut Scope) -> Result<HlValue, EvalFault>
        ensures value { AnswersMeaning (last_of (option_map (mean_in self.now) last.now) scope.old) result }
        ensures scope { IfOk result (λ _. scope.new ≡ scope.old) }
    {
        match last {
            Some(e) => self.expression(e.get(), scope),
            None => Ok(HlValue::Tuple(HlValues::new(self.alloc))),
        }
    }

    /// Does a statement.
    #[cycle(evaluation)]
    fn statement(&self, statement: &TypedStatement, scope: &mut Scope) -> Result<(), EvalFault>
        ensures { Goes (mean_statement (functions_in self.now) (witness_in self.now) statement.now)
            scope.old result scope.new }
    {
        match statement {
            TypedStatement::Let { pattern, value, .. } => {
                let value = self.expression(value, scope)?;
                bind(scope, pattern, value)
            }
            TypedStatement::Plain(e) => {
                let _ = self.expression(e, scope)?;
                Ok(())
            }
        }
    }

    /// The value of a match: that of the first arm whose side takes the value.
    #[cycle(evaluation)]
    fn choice(
        &self,
        part: &TypedExpr,
        arms: &TypedArms,
        scope: &mut Scope,
    ) -> Result<HlValue, EvalFault>
        ensures value { AnswersMeaning
            (and_then (mean_in self.now part.now scope.old) (λ v.
            matched (map (mean_arm (functions_in self.now) (witness_in self.now)) arms.now)
            (out-HlValue v) scope.old))
            result }
        ensures scope { IfOk result (λ _. scope.new ≡ scope.old) }
    {
        let value = self.expression(part, scope)?;
        'arms: for arm in arms.as_slice() {
            if takes(&arm.side, &value) {
                return self.arm(arm, value, scope);
            }
        }
        Err(EvalFault::NoAnswer)
    }

    /// The value of an arm whose side takes a value.
    #[cycle(evaluation)]
    fn arm(&self, arm: &TypedArm, value: HlValue, scope: &mut Scope) -> Result<HlValue, EvalFault>
        requires { IsTrue (is_some (taken (out-TypedArm arm.now).side (out-HlValue value))) }
        ensures value { AnswersMeaning
            (or_after (taken (out-TypedArm arm.now).side (out-HlValue value))
            (mean_in self.now (out-TypedArm arm.now).body) stuck scope.old)
            result }
        ensures scope { IfOk result (λ _. scope.new ≡ scope.old) }
    {
        let mark = scope.len();
        bind_side(scope, &arm.side, value)?;
        let made = self.expression(&arm.body, scope)?;
        scope.truncate(mark);
        Ok(made)
    }

    /// What the function at a place gives for arguments.
    #[cycle(evaluation)]
    pub(crate) fn run(&self, place: usize, arguments: HlValues) -> Result<HlValue, EvalFault>
        requires { place < length self.now.functions.now }
        ensures { ForFunction self.now place (λ f. AnswersMeaning (f.run arguments) result) }
    {
        let function = &self.functions[place];
        let before = Evaluator {
            alloc: self.alloc,
            jets: self.jets,
            functions: &self.functions[..place],
            witness: self.witness,
        };
        let mut scope = Scope::new(self.alloc);
        bind_parameters(&mut scope, &function.params, arguments)?;
        before.expression(&function.body, &mut scope)
    }

    /// The function at a place over each item from the first, with what was made of those before it.
    #[cycle(evaluation)]
    fn fold(&self, place: usize, items: HlValues, start: HlValue) -> Result<HlValue, EvalFault>
        requires { place < length self.now.functions.now }
        ensures { ForFunction self.now place (λ f. AnswersMeaning (folded f.run items start) result) }
    {
        let mut made = start;
        'items: for item in items.into_vec() {
            made = self.run(place, two(self.alloc, item, made)?)?;
        }
        Ok(made)
    }

    /// The function at a place again and again, with a counter from 0, until it gives `Left` or the counter ends.
    #[cycle(evaluation)]
    fn for_while(
        &self,
        place: usize,
        width: u16,
        start: Boxed<HlValue>,
        context: &HlValue,
    ) -> Result<HlValue, EvalFault>
        requires place { place < length self.now.functions.now }
        requires width { IsTrue (is_counter_width width) }
        ensures { ForFunction self.now place (λ f.
            AnswersMeaning (counted f.run width context.now (2 ^ width) 0 start) result) }
    {
        let mut made = start;
        'turns: for counter in 0..1u32 << width {
            let counter = number(width, counter)?;
            match self.turn(place, made.into_inner(), context, counter)? {
                Turn::Last(last) => return Ok(HlValue::Left(last)),
                Turn::Next(next) => made = next,
            }
        }
        Ok(HlValue::Right(made))
    }

    /// One turn of a loop.
    #[cycle(evaluation)]
    fn turn(
        &self,
        place: usize,
        made: HlValue,
        context: &HlValue,
        counter: HlValue,
    ) -> Result<Turn, EvalFault>
        requires { place < length self.now.functions.now }
        ensures { ForFunction self.now place (λ f. AnswersMeaning
            (and_then (f.run (made ∷ context.now ∷ counter ∷ [])) (λ v. turned (out-HlValue v)))
            result) }
    {
        let context = copy_value(self.alloc, context)?;
        turned(self.run(place, three(self.alloc, made, context, counter)?)?)
    }
}
