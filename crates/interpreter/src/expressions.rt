//! What an expression that is entered does first.

ghost use Rattle.std.specs.Prelude.{IfOk, OnErr, length};
ghost use Rattle.core_tree.specs.declared.expr.Expr.{out-Expr};
ghost use Rattle.heap_arena.specs.declared.cell.Cell.TheVariants as value;
ghost use Rattle.evaluation.specs.declared.outcome.Outcome.TheVariants as outcome;
ghost use Rattle.evaluation.specs.World.{gives};
ghost use Rattle.evaluation.specs.Values.{literal};
ghost use Rattle.evaluation.specs.Objects.{computed};
ghost use Rattle.evaluation.specs.Evaluate.{expr_node, this_value};
ghost use Rattle.interpreter.specs.Setting.{point, HasFields};
ghost use Rattle.interpreter.specs.Weights.{entry_weight};
ghost use Rattle.interpreter.specs.Moves.{Goes, Leaves, FailsIn};

use crate::calls::MESSAGE_PLACE;
use crate::frame::{Focus, ValueFrame};
use crate::running::Running;
use core_tree::{Expr, OutOfMemory, Text};
use evaluation::Outcome;
use heap_arena::{Cell, Store};
use value_operators::literal;

impl<'p, S: Store + Drop> Running<'p, S> {
    /// Goes on with the parts of an expression, from left to right (JLS 15.7).
    pub fn enter_expr(&mut self, e: &'p Expr) -> Result<Focus<'p>, OutOfMemory>
        requires fields { HasFields (point S.state self.old) }
        ensures ok { IfOk result (Goes S.state (λ p part. expr_node p part (out-Expr e.now)) self.old self.new) }
        ensures light { IfOk result (Leaves S.state
            (entry_weight (length self.old.program.now.classes)) self.old self.new) }
        ensures err { OnErr result (FailsIn S.state self.old self.new) }
    {
        match e {
            Expr::Int(n) => self.value(Cell::Int(*n)),
            Expr::Bool(b) => self.value(Cell::Bool(*b)),
            Expr::Text(text) => self.text(text),
            Expr::Null => self.value(Cell::Null),
            Expr::This => self.this_value(),
            Expr::Local(at) => self.read_local(*at),
            Expr::Field(e, at) => self.value_of(e, ValueFrame::Field(*at)),
            Expr::Length(e) => self.value_of(e, ValueFrame::Length),
            Expr::Element(e, i) => self.value_of(e, ValueFrame::ElementIndex(i)),
            Expr::TextLength(e) => self.value_of(e, ValueFrame::TextLength),
            Expr::TextEquals(e, f) => self.value_of(e, ValueFrame::EqualsRight(f)),
            Expr::Message(e) => self.value_of(e, ValueFrame::Field(MESSAGE_PLACE)),
            Expr::Static(m, given, _) => self.static_call(*m, given),
            Expr::Chosen(e, selector, given, _) => self.receiver(e, *selector, given),
            Expr::Super(m, given, _) => self.super_call(*m, given),
            Expr::New(k, given) => self.new_object(*k, given),
            Expr::NewBuilt(class, message) => self.new_built_in(*class, message),
            Expr::NewArray(elements, e) => self.value_of(e, ValueFrame::NewArray(elements)),
            Expr::Unary(op, e) => self.value_of(e, ValueFrame::Unary(*op)),
            Expr::Binary(op, e, f) => self.value_of(e, ValueFrame::BinaryRight(*op, f)),
            Expr::And(e, f) => self.value_of(e, ValueFrame::AndRight(f)),
            Expr::Or(e, f) => self.value_of(e, ValueFrame::OrRight(f)),
            Expr::Cond(e, f, g) => self.value_of(e, ValueFrame::Cond(f, g)),
            Expr::Cast(to, e) => self.value_of(e, ValueFrame::Cast(to)),
            Expr::Is(of, e) => self.value_of(e, ValueFrame::Is(of)),
            Expr::Concat(e, f) => self.value_of(e, ValueFrame::ConcatRight(f)),
        }
    }

    /// A value.
    pub fn value(&mut self, v: Cell<u32>) -> Result<Focus<'p>, OutOfMemory>
        ensures ok { IfOk result (Goes S.state (λ p part. gives (outcome.Value v)) self.old self.new) }
        ensures light { IfOk result (Leaves S.state 0 self.old self.new) }
        ensures err { OnErr result (FailsIn S.state self.old self.new) }
    {
        Ok(Focus::Answer(Outcome::Value(v)))
    }

    // A literal text.
    fn text(&mut self, text: &Text) -> Result<Focus<'p>, OutOfMemory>
        requires fields { HasFields (point S.state self.old) }
        ensures ok { IfOk result (Goes S.state
            (λ p part. computed p (literal (value.Text text.now))) self.old self.new) }
        ensures light { IfOk result (Leaves S.state 0 self.old self.new) }
        ensures err { OnErr result (FailsIn S.state self.old self.new) }
    {
        let came = literal(text)?;
        self.come_to(came)
    }

    // The object that `this` is (JLS 15.8.3).
    fn this_value(&mut self) -> Result<Focus<'p>, OutOfMemory>
        ensures ok { IfOk result (Goes S.state (λ p part w. this_value w.this w) self.old self.new) }
        ensures light { IfOk result (Leaves S.state 0 self.old self.new) }
        ensures err { OnErr result (FailsIn S.state self.old self.new) }
    {
        match self.this {
            Some(o) => Ok(Focus::Answer(Outcome::Value(Cell::Ref(o)))),
            None => Ok(Focus::Answer(Outcome::Stuck)),
        }
    }
}
