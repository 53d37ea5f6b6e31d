//! Operators, and what evaluates only one of its parts (JLS 15.23 to 15.25).

ghost use Rattle.std.specs.Prelude.{IfOk, OnErr, true, false};
ghost use Rattle.heap_arena.specs.declared.cell.Cell.TheVariants as value;
ghost use Rattle.evaluation.specs.declared.outcome.Outcome.TheVariants as outcome;
ghost use Rattle.evaluation.specs.World.{gives};
ghost use Rattle.evaluation.specs.Evaluate.{choose};
ghost use Rattle.interpreter.specs.Moves.{Goes, Leaves, FailsIn};

use crate::frame::Focus;
use crate::running::Running;
use core_tree::{Expr, OutOfMemory};
use evaluation::Outcome;
use heap_arena::{Cell, Store};
use sqlite_items::Boxed;

impl<'p, S: Store + Drop> Running<'p, S> {
    /// `&&` after its left operand.
    pub fn and_then(
        &mut self,
        left: Cell<u32>,
        right: &'p Boxed<Expr>,
    ) -> Result<Focus<'p>, OutOfMemory>
        ensures ok { IfOk result (Goes S.state
            (λ p part. choose left (part.expr right.entry.now) (gives (outcome.Value (value.Bool false))))
            self.old self.new) }
        ensures light { IfOk result (Leaves S.state 0 self.old self.new) }
        ensures err { OnErr result (FailsIn S.state self.old self.new) }
    {
        match left {
            Cell::Bool(true) => self.expr(right),
            Cell::Bool(false) => self.end(Outcome::Value(Cell::Bool(false))),
            Cell::Int(_) | Cell::Null | Cell::Ref(_) | Cell::Text(_) => self.end(Outcome::Stuck),
        }
    }

    /// `||` after its left operand.
    pub fn or_else(
        &mut self,
        left: Cell<u32>,
        right: &'p Boxed<Expr>,
    ) -> Result<Focus<'p>, OutOfMemory>
        ensures ok { IfOk result (Goes S.state
            (λ p part. choose left (gives (outcome.Value (value.Bool true))) (part.expr right.entry.now))
            self.old self.new) }
        ensures light { IfOk result (Leaves S.state 0 self.old self.new) }
        ensures err { OnErr result (FailsIn S.state self.old self.new) }
    {
        match left {
            Cell::Bool(true) => self.end(Outcome::Value(Cell::Bool(true))),
            Cell::Bool(false) => self.expr(right),
            Cell::Int(_) | Cell::Null | Cell::Ref(_) | Cell::Text(_) => self.end(Outcome::Stuck),
        }
    }

    /// `?:` after its condition.
    pub fn choose_value(
        &mut self,
        condition: Cell<u32>,
        where_true: &'p Boxed<Expr>,
        where_false: &'p Boxed<Expr>,
    ) -> Result<Focus<'p>, OutOfMemory>
        ensures ok { IfOk result (Goes S.state
            (λ p part. choose condition (part.expr where_true.entry.now) (part.expr where_false.entry.now))
            self.old self.new) }
        ensures light { IfOk result (Leaves S.state 0 self.old self.new) }
        ensures err { OnErr result (FailsIn S.state self.old self.new) }
    {
        match condition {
            Cell::Bool(true) => self.expr(where_true),
            Cell::Bool(false) => self.expr(where_false),
            Cell::Int(_) | Cell::Null | Cell::Ref(_) | Cell::Text(_) => self.end(Outcome::Stuck),
        }
    }
}
