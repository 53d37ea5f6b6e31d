//! Statements in order, choices and loops.

ghost use Rattle.std.specs.Prelude.{IfOk, OnErr};
ghost use Rattle.evaluation.specs.declared.outcome.Outcome.TheVariants as outcome;
ghost use Rattle.evaluation.specs.World.{gives};
ghost use Rattle.evaluation.specs.Calls.{block};
ghost use Rattle.evaluation.specs.Evaluate.{choose};
ghost use Rattle.evaluation.specs.Execute.{after_body, body_of, turn};
ghost use Rattle.interpreter.specs.Frames.{loop_of, repeated};
ghost use Rattle.interpreter.specs.Moves.{Goes, Turns, Leaves, FailsIn};
ghost use Rattle.interpreter.specs.Functions.{chosen, next_turn};

use crate::frame::{Focus, Frame, LoopFrame, LoopParts, NormalFrame, ValueFrame};
use crate::running::Running;
use core_tree::{Expr, OutOfMemory, Stmt};
use evaluation::Outcome;
use heap_arena::{Cell, Store};
use sqlite_items::Boxed;

impl<'p, S: Store + Drop> Running<'p, S> {
    /// Statements in order, as long as each ends normally (JLS 14.2).
    pub fn block(&mut self, statements: &'p [Stmt]) -> Result<Focus<'p>, OutOfMemory>
        ensures ok { IfOk result (Goes S.state (λ p part. block p part statements.entry.now) self.old self.new) }
        ensures light { IfOk result (Leaves S.state 0 self.old self.new) }
        ensures err { OnErr result (FailsIn S.state self.old self.new) }
    {
        match statements {
            [] => Ok(Focus::Answer(Outcome::Normal)),
            [first, others @ ..] => {
                self.push(Frame::Normal(NormalFrame::Rest(others)))?;
                Ok(Focus::Stmt(first))
            }
        }
    }

    /// The one of two statements that a condition chooses (JLS 14.9).
    pub fn choose(
        &mut self,
        condition: Cell<u32>,
        body: &'p Boxed<Stmt>,
        other: &'p Option<Boxed<Stmt>>,
    ) -> Result<Focus<'p>, OutOfMemory>
        ensures ok { IfOk result (Goes S.state
            (λ p part. chosen part condition body.entry.now other.entry.now) self.old self.new) }
        ensures light { IfOk result (Leaves S.state 0 self.old self.new) }
        ensures err { OnErr result (FailsIn S.state self.old self.new) }
    {
        match condition {
            Cell::Bool(true) => self.stmt(body),
            Cell::Bool(false) => match other {
                Some(other) => self.stmt(other),
                None => self.end(Outcome::Normal),
            },
            Cell::Int(_) | Cell::Null | Cell::Ref(_) | Cell::Text(_) => self.end(Outcome::Stuck),
        }
    }

    /// A turn of a loop: its condition, and where that is true its body (JLS 14.12, 14.14).
    pub fn turn(&mut self, parts: LoopParts<'p>) -> Result<Focus<'p>, OutOfMemory>
        ensures ok { IfOk result (Goes S.state (λ p part. turn p part (loop_of parts.entry)) self.old self.new) }
        ensures light { IfOk result (Leaves S.state 0 self.old self.new) }
        ensures err { OnErr result (FailsIn S.state self.old self.new) }
    {
        match parts {
            LoopParts::While(test, _) => self.value_of(test, ValueFrame::LoopTest(parts)),
            LoopParts::For(test, _, _) => match test {
                Some(test) => self.value_of(test, ValueFrame::LoopTest(parts)),
                None => self.body(parts),
            },
        }
    }

    /// The body of a loop, and what comes after it.
    pub fn body(&mut self, parts: LoopParts<'p>) -> Result<Focus<'p>, OutOfMemory>
        ensures ok { IfOk result (Goes S.state (λ p part. body_of p part (loop_of parts.entry)) self.old self.new) }
        ensures light { IfOk result (Leaves S.state 0 self.old self.new) }
        ensures err { OnErr result (FailsIn S.state self.old self.new) }
    {
        self.push(Frame::Loop(LoopFrame::Body(parts)))?;
        match parts {
            LoopParts::While(_, body) => Ok(Focus::Stmt(body.get())),
            LoopParts::For(_, _, body) => Ok(Focus::Stmt(body.get())),
        }
    }

    /// Goes on with the value of a loop's condition.
    pub fn tested(
        &mut self,
        parts: LoopParts<'p>,
        condition: Cell<u32>,
    ) -> Result<Focus<'p>, OutOfMemory>
        ensures ok { IfOk result (Goes S.state
            (λ p part. choose condition (λ w. body_of p part (loop_of parts.entry) w) (gives outcome.Normal))
            self.old self.new) }
        ensures light { IfOk result (Leaves S.state 0 self.old self.new) }
        ensures err { OnErr result (FailsIn S.state self.old self.new) }
    {
        match condition {
            Cell::Bool(true) => self.body(parts),
            Cell::Bool(false) => self.end(Outcome::Normal),
            Cell::Int(_) | Cell::Null | Cell::Ref(_) | Cell::Text(_) => self.end(Outcome::Stuck),
        }
    }

    /// What comes after the body of a loop: the updates and a further turn, unless it was left (JLS 14.14 to 14.16).
    pub fn after_body(&mut self, parts: LoopParts<'p>, o: Outcome) -> Result<Focus<'p>, OutOfMemory>
        ensures ok { IfOk result (Turns S.state
            (λ p part w. after_body p part (loop_of parts.entry) (gives o w)) self.old self.new) }
        ensures light { IfOk result (Leaves S.state 2 self.old self.new) }
        ensures err { OnErr result (FailsIn S.state self.old self.new) }
    {
        match o {
            Outcome::Normal | Outcome::Continue => self.next_turn(parts),
            Outcome::Break => self.leave_loop(Outcome::Normal),
            Outcome::Value(_)
            | Outcome::Return(_)
            | Outcome::Throw(_)
            | Outcome::Spent
            | Outcome::Full(_)
            | Outcome::Stuck => self.leave_loop(o),
        }
    }

    // A loop that ended so.
    fn leave_loop(&mut self, o: Outcome) -> Result<Focus<'p>, OutOfMemory>
        ensures ok { IfOk result (Turns S.state (λ p part. gives o) self.old self.new) }
        ensures light { IfOk result (Leaves S.state 0 self.old self.new) }
        ensures err { OnErr result (FailsIn S.state self.old self.new) }
    {
        Ok(Focus::Answer(o))
    }

    // A further turn of a loop.
    fn again(&mut self, parts: LoopParts<'p>) -> Result<Focus<'p>, OutOfMemory>
        ensures ok { IfOk result (Turns S.state (λ p part. part.loop (loop_of parts.entry)) self.old self.new) }
        ensures light { IfOk result (Leaves S.state 2 self.old self.new) }
        ensures err { OnErr result (FailsIn S.state self.old self.new) }
    {
        Ok(Focus::Loop(parts))
    }

    // The updates of a loop and a further turn.
    fn next_turn(&mut self, parts: LoopParts<'p>) -> Result<Focus<'p>, OutOfMemory>
        ensures ok { IfOk result (Turns S.state (λ p part. next_turn p part (loop_of parts.entry)) self.old self.new) }
        ensures light { IfOk result (Leaves S.state 2 self.old self.new) }
        ensures err { OnErr result (FailsIn S.state self.old self.new) }
    {
        match parts {
            LoopParts::While(_, _) => self.again(parts),
            LoopParts::For(_, updates, _) => match updates.as_slice() {
                [] => self.again(parts),
                [first, others @ ..] => {
                    self.push(Frame::Loop(LoopFrame::Updates(parts)))?;
                    self.push(Frame::Normal(NormalFrame::Rest(others)))?;
                    Ok(Focus::Stmt(first))
                }
            },
        }
    }

    /// Goes on with the outcome of a part of a loop.
    pub fn resume_loop(
        &mut self,
        frame: LoopFrame<'p>,
        o: Outcome,
    ) -> Result<Focus<'p>, OutOfMemory>
        ensures ok { IfOk result (Turns S.state
            (λ p part w. repeated p part frame.entry (gives o w)) self.old self.new) }
        ensures light { IfOk result (Leaves S.state 2 self.old self.new) }
        ensures err { OnErr result (FailsIn S.state self.old self.new) }
    {
        match frame {
            LoopFrame::Body(parts) => self.after_body(parts, o),
            LoopFrame::Updates(parts) => match o {
                Outcome::Normal => self.again(parts),
                Outcome::Value(_)
                | Outcome::Return(_)
                | Outcome::Break
                | Outcome::Continue
                | Outcome::Throw(_)
                | Outcome::Spent
                | Outcome::Full(_)
                | Outcome::Stuck => self.leave_loop(o),
            },
        }
    }
}
