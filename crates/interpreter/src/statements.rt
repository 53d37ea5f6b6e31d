//! What a statement that is entered does first.

ghost use Rattle.std.specs.Prelude.{IfOk, OnErr, length};
ghost use Rattle.core_tree.specs.declared.stmt.Stmt.{out-Stmt};
ghost use Rattle.evaluation.specs.declared.outcome.Outcome.TheVariants as outcome;
ghost use Rattle.evaluation.specs.World.{gives};
ghost use Rattle.evaluation.specs.Execute.{assign, stmt_node, update_place, with_target};
ghost use Rattle.interpreter.specs.Setting.{point, HasFields};
ghost use Rattle.interpreter.specs.Weights.{entry_weight};
ghost use Rattle.interpreter.specs.Moves.{Goes, Leaves, FailsIn};
ghost use Rattle.interpreter.specs.Functions.{declared, first_then, print_of, return_of};

use crate::calls::default_of;
use crate::frame::{Focus, Frame, LoopParts, NormalFrame, ValueFrame};
use crate::running::Running;
use core_tree::{Expr, OutOfMemory, Stmt, Target, Ty, UpOp};
use evaluation::{Outcome, Place};
use heap_arena::Store;
use sqlite_items::{Boxed, Items};

impl<'p, S: Store + Drop> Running<'p, S> {
    /// Goes on with the parts of a statement (JLS 14).
    pub fn enter_stmt(&mut self, s: &'p Stmt) -> Result<Focus<'p>, OutOfMemory>
        requires fields { HasFields (point S.state self.old) }
        ensures ok { IfOk result (Goes S.state (λ p part. stmt_node p part (out-Stmt s.now)) self.old self.new) }
        ensures light { IfOk result (Leaves S.state
            (entry_weight (length self.old.program.now.classes)) self.old self.new) }
        ensures err { OnErr result (FailsIn S.state self.old self.new) }
    {
        match s {
            Stmt::Empty => self.end(Outcome::Normal),
            Stmt::Block(statements) => self.block(statements.as_slice()),
            Stmt::Declare(at, ty, value) => self.declare(*at, ty, value),
            Stmt::Assign(to, e) => self.assign(to, e),
            Stmt::Update(to, op, operand) => self.update_target(to, *op, operand),
            Stmt::Eval(e) => self.value_of(e, ValueFrame::Discard),
            Stmt::Print(line, e) => self.enter_print(*line, e),
            Stmt::If(e, body, other) => self.value_of(e, ValueFrame::If(body, other)),
            Stmt::While(test, body) => self.turn(LoopParts::While(test, body)),
            Stmt::DoWhile(body, test) => self.body(LoopParts::While(test, body)),
            Stmt::For(first, test, updates, body) => {
                self.first_then(first, LoopParts::For(test, updates, body))
            }
            Stmt::Return(e) => self.enter_return(e),
            Stmt::Break => self.end(Outcome::Break),
            Stmt::Continue => self.end(Outcome::Continue),
            Stmt::Throw(e) => self.value_of(e, ValueFrame::Throw),
            Stmt::Try(body, catches, last) => self.enter_try(body, catches, last),
        }
    }

    /// A part that is an expression.
    pub fn expr(&mut self, e: &'p Boxed<Expr>) -> Result<Focus<'p>, OutOfMemory>
        ensures ok { IfOk result (Goes S.state (λ p part. part.expr e.entry.now) self.old self.new) }
        ensures light { IfOk result (Leaves S.state 0 self.old self.new) }
        ensures err { OnErr result (FailsIn S.state self.old self.new) }
    {
        Ok(Focus::Expr(e.get()))
    }

    /// A part that is a statement.
    pub fn stmt(&mut self, s: &'p Boxed<Stmt>) -> Result<Focus<'p>, OutOfMemory>
        ensures ok { IfOk result (Goes S.state (λ p part. part.stmt s.entry.now) self.old self.new) }
        ensures light { IfOk result (Leaves S.state 0 self.old self.new) }
        ensures err { OnErr result (FailsIn S.state self.old self.new) }
    {
        Ok(Focus::Stmt(s.get()))
    }

    /// A part that ended so.
    pub fn end(&mut self, o: Outcome) -> Result<Focus<'p>, OutOfMemory>
        ensures ok { IfOk result (Goes S.state (λ p part. gives o) self.old self.new) }
        ensures light { IfOk result (Leaves S.state 0 self.old self.new) }
        ensures err { OnErr result (FailsIn S.state self.old self.new) }
    {
        Ok(Focus::Answer(o))
    }

    // Declares a local, with its value or the default of its type.
    fn declare(
        &mut self,
        at: u32,
        ty: &Ty,
        e: &'p Option<Boxed<Expr>>,
    ) -> Result<Focus<'p>, OutOfMemory>
        ensures ok { IfOk result (Goes S.state (λ p part. declared part at ty.now e.entry.now) self.old self.new) }
        ensures light { IfOk result (Leaves S.state 0 self.old self.new) }
        ensures err { OnErr result (FailsIn S.state self.old self.new) }
    {
        match e {
            Some(e) => self.value_of(e, ValueFrame::WriteLocal(at)),
            None => self.write_local(at, default_of(ty)),
        }
    }

    // The parts of an assignment's target, the value, and then the store (JLS 15.26.1).
    fn assign(&mut self, to: &'p Target, e: &'p Boxed<Expr>) -> Result<Focus<'p>, OutOfMemory>
        ensures ok { IfOk result (Goes S.state (λ p part. assign p part to.entry.now e.entry.now) self.old self.new) }
        ensures light { IfOk result (Leaves S.state 0 self.old self.new) }
        ensures err { OnErr result (FailsIn S.state self.old self.new) }
    {
        match to {
            Target::Local(at) => self.value_of(e, ValueFrame::WriteLocal(*at)),
            Target::Field(o, at) => self.value_of(o, ValueFrame::AssignField(*at, e)),
            Target::Element(a, i) => self.value_of(a, ValueFrame::AssignIndex(i, e)),
        }
    }

    // The parts of an updated place (JLS 15.26.2).
    fn update_target(
        &mut self,
        to: &'p Target,
        op: UpOp,
        e: &'p Option<Boxed<Expr>>,
    ) -> Result<Focus<'p>, OutOfMemory>
        requires fields { HasFields (point S.state self.old) }
        ensures ok { IfOk result (Goes S.state
            (λ p part. with_target p part to.entry.now (update_place p part op e.entry.now)) self.old self.new) }
        ensures light { IfOk result (Leaves S.state 0 self.old self.new) }
        ensures err { OnErr result (FailsIn S.state self.old self.new) }
    {
        match to {
            Target::Local(at) => self.update_place(op, e, Place::Local(*at)),
            Target::Field(o, at) => self.value_of(o, ValueFrame::UpdateField(*at, op, e)),
            Target::Element(a, i) => self.value_of(a, ValueFrame::UpdateIndex(i, op, e)),
        }
    }

    // A print of a value, or of a line feed alone.
    fn enter_print(
        &mut self,
        line: bool,
        e: &'p Option<Boxed<Expr>>,
    ) -> Result<Focus<'p>, OutOfMemory>
        ensures ok { IfOk result (Goes S.state (λ p part. print_of part line e.entry.now) self.old self.new) }
        ensures light { IfOk result (Leaves S.state 0 self.old self.new) }
        ensures err { OnErr result (FailsIn S.state self.old self.new) }
    {
        match e {
            Some(e) => self.value_of(e, ValueFrame::Print(line)),
            None => self.print_nothing(line),
        }
    }

    // A `return`, with a value where it has one (JLS 14.17).
    fn enter_return(&mut self, e: &'p Option<Boxed<Expr>>) -> Result<Focus<'p>, OutOfMemory>
        ensures ok { IfOk result (Goes S.state (λ p part. return_of part e.entry.now) self.old self.new) }
        ensures light { IfOk result (Leaves S.state 0 self.old self.new) }
        ensures err { OnErr result (FailsIn S.state self.old self.new) }
    {
        match e {
            Some(e) => self.value_of(e, ValueFrame::Return),
            None => self.end(Outcome::Return(None)),
        }
    }

    // The statements before the first turn of a loop, and then the loop.
    fn first_then(
        &mut self,
        first: &'p Items<Stmt>,
        parts: LoopParts<'p>,
    ) -> Result<Focus<'p>, OutOfMemory>
        ensures ok { IfOk result (Goes S.state
            (λ p part. first_then p part first.entry.now parts.entry) self.old self.new) }
        ensures light { IfOk result (Leaves S.state 2 self.old self.new) }
        ensures err { OnErr result (FailsIn S.state self.old self.new) }
    {
        self.push(Frame::Normal(NormalFrame::FirstTurn(parts)))?;
        self.block(first.as_slice())
    }
}
