//! Steps, from the first to the last.

ghost use Rattle.std.specs.Prelude.{◌≡◌, ◌∷◌, ◌≤◌, IfOk, OnErr};
ghost use Rattle.interpreter.specs.declared.frame.Focus.TheVariants as focus;
ghost use Rattle.interpreter.specs.Setting.{point, HasFields};
ghost use Rattle.interpreter.specs.Moves.{FailsIn};
ghost use Rattle.interpreter.specs.Points.{Drives, Resumes, Steps, StepsAlone};

use crate::frame::{EarlyEnd, Focus, Frame, LoopParts, Next};
use crate::running::Running;
use core_tree::{Expr, OutOfMemory, Stmt};
use evaluation::Outcome;
use heap_arena::{Cell, Store};
use pb_io::{Sink, put_all};
use sqlite_items::Items;

impl<'p, S: Store + Drop> Running<'p, S> {
    /// Steps to the end.
    pub fn drive<O: Sink>(&mut self, start: Focus<'p>, sink: &mut O) -> Result<Outcome, EarlyEnd>
        requires fields { HasFields (point S.state self.old) }
        requires within { self.old.taken ≤ self.old.budget }
        ensures { Drives (point S.state self.old) start.entry (O.state sink.old)
            (point S.state self.new) (O.state sink.new) result }
    {
        let mut x = start;
        loop {
            match self.step(x, sink)? {
                Next::On(y) => x = y,
                Next::End(o) => return Ok(o),
            }
        }
    }

    // One step of the machine. Only the entry of a node takes a step of the budget, before anything else of it.
    fn step<O: Sink>(&mut self, x: Focus<'p>, sink: &mut O) -> Result<Next<'p>, EarlyEnd>
        requires fields { HasFields (point S.state self.old) }
        requires within { self.old.taken ≤ self.old.budget }
        ensures { Steps (point S.state self.old) x.entry (O.state sink.old)
            (point S.state self.new) (O.state sink.new) result }
    {
        match x {
            Focus::Expr(e) => self.step_expr(e),
            Focus::Stmt(s) => self.step_stmt(s),
            Focus::Loop(parts) => self.step_loop(parts),
            Focus::Construct(k, o, got, levels) => self.step_construct(k, o, got, levels),
            Focus::Print(bytes) => self.step_print(bytes, sink),
            Focus::Answer(o) => self.step_answer(o),
        }
    }

    // A further turn of a loop.
    fn step_loop(&mut self, parts: LoopParts<'p>) -> Result<Next<'p>, EarlyEnd>
        requires fields { HasFields (point S.state self.old) }
        requires within { self.old.taken ≤ self.old.budget }
        ensures { StepsAlone (point S.state self.old) (focus.Loop parts.entry)
            (point S.state self.new) result }
    {
        Ok(Next::On(self.turn(parts)?))
    }

    // The run of a constructor.
    fn step_construct(
        &mut self,
        k: u32,
        o: u32,
        got: Items<Cell<u32>>,
        levels: usize,
    ) -> Result<Next<'p>, EarlyEnd>
        requires fields { HasFields (point S.state self.old) }
        requires within { self.old.taken ≤ self.old.budget }
        ensures { StepsAlone (point S.state self.old) (focus.Construct k o got levels)
            (point S.state self.new) result }
    {
        Ok(Next::On(self.construct(k, o, got, levels)?))
    }

    // A print, after which the part has ended normally.
    fn step_print<O: Sink>(&mut self, bytes: Vec<u8>, sink: &mut O) -> Result<Next<'p>, EarlyEnd>
        requires within { self.old.taken ≤ self.old.budget }
        ensures { Steps (point S.state self.old) (focus.Print bytes) (O.state sink.old)
            (point S.state self.new) (O.state sink.new) result }
    {
        put_all(sink, bytes.as_slice())?;
        Ok(Next::On(Focus::Answer(Outcome::Normal)))
    }

    // The entry of an expression.
    fn step_expr(&mut self, e: &'p Expr) -> Result<Next<'p>, EarlyEnd>
        requires fields { HasFields (point S.state self.old) }
        requires within { self.old.taken ≤ self.old.budget }
        ensures { StepsAlone (point S.state self.old) (focus.Expr e.entry)
            (point S.state self.new) result }
    {
        if self.taken == self.budget {
            return Ok(Next::End(Outcome::Spent));
        }
        self.taken += 1;
        Ok(Next::On(self.enter_expr(e)?))
    }

    // The entry of a statement.
    fn step_stmt(&mut self, s: &'p Stmt) -> Result<Next<'p>, EarlyEnd>
        requires fields { HasFields (point S.state self.old) }
        requires within { self.old.taken ≤ self.old.budget }
        ensures { StepsAlone (point S.state self.old) (focus.Stmt s.entry)
            (point S.state self.new) result }
    {
        if self.taken == self.budget {
            return Ok(Next::End(Outcome::Spent));
        }
        self.taken += 1;
        Ok(Next::On(self.enter_stmt(s)?))
    }

    // Goes on with the outcome of a part, or ends with it.
    fn step_answer(&mut self, o: Outcome) -> Result<Next<'p>, EarlyEnd>
        requires fields { HasFields (point S.state self.old) }
        requires within { self.old.taken ≤ self.old.budget }
        ensures { StepsAlone (point S.state self.old) (focus.Answer o)
            (point S.state self.new) result }
    {
        match self.frames.pop() {
            None => Ok(Next::End(o)),
            Some(frame) => Ok(Next::On(self.resume(frame, o)?)),
        }
    }

    // Goes on with the outcome of the part above a frame that was taken off.
    fn resume(&mut self, frame: Frame<'p>, o: Outcome) -> Result<Focus<'p>, OutOfMemory>
        requires fields { HasFields (point S.state self.old) }
        requires within { self.old.taken ≤ self.old.budget }
        ensures ok { IfOk result (Resumes frame.entry o
            (point S.state self.old) (point S.state self.new)) }
        ensures err { OnErr result (FailsIn S.state self.old self.new) }
    {
        match frame {
            Frame::Value(x) => self.resume_value(x, o),
            Frame::Call(x) => self.resume_call(x, o),
            Frame::Loop(x) => self.resume_loop(x, o),
            Frame::Normal(x) => self.resume_normal(x, o),
            Frame::Plain(x) => self.resume_plain(x, o),
        }
    }
}
