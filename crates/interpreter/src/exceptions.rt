//! `try`, `catch` and `finally` (JLS 14.20).

ghost use Rattle.std.specs.Prelude.{◌≡◌, IfOk, OnErr};
ghost use Rattle.std.specs.Option.{option_copied};
ghost use Rattle.evaluation.specs.World.{gives};
ghost use Rattle.evaluation.specs.Execute.{catch_object, catching, finally, finally_if, handled, handler, keeping};
ghost use Rattle.interpreter.specs.Moves.{Goes, Leaves, FailsIn, Adds};

use crate::frame::{Focus, Frame, PlainFrame};
use crate::running::Running;
use class_order::is_subclass;
use core_tree::{Catch, OutOfMemory, Program, Stmt};
use evaluation::Outcome;
use heap_arena::{Cell, Store};
use object_cells::class_at;
use sqlite_items::{Boxed, Items};

impl<'p, S: Store + Drop> Running<'p, S> {
    /// A block with its `catch` clauses and its `finally` block.
    pub fn enter_try(
        &mut self,
        body: &'p Boxed<Stmt>,
        catches: &'p Items<Catch>,
        last: &'p Option<Boxed<Stmt>>,
    ) -> Result<Focus<'p>, OutOfMemory>
        ensures ok { IfOk result (Goes S.state
            (λ p part w. finally_if p part last.entry.now
            (catching p part catches.entry.now (part.stmt body.entry.now w)))
            self.old self.new) }
        ensures light { IfOk result (Leaves S.state 0 self.old self.new) }
        ensures err { OnErr result (FailsIn S.state self.old self.new) }
    {
        match last {
            Some(last) => self.enter_finally(body, catches, last),
            None => self.enter_catches(body, catches),
        }
    }

    // A block with its `catch` clauses, and a `finally` block.
    fn enter_finally(
        &mut self,
        body: &'p Boxed<Stmt>,
        catches: &'p Items<Catch>,
        last: &'p Boxed<Stmt>,
    ) -> Result<Focus<'p>, OutOfMemory>
        ensures ok { IfOk result (Goes S.state
            (λ p part w. finally (part.stmt last.entry.now)
            (catching p part catches.entry.now (part.stmt body.entry.now w)))
            self.old self.new) }
        ensures light { IfOk result (Leaves S.state 0 self.old self.new) }
        ensures err { OnErr result (FailsIn S.state self.old self.new) }
    {
        self.push(Frame::Plain(PlainFrame::Finally(last)))?;
        self.enter_catches(body, catches)
    }

    // A block with its `catch` clauses.
    fn enter_catches(
        &mut self,
        body: &'p Boxed<Stmt>,
        catches: &'p Items<Catch>,
    ) -> Result<Focus<'p>, OutOfMemory>
        ensures ok { IfOk result (Goes S.state
            (λ p part w. catching p part catches.entry.now (part.stmt body.entry.now w)) self.old self.new) }
        ensures light { IfOk result (Adds S.state 2 self.old self.new) }
        ensures err { OnErr result (FailsIn S.state self.old self.new) }
    {
        self.push(Frame::Plain(PlainFrame::Catching(catches)))?;
        Ok(Focus::Stmt(body.get()))
    }

    /// An outcome goes to the first `catch` that takes it.
    pub fn catch(&mut self, catches: &'p Items<Catch>, o: Outcome) -> Result<Focus<'p>, OutOfMemory>
        ensures ok { IfOk result (Goes S.state
            (λ p part w. catching p part catches.entry.now (gives o w)) self.old self.new) }
        ensures light { IfOk result (Leaves S.state 0 self.old self.new) }
        ensures err { OnErr result (FailsIn S.state self.old self.new) }
    {
        match o {
            Outcome::Throw(thrown) => self.catch_object(catches, thrown),
            Outcome::Value(_)
            | Outcome::Normal
            | Outcome::Return(_)
            | Outcome::Break
            | Outcome::Continue
            | Outcome::Spent
            | Outcome::Full(_)
            | Outcome::Stuck => self.end(o),
        }
    }

    // An exception goes to the first `catch` that takes it.
    fn catch_object(&mut self, catches: &'p Items<Catch>, o: u32) -> Result<Focus<'p>, OutOfMemory>
        ensures ok { IfOk result (Goes S.state (λ p part. catch_object p part catches.entry.now o) self.old self.new) }
        ensures light { IfOk result (Leaves S.state 0 self.old self.new) }
        ensures err { OnErr result (FailsIn S.state self.old self.new) }
    {
        match class_at(&self.store, o) {
            Some(class) => match handler(self.program, catches.as_slice(), class) {
                Some(clause) => self.handle(clause, o),
                None => self.end(Outcome::Throw(o)),
            },
            None => self.end(Outcome::Stuck),
        }
    }

    // The block of a `catch` clause, whose local is the exception.
    fn handle(&mut self, clause: &'p Catch, o: u32) -> Result<Focus<'p>, OutOfMemory>
        ensures ok { IfOk result (Goes S.state (λ p part. handled p part o (Some clause.entry.now)) self.old self.new) }
        ensures light { IfOk result (Leaves S.state 0 self.old self.new) }
        ensures err { OnErr result (FailsIn S.state self.old self.new) }
    {
        let slot = clause.slot as usize;
        if slot < self.locals.len() {
            self.locals.set(slot, Cell::Ref(o));
            Ok(Focus::Stmt(clause.body.get()))
        } else {
            Ok(Focus::Answer(Outcome::Stuck))
        }
    }

    /// A `finally` block is executed after every outcome that doesn't end the run.
    pub fn finish(&mut self, last: &'p Boxed<Stmt>, o: Outcome) -> Result<Focus<'p>, OutOfMemory>
        ensures ok { IfOk result (Goes S.state
            (λ p part w. finally (part.stmt last.entry.now) (gives o w)) self.old self.new) }
        ensures light { IfOk result (Leaves S.state 0 self.old self.new) }
        ensures err { OnErr result (FailsIn S.state self.old self.new) }
    {
        match o {
            Outcome::Spent | Outcome::Full(_) | Outcome::Stuck => self.end(o),
            Outcome::Value(_)
            | Outcome::Normal
            | Outcome::Return(_)
            | Outcome::Break
            | Outcome::Continue
            | Outcome::Throw(_) => self.finish_after(last, o),
        }
    }

    // A `finally` block after which this outcome stands, unless the block ends abruptly.
    fn finish_after(
        &mut self,
        last: &'p Boxed<Stmt>,
        earlier: Outcome,
    ) -> Result<Focus<'p>, OutOfMemory>
        ensures ok { IfOk result (Goes S.state
            (λ p part w. keeping earlier (part.stmt last.entry.now w)) self.old self.new) }
        ensures light { IfOk result (Leaves S.state 0 self.old self.new) }
        ensures err { OnErr result (FailsIn S.state self.old self.new) }
    {
        self.push(Frame::Plain(PlainFrame::Finished(earlier)))?;
        Ok(Focus::Stmt(last.get()))
    }

    /// After the `finally` block the earlier outcome, unless the block ended abruptly.
    pub fn keep(&mut self, earlier: Outcome, o: Outcome) -> Result<Focus<'p>, OutOfMemory>
        ensures ok { IfOk result (Goes S.state (λ p part w. keeping earlier (gives o w)) self.old self.new) }
        ensures light { IfOk result (Leaves S.state 0 self.old self.new) }
        ensures err { OnErr result (FailsIn S.state self.old self.new) }
    {
        match o {
            Outcome::Normal => self.end(earlier),
            Outcome::Value(_)
            | Outcome::Return(_)
            | Outcome::Break
            | Outcome::Continue
            | Outcome::Throw(_)
            | Outcome::Spent
            | Outcome::Full(_)
            | Outcome::Stuck => self.end(o),
        }
    }
}

// The first clause whose class is this one or a superclass of it.
fn handler<'p>(program: &Program, clauses: &'p [Catch], class: u32) -> Option<&'p Catch>
    ensures { option_copied result ≡ handler program.now clauses.now class }
{
    for clause in clauses {
        if is_subclass(&program.classes, class, clause.class) {
            return Some(clause);
        }
    }
    None
}
