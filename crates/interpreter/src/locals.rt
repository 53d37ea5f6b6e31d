//! The locals of the body that is being run.

ghost use Rattle.std.specs.Prelude.{IfOk, OnErr, slice_get};
ghost use Rattle.evaluation.specs.Objects.{read_local, write_local};
ghost use Rattle.interpreter.specs.Moves.{Goes, Leaves, FailsIn};

use crate::frame::Focus;
use crate::running::Running;
use core_tree::OutOfMemory;
use evaluation::Outcome;
use heap_arena::{Cell, Store};

impl<'p, S: Store + Drop> Running<'p, S> {
    /// The value of a local.
    pub fn read_local(&mut self, at: u32) -> Result<Focus<'p>, OutOfMemory>
        ensures ok { IfOk result (Goes S.state (λ p part. read_local at) self.old self.new) }
        ensures light { IfOk result (Leaves S.state 0 self.old self.new) }
        ensures err { OnErr result (FailsIn S.state self.old self.new) }
    {
        match self.locals.get(at as usize) {
            Some(v) => Ok(Focus::Answer(Outcome::Value(v.copy()?))),
            None => Ok(Focus::Answer(Outcome::Stuck)),
        }
    }

    /// Gives a local a value.
    pub fn write_local(&mut self, at: u32, v: Cell<u32>) -> Result<Focus<'p>, OutOfMemory>
        ensures ok { IfOk result (Goes S.state (λ p part. write_local at v) self.old self.new) }
        ensures light { IfOk result (Leaves S.state 0 self.old self.new) }
        ensures err { OnErr result (FailsIn S.state self.old self.new) }
    {
        let at = at as usize;
        if at < self.locals.len() {
            self.locals.set(at, v);
            Ok(Focus::Answer(Outcome::Normal))
        } else {
            Ok(Focus::Answer(Outcome::Stuck))
        }
    }
}
