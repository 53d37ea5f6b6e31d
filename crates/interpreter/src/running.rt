//! A run in progress. Callers of the machine don't see it.

ghost use Rattle.std.specs.Prelude.{IfOk, OnOk, OnErr};
ghost use Rattle.evaluation.specs.World.{value_then};
ghost use Rattle.interpreter.specs.Frames.{used};
ghost use Rattle.interpreter.specs.Setting.{point};
ghost use Rattle.interpreter.specs.Moves.{Pushes, Goes, Adds, FailsIn};

use crate::frame::{Focus, Frame, ValueFrame};
use core_tree::{Expr, OutOfMemory, Program};
use heap_arena::{Cell, Stack, Store};
use sqlite_items::{Boxed, Items};
use std::alloc::Global;

/// A run in progress: the program, the frames, the body that is being run, the store, the steps taken and how many may
/// be taken. References are positions of the store.
#[derive(Drop)]
pub struct Running<'p, S> {
    pub program: &'p Program,
    pub frames: Stack<Frame<'p>>,
    /// The object that `this` is.
    pub this: Option<u32>,
    pub locals: Items<Cell<u32>>,
    /// How many calls are live.
    pub live: u32,
    pub store: S,
    pub taken: u64,
    pub budget: u64,
    pub alloc: Global,
}

impl<'p, S: Store + Drop> Running<'p, S> {
    /// Puts a frame over those that are there.
    pub fn push(&mut self, frame: Frame<'p>) -> Result<(), OutOfMemory>
        ensures ok { OnOk result (Pushes frame.entry (point S.state self.old) (point S.state self.new)) }
        ensures err { OnErr result (FailsIn S.state self.old self.new) }
    {
        self.frames.push(frame)?;
        Ok(())
    }

    /// Goes on with the value of an expression.
    pub fn value_of(
        &mut self,
        e: &'p Boxed<Expr>,
        frame: ValueFrame<'p>,
    ) -> Result<Focus<'p>, OutOfMemory>
        ensures ok { IfOk result (Goes S.state
            (λ p part w. value_then (used p part frame.entry) (part.expr e.entry.now w)) self.old self.new) }
        ensures light { IfOk result (Adds S.state 2 self.old self.new) }
        ensures err { OnErr result (FailsIn S.state self.old self.new) }
    {
        self.push(Frame::Value(frame))?;
        Ok(Focus::Expr(e.get()))
    }
}
