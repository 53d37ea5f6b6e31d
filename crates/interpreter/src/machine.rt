//! The machine as callers see it.

ghost use Rattle.std.specs.Prelude.{◌≡◌, MatchOption, Some, false, map};
ghost use Rattle.core_tree.specs.WellTyped.{IsWellTyped};
ghost use Rattle.heap_arena.specs.State.{new_state};
ghost use Rattle.interpreter.specs.Machine.{text_of, EndsRun};

use crate::run::run_main;
use crate::stop::RunStop;
use core_tree::Program;
use heap_arena::Store;
use pb_io::Sink;
use std::alloc::Global;
use std::marker::Model;
use type_safety::never_stuck;

/// The machine over a store: it runs a program once, with explicit frames and no recursion. Contracts see its store,
/// the steps that the run took, and whether a call of the sink was refused.
#[derive(Drop)]
pub struct Machine<S> {
    alloc: Global,
    store: Option<S>,
    steps_taken: u64,
    sink_refused: bool,
}

impl<S> Model for Machine<S> {
    ghost use Rattle.interpreter.specs.View.{MachineView, view_code};

    ghost Value = { MachineView S };

    ghost coded = { view_code S.code };

    ghost view = { λ m. record { store = m.store; steps_taken = m.steps_taken; sink_refused = m.sink_refused } };
}

impl<S: Store + Drop> Machine<S> {
    /// A machine that has taken no step, over this store. It takes no memory.
    pub fn new(alloc: Global, store: S) -> Machine<S>
        ensures store { result.store ≡ Some store }
        ensures steps { result.steps_taken ≡ 0 }
        ensures refused { result.sink_refused ≡ false }
    {
        Machine {
            alloc,
            store: Some(store),
            steps_taken: 0,
            sink_refused: false,
        }
    }

    /// Runs a well-typed program with these arguments and a budget of steps. What it prints goes into the sink, a put
    /// for each print, and nothing is flushed. The store has no object, no mark, and the field types of the program.
    /// An argument of more than 1,048,576 code units is `Full(Text)` before the first step.
    ///
    /// Every stop but the last two is that of the reference evaluation with this budget, and its output is whole;
    /// after `Done` and `Uncaught` the store holds the heap that it left, and no mark stands. `OutOfMemory`, which may
    /// come at any point, and `WriteFault` leave a prefix of what a run with the steps taken prints. Where the sink
    /// refused a call, it was the last one, and the stop tells its error: `WriteFault` always, and `OutOfMemory` where
    /// `sink_refused` says so.
    pub fn run<O: Sink>(
        &mut self,
        program: &Program,
        args: &[String],
        steps: u64,
        sink: &mut O,
    ) -> RunStop
        requires well_typed { IsWellTyped program.now }
        requires fresh { MatchOption self.old.store ⊥ (λ store. S.state store ≡ new_state program.now) }
        ensures { MatchOption self.new.store ⊥ (λ store. EndsRun program.now (map text_of args.now) steps
            (O.state sink.old) (O.state sink.new)
            (S.state store) self.new.steps_taken self.new.sink_refused (Some result)) }
    {
        match self.attempt(program, args, steps, sink) {
            Some(stop) => stop,
            None => {
                never_stuck();
                unreachable!()
            }
        }
    }

    /// The same, over the same kind of store, for a program that may not be well typed: `None` where a part of it was
    /// reached that has no meaning, and the reference evaluation is stuck with this budget.
    pub fn attempt<O: Sink>(
        &mut self,
        program: &Program,
        args: &[String],
        steps: u64,
        sink: &mut O,
    ) -> Option<RunStop>
        requires fresh { MatchOption self.old.store ⊥ (λ store. S.state store ≡ new_state program.now) }
        ensures { MatchOption self.new.store ⊥ (λ store. EndsRun program.now (map text_of args.now) steps
            (O.state sink.old) (O.state sink.new)
            (S.state store) self.new.steps_taken self.new.sink_refused result) }
    {
        let store = self.store.take()?;
        let ended = run_main(self.alloc, program, store, args, steps, sink);
        self.store = Some(ended.store);
        self.steps_taken = ended.taken;
        self.sink_refused = ended.sink_refused;
        ended.stop
    }

    /// How many steps the run took: the nodes that were entered.
    pub fn steps_taken(&self) -> u64
        ensures { result ≡ self.now.steps_taken }
    {
        self.steps_taken
    }

    /// Whether the sink refused a call in the run, so that it isn't to be used any more.
    pub fn sink_refused(&self) -> bool
        ensures { result ≡ self.now.sink_refused }
    {
        self.sink_refused
    }

    /// The store, with the heap that the run left.
    pub fn into_store(self) -> Option<S>
        ensures { result ≡ self.store }
    {
        self.store
    }
}
