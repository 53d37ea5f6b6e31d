ghost use Rattle.std.specs.Prelude.{◌≡◌, map};
ghost use Rattle.core_tree.specs.WellTyped.{IsWellTyped};
ghost use Rattle.interpreter.specs.Machine.{text_of};
ghost use Rattle.planb_run.specs.Causes.{run_stop};
ghost use Rattle.planb_run.specs.Stages.{Executes, Flushes};

use crate::Stop;
use core_tree::Program;
use heap_arena::CopyStore;
use interpreter::{Machine, RunStop};
use pb_io::{OutsideFault, Sink};
use std::alloc::Global;
use steps_law::spent_runs_leave_none;

/// Why a run stopped, and how many steps it took.
#[derive(Drop)]
pub struct Executed {
    pub stop: Stop,
    pub steps: u64,
}

/// Runs a program with these arguments and a budget of steps and flushes the output once, whatever the run's ending.
/// Where the output refused a call in the run, it isn't used again, and where there was no memory to begin, it isn't
/// used at all.
pub fn execute<O: Sink>(
    alloc: Global,
    program: &Program,
    arguments: &[String],
    budget: u64,
    out: &mut O,
) -> Executed
    requires { IsWellTyped program.now }
    ensures { Executes program.now (map text_of arguments.now) budget
        (O.state out.old) (O.state out.new) result.stop result.steps }
{
    let store = match CopyStore::new(alloc, program) {
        Ok(store) => store,
        Err(_) => return Executed {
            stop: Stop::OutOfMemory,
            steps: 0,
        },
    };
    let mut machine = Machine::new(alloc, store);
    let stop = stop_of(machine.run(program, arguments, budget, out), budget);
    let steps = machine.steps_taken();
    if machine.sink_refused() {
        return Executed { stop, steps };
    }
    spent_runs_leave_none();
    Executed {
        stop: flushed(out, stop),
        steps,
    }
}

// The stop of a run with this budget.
fn stop_of(ended: RunStop, budget: u64) -> Stop
    ensures { result ≡ run_stop ended budget }
{
    match ended {
        RunStop::Done => Stop::Done,
        RunStop::Uncaught { class, message } => Stop::Uncaught { class, message },
        RunStop::StepsSpent => Stop::StepsSpent(budget),
        RunStop::Full(what) => Stop::Full(what),
        RunStop::OutOfMemory => Stop::OutOfMemory,
        RunStop::WriteFault => Stop::WriteFault,
    }
}

// Flushes the output. The stop stays, unless the flush was refused.
fn flushed<O: Sink>(out: &mut O, stop: Stop) -> Stop
    ensures { Flushes (O.state out.old) (O.state out.new) stop result }
{
    match out.flush() {
        Ok(()) => stop,
        Err(OutsideFault::Failed) => Stop::WriteFault,
        Err(OutsideFault::OutOfMemory) => Stop::OutOfMemory,
    }
}
