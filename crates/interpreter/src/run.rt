//! A whole run: its arguments, its first locals, its steps and its ending.

ghost use Rattle.std.specs.Prelude.{◌≡◌, ℕ, IfOk, List, [], map};
ghost use Rattle.core_tree.specs.declared.program.Method.{Method as MainMethod};
ghost use Rattle.heap_arena.specs.Heap.{cell_at, field_types_of};
ghost use Rattle.heap_arena.specs.State.{new_state, ChangesHeap};
ghost use Rattle.evaluation.specs.Objects.{message_place};
ghost use Rattle.evaluation.specs.Run.{ending_of, message_of, uncaught};
ghost use Rattle.interpreter.specs.Machine.{is_refused, text_of, BeginsAs, EndsRun, IsBegun, IsFirst, IsMain, Tells, TellsEnd};

use crate::arguments::{has_long_argument, put_arguments};
use crate::calls::{MESSAGE_PLACE, with_defaults};
use crate::frame::{EarlyEnd, Focus, Frame, NormalFrame};
use crate::running::Running;
use crate::stop::RunStop;
use core_tree::{Method, OutOfMemory, Program, Text, What};
use evaluation::Outcome;
use heap_arena::{Cell, Stack, Store};
use object_cells::{cell, class_at};
use pb_io::Sink;
use sqlite_items::Items;
use std::alloc::Global;

/// A run that has ended; it has no stop where it was stuck.
#[derive(Drop)]
pub struct Ended<S> {
    pub store: S,
    pub taken: u64,
    pub stop: Option<RunStop>,
    /// Whether the sink refused a call.
    pub sink_refused: bool,
}

/// The frames and the locals with which the body of `main` begins.
#[derive(Drop)]
struct Beginning<'p> {
    frames: Stack<Frame<'p>>,
    locals: Items<Cell<u32>>,
}

/// Runs a program in a store without objects.
pub fn run_main<S: Store + Drop, O: Sink>(
    alloc: Global,
    program: &Program,
    store: S,
    args: &[String],
    steps: u64,
    sink: &mut O,
) -> Ended<S>
    requires fresh { S.state store ≡ new_state program.now }
    ensures { EndsRun program.now (map text_of args.now) steps (O.state sink.old) (O.state sink.new)
        (S.state result.store) result.taken result.sink_refused result.stop }
{
    let mut store = store;
    let Some(main) = program.methods.get(program.main as usize) else {
        return Ended {
            store,
            taken: 0,
            stop: None,
            sink_refused: false,
        };
    };
    match begin(alloc, main, &mut store, args) {
        Ok(beginning) => run_body(alloc, program, store, beginning, steps, sink),
        Err(stop) => Ended {
            store,
            taken: 0,
            stop: Some(stop),
            sink_refused: false,
        },
    }
}

// Makes the arguments, and what the body of `main` begins with.
fn begin<'p, S: Store>(
    alloc: Global,
    main: &'p Method,
    store: &mut S,
    args: &[String],
) -> Result<Beginning<'p>, RunStop>
    requires empty { (S.state store.old).now ≡ [] }
    ensures begun { BeginsAs main.entry.now (map text_of args.now) (S.state store.new).now result }
    ensures others { ChangesHeap (S.state store.old) (S.state store.new) }
{
    if has_long_argument(alloc, args)? {
        return Err(RunStop::Full(What::Text));
    }
    put_arguments(alloc, store, args)?;
    Ok(first_of(alloc, main)?)
}

// What a method begins with whose first argument is the first object.
fn first_of<'p>(alloc: Global, main: &'p Method) -> Result<Beginning<'p>, OutOfMemory>
    ensures { IfOk result (λ beginning. IsFirst main.entry.now beginning) }
{
    let mut frames = Stack::new(alloc);
    frames.push(Frame::Normal(NormalFrame::Rest(main.body.as_slice())))?;
    let mut locals = Items::new(alloc);
    locals.push(Cell::Ref(0))?;
    let locals = with_defaults(locals, main.locals.as_slice())?;
    Ok(Beginning { frames, locals })
}

// Runs the body of `main`.
fn run_body<'p, S: Store + Drop, O: Sink>(
    alloc: Global,
    program: &'p Program,
    store: S,
    beginning: Beginning<'p>,
    steps: u64,
    sink: &mut O,
) -> Ended<S>
    requires fields { (S.state store).field_types ≡ field_types_of program.now }
    ensures { (args : List (List ℕ)) (main : MainMethod) →
        IsMain program.entry.now main →
        IsBegun main args (S.state store).now beginning.entry →
        (S.state store).marks ≡ [] →
        EndsRun program.entry.now args steps (O.state sink.old) (O.state sink.new)
        (S.state result.store) result.taken result.sink_refused result.stop }
{
    let mut running = Running {
        program,
        frames: beginning.frames,
        this: None,
        locals: beginning.locals,
        live: 1,
        store,
        taken: 0,
        budget: steps,
        alloc,
    };
    let ended = running.drive(Focus::Answer(Outcome::Normal), sink);
    let sink_refused = is_refused(&ended);
    let stop = running.stop(ended);
    Ended {
        store: running.store,
        taken: running.taken,
        stop,
        sink_refused,
    }
}

// Whether a call of the sink ended the run.
fn is_refused(ended: &Result<Outcome, EarlyEnd>) -> bool
    ensures { result ≡ is_refused ended.now }
{
    matches!(ended, Err(EarlyEnd::Refused(_)))
}

impl<'p, S: Store + Drop> Running<'p, S> {
    // How the run ended, or `None` where it was stuck.
    fn stop(&self, ended: Result<Outcome, EarlyEnd>) -> Option<RunStop>
        ensures { Tells (S.state self.now.store).now ended result }
    {
        match ended {
            Ok(outcome) => self.stop_of(outcome),
            Err(end) => Some(RunStop::from(end)),
        }
    }

    // How a run ended with this outcome.
    fn stop_of(&self, o: Outcome) -> Option<RunStop>
        ensures { TellsEnd (ending_of (S.state self.now.store).now o) result }
    {
        match o {
            Outcome::Normal | Outcome::Return(_) => Some(RunStop::Done),
            Outcome::Throw(thrown) => self.uncaught(thrown),
            Outcome::Spent => Some(RunStop::StepsSpent),
            Outcome::Full(what) => Some(RunStop::Full(what)),
            Outcome::Value(_) | Outcome::Break | Outcome::Continue | Outcome::Stuck => None,
        }
    }

    // The stop of an exception that nothing caught.
    fn uncaught(&self, o: u32) -> Option<RunStop>
        ensures { TellsEnd (uncaught (S.state self.now.store).now o) result }
    {
        let class = class_at(&self.store, o)?;
        match self.message(o) {
            Ok(message) => Some(RunStop::Uncaught { class, message }),
            Err(_) => Some(RunStop::OutOfMemory),
        }
    }

    // The text in the message field of an object.
    fn message(&self, o: u32) -> Result<Option<Text>, OutOfMemory>
        ensures { IfOk result (λ message. message ≡ message_of (cell_at (S.state self.now.store).now o message_place)) }
    {
        match cell(&self.store, o, MESSAGE_PLACE)? {
            Some(Cell::Text(message)) => Ok(Some(message)),
            Some(Cell::Int(_) | Cell::Bool(_) | Cell::Null | Cell::Ref(_)) | None => Ok(None),
        }
    }
}
