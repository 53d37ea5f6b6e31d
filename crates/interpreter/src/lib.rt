//! The machine of the whole language: it runs a resolved program over any store, with explicit frames and no recursion.
//!
//! A step of the machine pushes frames and says before which part it stands. `specs/Frames` says what frames make of
//! the answer of that part, `specs/Setting` what the machine holds, and `specs/Moves` what it means that the machine
//! goes on as a part goes on; `specs/Weights` bounds what is done without a step. `specs/Points` says how a step leads
//! each whole run from one point to the next, for every number of steps that may be left. `specs/Machine` says what
//! callers see. `proofs/Runs`, `proofs/Steps` and `proofs/Whole` show that a machine whose functions go on so does
//! what the reference evaluation does: its outcome, its output, its steps and its heap.
//!
//! Read `machine` and `specs/Machine`; then `frame`, `running`, `specs/Frames`, `specs/Setting`, `specs/Moves` and
//! `specs/Points`; then `step`, with `expressions` and `statements` for nodes that are entered, and `resume` for
//! answers that come back. `proofs/Moves` has the ways to go on that the functions cite.
#![tactic(auto)]

mod arguments;
mod blocks;
mod calls;
mod cells;
mod exceptions;
mod expressions;
mod frame;
mod locals;
mod machine;
mod makers;
mod making;
mod objects;
mod operators;
mod places;
mod printing;
mod resume;
mod run;
mod running;
mod start;
mod statements;
mod step;
mod stop;

pub use frame::{
    CallEnd, CallFrame, Callee, EarlyEnd, Focus, Frame, LoopFrame, LoopParts, Made, Next,
    NormalFrame, PlaceUse, PlainFrame, ValueFrame,
};
pub use machine::Machine;
pub use running::Running;
pub use stop::RunStop;
