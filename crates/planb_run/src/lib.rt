//! The top call: `planb` does what the words of a command line ask, over any files and sinks.
//!
//! `specs/Headline` is its contract, one record for each clause: for every source, arguments and budget, the bytes
//! printed, the status and the report are those of the reference evaluation. What that rests on: `specs/Command` (the
//! words), the accepted sources and the refusals of `java_source`, the runs of `evaluation`, and `specs/Report` (the
//! report and the status).
//!
//! Read these, then `top`, and from there `command`, `load`, `execute` and `report`.
#![tactic(auto)]

mod command;
mod ending;
mod execute;
mod load;
mod report;
mod top;
mod uncaught;

pub use ending::{Ending, Reported, Stop};
pub use java_source::{SourceRefusal, TokenKindError};
pub use top::planb;
