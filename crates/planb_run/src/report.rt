ghost use Rattle.std.specs.Prelude.{◌≡◌, None, flat_map, option_map};
ghost use Rattle.pb_io.specs.Sink.{Puts};
ghost use Rattle.planb_run.specs.Report.{report, fault_text, full_text};

use crate::uncaught::write_uncaught;
use crate::{SourceRefusal, Stop, TokenKindError};
use core_tree::{Program, What};
use itoa::Buffer;
use pb_io::{PutError, Sink, put_all};

const USAGE: &[u8] =
    b"usage: planb [--steps N] [--conflicts N] [--proof] (FILE [ARG..] | --make N)\n";

/// Writes the report of a stop, for the program that ran. After an error a prefix of it is written. It takes no memory
/// itself.
pub fn write_report<O: Sink>(
    sink: &mut O,
    program: Option<&Program>,
    stop: &Stop,
) -> Result<(), PutError>
    ensures { Puts (O.state sink.old) (O.state sink.new)
        (report (option_map (λ p. p.now) program.entry) stop.now) result }
{
    match stop {
        Stop::Done => Ok(()),
        Stop::Uncaught { class, message } => write_uncaught(sink, program, *class, message),
        Stop::Usage => put_all(sink, USAGE),
        Stop::Refused(why) => write_refusal(sink, *why),
        Stop::StepsSpent(budget) => {
            let mut digits = Buffer::new();
            let budget = digits.format(*budget).as_bytes();
            put_parts(sink, &[b"steps spent ", budget, b"\n"])
        }
        Stop::Full(what) => put_all(sink, full_text(*what)),
        Stop::OutOfMemory => put_all(sink, b"out of memory\n"),
        Stop::ReadFault => put_all(sink, b"read fault\n"),
        Stop::WriteFault => put_all(sink, b"write fault\n"),
    }
}

// The line on a run that had no room.
fn full_text(what: What) -> &'static [u8]
    ensures { result.now ≡ full_text what }
{
    match what {
        What::Cells => b"full cells\n",
        What::Text => b"full text\n",
    }
}

fn write_refusal<O: Sink>(sink: &mut O, why: SourceRefusal) -> Result<(), PutError>
    ensures { Puts (O.state sink.old) (O.state sink.new) (report None (Stop.Refused why)) result }
{
    match why {
        SourceRefusal::TooLong => put_all(sink, b"refused too long\n"),
        SourceRefusal::Lexical(kind, at) => {
            let mut digits = Buffer::new();
            let at = digits.format(at).as_bytes();
            put_parts(
                sink,
                &[b"refused ", fault_text(kind), b" at byte ", at, b"\n"],
            )
        }
        SourceRefusal::Syntax { line, column } => {
            let mut lines = Buffer::new();
            let mut columns = Buffer::new();
            let line = lines.format(line).as_bytes();
            let column = columns.format(column).as_bytes();
            put_parts(sink, &[b"refused syntax at ", line, b":", column, b"\n"])
        }
        SourceRefusal::TooDeep => put_all(sink, b"refused depth\n"),
        SourceRefusal::Fault { rule, line, column } => write_fault(sink, rule, line, column),
    }
}

// Writes the line on a source that breaks a rule.
fn write_fault<O: Sink>(sink: &mut O, rule: u8, line: u32, column: u32) -> Result<(), PutError>
    ensures { Puts (O.state sink.old) (O.state sink.new)
        (report None (Stop.Refused (SourceRefusal.Fault rule line column))) result }
{
    let mut rules = Buffer::new();
    let mut lines = Buffer::new();
    let mut columns = Buffer::new();
    let rule = rules.format(rule).as_bytes();
    let line = lines.format(line).as_bytes();
    let column = columns.format(column).as_bytes();
    put_parts(
        sink,
        &[b"refused rule ", rule, b" at ", line, b":", column, b"\n"],
    )
}

// The word for a kind of fault.
fn fault_text(kind: TokenKindError) -> &'static [u8]
    ensures { result.now ≡ fault_text kind }
{
    match kind {
        TokenKindError::Utf8 => b"utf8",
        TokenKindError::Character => b"character",
        TokenKindError::Number => b"number",
        TokenKindError::Unclosed => b"unclosed",
    }
}

// Writes the parts of a text in order.
fn put_parts<O: Sink>(sink: &mut O, parts: &[&[u8]]) -> Result<(), PutError>
    ensures { Puts (O.state sink.old) (O.state sink.new) (flat_map (λ part. part.now) parts.now) result }
{
    for part in parts {
        put_all(sink, part)?;
    }
    Ok(())
}
