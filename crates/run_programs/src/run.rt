//! One program of the list.

use core_tree::{OutOfMemory, Program, Text, What};
use heap_arena::CopyStore;
use interpreter::{Machine, RunStop};
use java_source::{SourceError, SourceRefusal, program_of};
use pb_io::{HostSink, PutError, Sink, put_all};
use std::alloc::{AllocError, AllocFailed, Global};
use std::fs;
use std::io::Write;
use std::rt::Files;

/// What kept a line from being run.
#[derive(Drop)]
pub enum Stopped {
    OutOfMemory,
    /// A file couldn't be read, or nothing be written.
    Outside,
}

impl From<AllocError> for Stopped {
    fn from(_: AllocError) -> Self {
        Stopped::OutOfMemory
    }
}

impl<T: Drop> From<AllocFailed<T>> for Stopped {
    fn from(_: AllocFailed<T>) -> Self {
        Stopped::OutOfMemory
    }
}

impl From<OutOfMemory> for Stopped {
    fn from(_: OutOfMemory) -> Self {
        Stopped::OutOfMemory
    }
}

impl From<PutError> for Stopped {
    fn from(error: PutError) -> Self {
        match error {
            PutError::OutOfMemory => Stopped::OutOfMemory,
            PutError::WriteFault => Stopped::Outside,
        }
    }
}

/// Runs the program of a line, and writes its name, what it prints and how it ends.
pub fn run_line<W: Write + Drop>(
    rt: &(impl Files + AllocGlobal),
    line: &str,
    out: &mut HostSink<W>,
) -> Result<(), Stopped> {
    let alloc = rt.alloc();
    let mut fields = line.split('\t');
    let Some(file) = fields.next() else {
        return Ok(());
    };
    let steps = match fields.next() {
        Some(steps) => steps.parse::<u64>().unwrap_or(0),
        None => 0,
    };
    let mut args = Vec::new(alloc);
    for field in fields {
        args.push(String::from_str(alloc, field)?)?;
    }
    put_all(out, format!(in alloc; "== {file}\n")?.as_bytes())?;
    let Ok(bytes) = fs::read(rt, file) else {
        return Err(Stopped::Outside);
    };
    match program_of(alloc, &bytes) {
        Ok(program) => run(alloc, &program, &args, steps, out),
        Err(SourceError::Refused(refusal)) => write_refusal(alloc, refusal, out),
        Err(SourceError::OutOfMemory) => Err(Stopped::OutOfMemory),
    }
}

// Writes why a source has no program.
fn write_refusal<O: Sink>(
    alloc: Global,
    refusal: SourceRefusal,
    out: &mut O,
) -> Result<(), Stopped> {
    put_all(out, format!(in alloc; "refused {refusal:?}\n")?.as_bytes())?;
    Ok(())
}

// Runs a program, and writes how it ends.
fn run<O: Sink>(
    alloc: Global,
    program: &Program,
    args: &[String],
    steps: u64,
    out: &mut O,
) -> Result<(), Stopped> {
    let store = CopyStore::new(alloc, program)?;
    let mut machine = Machine::new(alloc, store);
    let line = match machine.attempt(program, args, steps, out) {
        Some(stop) => ending(alloc, program, stop)?,
        None => String::from_str(alloc, "stuck\n")?,
    };
    put_all(out, line.as_bytes())?;
    Ok(())
}

// The line of an ending; nothing where the program came to its end.
fn ending(alloc: Global, program: &Program, stop: RunStop) -> Result<String, Stopped> {
    match stop {
        RunStop::Done => Ok(String::new(alloc)),
        RunStop::Uncaught { class, message } => uncaught(alloc, program, class, message),
        RunStop::StepsSpent => Ok(String::from_str(alloc, "steps spent\n")?),
        RunStop::Full(What::Cells) => Ok(String::from_str(alloc, "full cells\n")?),
        RunStop::Full(What::Text) => Ok(String::from_str(alloc, "full text\n")?),
        RunStop::OutOfMemory => Err(Stopped::OutOfMemory),
        RunStop::WriteFault => Err(Stopped::Outside),
    }
}

// The line of an exception that nothing caught.
fn uncaught(
    alloc: Global,
    program: &Program,
    class: u32,
    message: Option<Text>,
) -> Result<String, Stopped> {
    let mut line = String::from_str(alloc, "uncaught ")?;
    if let Some(class) = program.classes.get(class as usize) {
        push_all(&mut line, class.name.characters())?;
    }
    if let Some(message) = message {
        line.push_str(": ")?;
        push_all(&mut line, message.characters())?;
    }
    line.push('\n')?;
    Ok(line)
}

// Appends characters to a line.
fn push_all(line: &mut String, characters: &[char]) -> Result<(), Stopped> {
    for character in characters {
        line.push(*character)?;
    }
    Ok(())
}
