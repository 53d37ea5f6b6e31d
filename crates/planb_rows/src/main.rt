//! Makes a whole call of `planb` for each row of a file, over files and sinks in memory, and prints what came of it.
//! Its stored run is the table of the top call.
//!
//! A row begins with a line `== NAME` and ends before the next one; `row` says what its lines mean.
#![tactic(auto)]

mod call;
mod row;

use crate::call::{TopCall, make_call};
use crate::row::{TopRow, rows};
use pb_io::MemSink;
use std::{env, fs, io};

const USAGE: &str = "usage: planb_rows FILE";

fn main(rt: HostRuntime) -> anyhow::Result<()> {
    let mut words = env::args(&rt)?;
    let _program = words.next();
    let Some(file) = words.next() else {
        println!(rt; "{USAGE}")?;
        return Ok(());
    };
    let text = fs::read_to_string(&rt, &file)?;
    for row in rows(rt.alloc(), &text)? {
        let call = make_call(rt.alloc(), &row)?;
        print_call(&rt, &row, &call)?;
    }
    Ok(())
}

// Prints what came of a row's call: the status, the steps where the row wants them, how the report went, the bytes of
// the output and of the report, and which names were started.
fn print_call(rt: &impl Print, row: &TopRow, call: &TopCall) -> io::Result<()> {
    println!(rt; "== {}", row.name)?;
    print!(rt; "status {}, ", call.ending.status)?;
    if row.tells_steps {
        print!(rt; "steps {}, ", call.ending.steps)?;
    }
    println!(rt; "reported {:?}", call.ending.reported)?;
    print_sink(rt, "output", &call.out)?;
    print_sink(rt, "report", &call.report)?;
    println!(rt; "started {:?}", call.files.started())
}

// Prints the bytes that a sink took, as a text where they are one, and how many of them are flushed.
fn print_sink(rt: &impl Print, name: &str, sink: &MemSink) -> io::Result<()> {
    match std::str::from_utf8(sink.written()) {
        Ok(text) => print!(rt; "{name} {text:?}")?,
        Err(_) => print!(rt; "{name} {:?}", sink.written())?,
    }
    println!(rt; ", flushed {}", sink.flushed())
}
