//! Runs the programs of a list, and prints what each prints and how it ends. Its stored run is the table of the
//! machine's programs, in `data`, whose results come from `java`; `tools/ask_java rows` compares them.
//!
//! A line of the list has a file, a budget of steps and the program's arguments, separated by tabs.
#![tactic(auto)]

mod run;

use crate::run::{Stopped, run_line};
use pb_io::HostSink;
use std::{env, fs, io};

const USAGE: &str = "usage: run_programs LIST";

fn main(rt: HostRuntime) -> io::Result<()> {
    let mut words = env::args(&rt)?;
    let _program = words.next();
    let Some(list) = words.next() else {
        return println!(rt; "{USAGE}");
    };
    let list = fs::read_to_string(&rt, &list)?;
    let mut out = HostSink::new(rt.stdout());
    for line in list.lines() {
        match run_line(&rt, line, &mut out) {
            Ok(()) => {}
            Err(Stopped::OutOfMemory) => println!(rt; "out of memory")?,
            Err(Stopped::Outside) => println!(rt; "fault of the outside")?,
        }
    }
    Ok(())
}
