//! The program `planb`: it hands the words of the command line, the system's files, standard output and standard
//! error to `planb_run::planb`, and ends with the status of its ending.
#![tactic(auto)]

use pb_io::{HostFiles, HostSink};
use planb_run::planb;
use std::alloc::AllocError;
use std::env::Env;
use std::process::ExitCode;
use std::{env, io};

// The statuses of an end before the words are there.
const NO_WORDS: u8 = 2;

const NO_MEMORY: u8 = 6;

fn main(rt: HostRuntime) -> ExitCode {
    let words = match words(&rt) {
        Ok(words) => words,
        Err(error) if error.kind() == io::ErrorKind::OutOfMemory => return ExitCode::from(
            NO_MEMORY,
        ),
        Err(_) => return ExitCode::from(NO_WORDS),
    };
    let mut files = HostFiles::new(&rt);
    let mut out = HostSink::new(rt.stdout());
    let mut report = HostSink::new(rt.stderr());
    let ending = planb(rt.alloc(), &words, &mut files, &mut out, &mut report);
    ExitCode::from(ending.status)
}

// The words of the command line, the program's name first.
fn words(rt: &(impl Env + AllocGlobal)) -> io::Result<Vec<String>> {
    let mut words = Vec::new(rt.alloc());
    for word in env::args(rt)? {
        words.push(word)?;
    }
    Ok(words)
}
