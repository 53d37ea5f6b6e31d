//! The program `solve_dimacs`: it reads clauses in the DIMACS form, solves them, and prints the answer.
//!
//! `solve_dimacs [--check] LIMIT FILE` prints `s SATISFIABLE` and a line with the literals that are true,
//! `s UNSATISFIABLE` and a derivation of the empty clause, or `s UNKNOWN` and a derivation as long as the limit. With
//! `--check` the answer is tried first, and `c checked` says that it passed. The status is 10, 20 or 0, and 1 where
//! there is no answer.
//!
//! `dimacs_run` does the work; here it is given the system's words, files and streams.
#![tactic(auto)]

use dimacs_run::run;
use pb_io::{HostFiles, HostSink, put_all};
use std::env::Env;
use std::process::ExitCode;
use std::{env, io};

// The status where there is no answer.
const NO_ANSWER: u8 = 1;

fn main(rt: HostRuntime) -> ExitCode {
    let alloc = rt.alloc();
    let Ok(words) = words(&rt) else {
        return ExitCode::from(NO_ANSWER);
    };
    let mut files = HostFiles::new(&rt);
    let mut out = HostSink::new(rt.stdout());
    match run(alloc, &words, &mut files, &mut out) {
        Ok(status) => ExitCode::from(status),
        Err(failure) => {
            let mut errors = HostSink::new(rt.stderr());
            if let Ok(text) = format!(in alloc; "{failure}\n") {
                let _told = put_all(&mut errors, text.as_bytes());
            }
            ExitCode::from(NO_ANSWER)
        }
    }
}

// The words of the command line, the program's name first.
fn words(rt: &(impl Env + AllocGlobal)) -> io::Result<Vec<String>> {
    let mut words = Vec::new(rt.alloc());
    for word in env::args(rt)? {
        words.push(word)?;
    }
    Ok(words)
}
