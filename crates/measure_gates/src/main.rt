//! Makes a large circuit over inputs and prints how many nodes a call added: `closure N` over N objects, `clauses N`
//! for the same and the clauses of a path, `sum N` for N numbers of 32 bits. `bench/gates` measures it.
#![tactic(auto)]

mod circuits;

use circuits::{MOST_NUMBERS, MOST_OBJECTS, closure_clauses, closure_nodes, sum_nodes};
use std::{env, io};

const USAGE: &str = "usage: measure_gates closure|clauses|sum N";

fn main(rt: HostRuntime) -> io::Result<()> {
    let alloc = rt.alloc();
    let mut words = env::args(&rt)?;
    let _program = words.next();
    let (Some(what), Some(word)) = (words.next(), words.next()) else {
        return println!(rt; "{USAGE}");
    };
    let size = word.parse::<usize>().unwrap_or(usize::MAX);
    let counted = match what.as_str() {
        "closure" if size <= MOST_OBJECTS => closure_nodes(alloc, size),
        "clauses" if size <= MOST_OBJECTS => closure_clauses(alloc, size),
        "sum" if size <= MOST_NUMBERS => sum_nodes(alloc, size),
        _ => return println!(rt; "{USAGE}"),
    };
    match counted {
        Ok(count) => println!(rt; "{count}"),
        Err(_) => println!(rt; "out of memory"),
    }
}
