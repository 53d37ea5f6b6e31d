//! The call of a row.

use crate::row::TopRow;
use anyhow::{Result, ensure};
use pb_io::{MemFiles, MemSink};
use planb_run::{Ending, planb};
use std::alloc::{AllocError, Global};

/// How a call ended, and what it left.
#[derive(Drop)]
pub struct TopCall {
    pub ending: Ending,
    pub files: MemFiles,
    pub out: MemSink,
    pub report: MemSink,
}

/// Calls `planb` with the words of a row, where the file `F` has its source and the sinks and files fail where it says.
pub fn make_call(alloc: Global, row: &TopRow) -> Result<TopCall> {
    let largest = row.largest_write;
    ensure!(largest > 0, "a write that takes nothing in {}", row.name);
    let failing = row.failing;
    let mut files = files(alloc, &row.source, failing.files)?;
    let mut out = MemSink::new(
        largest,
        one(alloc, failing.write)?,
        one(alloc, failing.flush)?,
    );
    let mut report = MemSink::new(
        largest,
        one(alloc, failing.report_write)?,
        one(alloc, failing.report_flush)?,
    );
    let ending = planb(alloc, &row.words, &mut files, &mut out, &mut report);
    Ok(TopCall {
        ending,
        files,
        out,
        report,
    })
}

// The file `F` with these bytes, where the call with this number fails.
fn files(alloc: Global, source: &[u8], failing: u64) -> Result<MemFiles, AllocError> {
    let mut files = Vec::new(alloc);
    files.push((String::from_str(alloc, "F")?, source.to_vec(alloc)?))?;
    Ok(MemFiles::new(files, one(alloc, failing)?))
}

// The number of one call.
fn one(alloc: Global, number: u64) -> Result<Vec<u64>, AllocError> {
    [number].to_vec(alloc)
}
