//! Sinks in memory and sinks over streams of the system.

use pb_io::{HostSink, MemSink, OutsideFault, PutError, Sink, put_all};
use std::test::Fail;

// What is put into a sink that takes one byte at a time, where this write and this flush fail.
#[derive(Clone, Copy)]
struct SinkRow {
    failing_write: u64,
    failing_flush: u64,
    put: Result<(), PutError>,
    written: &'static [u8],
    flush: Result<(), OutsideFault>,
    flushed: usize,
}

const ROWS: [SinkRow; 3] = [
    SinkRow {
        failing_write: 0,
        failing_flush: 0,
        put: Ok(()),
        written: b"abc",
        flush: Ok(()),
        flushed: 3,
    },
    SinkRow {
        failing_write: 2,
        failing_flush: 2,
        put: Err(PutError::WriteFault),
        written: b"a",
        flush: Ok(()),
        flushed: 1,
    },
    SinkRow {
        failing_write: 1,
        failing_flush: 1,
        put: Err(PutError::WriteFault),
        written: b"",
        flush: Err(OutsideFault::Failed),
        flushed: 0,
    },
];

#[test]
fn all_bytes_are_put_or_a_prefix(rt: HostRuntime) -> Result<(), Fail> {
    let alloc = rt.alloc();
    for row in ROWS {
        let failing_writes = vec![in alloc; row.failing_write]?;
        let failing_flushes = vec![in alloc; row.failing_flush]?;
        let mut sink = MemSink::new(1, failing_writes, failing_flushes);
        let write = row.failing_write;
        assert_eq!(rt; put_all(&mut sink, b"abc"), row.put, "write {write} fails");
        assert_eq!(rt; sink.flush(), row.flush, "write {write} fails");
        assert_eq!(rt; sink.written(), row.written, "write {write} fails");
        assert_eq!(rt; sink.flushed(), row.flushed, "write {write} fails");
    }
    Ok(())
}

#[test]
fn streams_are_written(rt: HostRuntime) -> Result<(), Fail> {
    let mut bytes = [0; 4];
    let mut sink = HostSink::new(bytes.as_mut_slice());
    assert_eq!(rt; put_all(&mut sink, b"ab"), Ok(()));
    assert_eq!(rt; sink.flush(), Ok(()));
    // There is room for two more, and then a write takes nothing.
    assert_eq!(rt; put_all(&mut sink, b"cde"), Err(PutError::WriteFault));
    assert_eq!(rt; bytes, *b"abcd");

    let mut output = HostSink::new(rt.stdout());
    let mut errors = HostSink::new(rt.stderr());
    assert_eq!(rt; put_all(&mut output, b"output\n"), Ok(()));
    assert_eq!(rt; put_all(&mut errors, b"errors\n"), Ok(()));
    Ok(())
}
