//! Files in memory and files of the system.

use pb_io::{HostFiles, MemFiles, ReadError, read_file};
use std::alloc::{AllocError, Global};
use std::test::Fail;
use std::{env, fs, process};

// A file that is read up to a limit, where this call fails.
#[derive(Clone, Copy)]
struct FileRow {
    name: &'static str,
    limit: usize,
    failing: u64,
    bytes: &'static [u8],
    error: Option<ReadError>,
}

const ROWS: [FileRow; 5] = [
    FileRow {
        name: "five",
        limit: 5,
        failing: 0,
        bytes: b"abcde",
        error: None,
    },
    FileRow {
        name: "five",
        limit: 4,
        failing: 0,
        bytes: b"",
        error: Some(ReadError::TooLong),
    },
    FileRow {
        name: "none",
        limit: 5,
        failing: 0,
        bytes: b"",
        error: Some(ReadError::ReadFault),
    },
    FileRow {
        name: "five",
        limit: 5,
        failing: 1,
        bytes: b"",
        error: Some(ReadError::ReadFault),
    },
    FileRow {
        name: "five",
        limit: 5,
        failing: 2,
        bytes: b"",
        error: Some(ReadError::ReadFault),
    },
];

// An empty file, and a file of five bytes whose name stands twice.
fn make_files(alloc: Global) -> Result<Vec<(String, Vec<u8>)>, AllocError> {
    let mut files = Vec::new(alloc);
    files.push((String::from_str(alloc, "empty")?, Vec::new(alloc)))?;
    files.push((String::from_str(alloc, "five")?, b"abcde".to_vec(alloc)?))?;
    files.push((String::from_str(alloc, "five")?, b"other".to_vec(alloc)?))?;
    Ok(files)
}

#[test]
fn files_in_memory_are_read_whole(rt: HostRuntime) -> Result<(), Fail> {
    let alloc = rt.alloc();
    for row in ROWS {
        let failing = vec![in alloc; row.failing]?;
        let mut files = MemFiles::new(make_files(alloc)?, failing);
        let name = row.name;
        match read_file(alloc, &mut files, name, row.limit) {
            Ok(bytes) => {
                assert_eq!(rt; None, row.error, "{name}");
                assert_eq!(rt; bytes.as_slice(), row.bytes, "{name}");
            }
            Err(error) => assert_eq!(rt; Some(error), row.error, "{name}"),
        }
        assert_eq!(rt; files.started().len(), 1);
        assert_eq!(rt; files.started()[0].as_bytes(), name.as_bytes());
    }
    Ok(())
}

#[test]
fn a_file_of_the_system_is_read(rt: HostRuntime) -> Result<(), Fail> {
    let alloc = rt.alloc();
    let process = process::id(rt.process());
    let file = format!(in alloc; "pb_io_{process}")?;
    let path = env::temp_dir(&rt)?.join(alloc, file.as_str())?;
    let name = path.as_str();
    // More bytes than one read takes.
    let bytes = vec![in alloc; b'x'; 10_000]?;
    fs::write(&rt, name, bytes.as_slice())?;
    let mut files = HostFiles::new(&rt);
    let read = read_file(alloc, &mut files, name, 10_000)?;
    assert_eq!(rt; read, bytes);
    fs::remove_file(&rt, name)?;
    let missing = read_file(alloc, &mut files, name, 10_000).err();
    assert_eq!(rt; missing, Some(ReadError::ReadFault));
    Ok(())
}
