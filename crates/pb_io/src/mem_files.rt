ghost use Rattle.std.specs.Prelude.{◌+◌, ◌^◌, ◌≡◌, ◌<◌, ◌≤◌, ◌↔◌, ◌⊎◌, min, length, take, map, position, bytes_eq, string_bytes, None, IsSome, IsNone, IfOk, IfErr, IfSome, OnOk, IsErrOf};
ghost use Rattle.pb_io.specs.Calls.{NextFails};
ghost use Rattle.pb_io.specs.Faults.{Counts};
ghost use Rattle.pb_io.specs.Place.{rest_at, IsPlace};
ghost use Rattle.pb_io.specs.MemFiles.{named_file, bytes_of, files_state, new_files, after_start, after_read};

use crate::calls::CallCounter;
use crate::{Files, OutsideFault};
use std::alloc::AllocError;
use std::marker::Model;

// Where the reading goes on: a file and how many of its bytes are read.
#[derive(Clone, Copy)]
struct Place {
    file: usize,
    offset: usize,
}

/// Files in memory, which fail at the calls that they are told to, and where a name is missing.
#[derive(Drop)]
pub struct MemFiles {
    files: Vec<(String, Vec<u8>)>,
    started: Vec<String>,
    place: Option<Place>,
    calls: CallCounter,
    faults: u64,
}

impl Model for MemFiles {
    ghost use Rattle.std.specs.Prelude.{map, string_bytes};
    ghost use Rattle.pb_io.specs.MemFiles.{MemFilesState, named_file};

    ghost Value = { MemFilesState };

    ghost use Rattle.pb_io.specs.Place.{rest_at, IsPlace};

    ghost view = { λ fields. record {
      files = map named_file fields.files.items;
      started = map string_bytes fields.started.items;
      rest = rest_at (map named_file fields.files.items) fields.place;
      calls = fields.calls;
      faults = fields.faults;
    } };

    ghost invariant = { λ fields. IsPlace (map named_file fields.files.items) fields.place };
}

// The index of the first file of this name.
fn index_of(files: &[(String, Vec<u8>)], name: &str) -> Option<usize>
    ensures { result ≡ position (λ file. bytes_eq (string_bytes file.0) name.now) files.now }
{
    files.iter().position(|file| file.0.as_str() == name)
}

// The beginning of the first file of this name.
fn beginning_of(files: &[(String, Vec<u8>)], name: &str) -> Option<Place>
    ensures place { IsPlace (map named_file files.now) result }
    ensures rest { rest_at (map named_file files.now) result ≡ bytes_of (map named_file files.now) name.now }
{
    match index_of(files, name) {
        Some(file) => Some(Place { file, offset: 0 }),
        None => None,
    }
}

// The bytes that aren't read yet.
fn rest_of(files: &[(String, Vec<u8>)], place: Place) -> &[u8]
    requires { IsPlace (map named_file files.now) (Some place) }
    ensures rest { rest_at (map named_file files.now) (Some place) ≡ Some result.now }
    ensures fits { place.offset + length result.now < 2 ^ 64 }
{
    &files[place.file].1[place.offset..]
}

// Copies as many bytes as there are and as there is room for, and answers how many.
fn copy_front(bytes: &[u8], into: &mut [u8]) -> usize
    ensures count { result ≡ min (length into.old) (length bytes.now) }
    ensures copied { take result into.new ≡ take result bytes.now }
{
    let count = into.len().min(bytes.len());
    into[..count].copy_from_slice(&bytes[..count]);
    count
}

impl MemFiles {
    /// These files under their names, none of them started. With a name twice, the first pair counts. The calls
    /// with these numbers fail; starts and reads are counted together, from 1. A start that is refused because memory
    /// ran out is counted too; its name isn't among those started, and no file is.
    pub fn new(files: Vec<(String, Vec<u8>)>, failing: Vec<u64>) -> Self
        ensures { result ≡ new_files (map named_file files.items) failing.items }
    {
        MemFiles {
            started: Vec::new(*files.allocator()),
            files,
            place: None,
            calls: CallCounter::new(failing),
            faults: 0,
        }
    }

    /// The names started so far, in order, also those whose start failed.
    pub fn started(&self) -> &[String]
        ensures { map string_bytes result.now ≡ self.now.started }
    {
        &self.started
    }
}

impl Files for MemFiles {
    ghost state = { files_state };

    fn start(&mut self, name: &str) -> Result<(), OutsideFault>
        // A start fails at its number, and where no file has the name.
        ensures failed { IsErrOf result OutsideFault.Failed
            → NextFails self.old.calls ⊎ IsNone (bytes_of self.old.files name.now) }
        ensures not_failing { OnOk result (¬ NextFails self.old.calls) }
        ensures found { OnOk result (IsSome (bytes_of self.old.files name.now)) }

        ensures after { self.new ≡ after_start self.old name.now result }
        ensures faults { Counts OutsideFault.Failed self.old.faults self.new.faults result }
    {
        let fails = self.calls.next_fails();
        self.place = None;
        let copy = String::from_str(*self.started.allocator(), name)?;
        self.started.push(copy).map_err(AllocError::from)?;
        if !fails {
            self.place = beginning_of(&self.files, name);
        }
        if self.place.is_none() {
            self.faults = self.faults.saturating_add(1);
            return Err(OutsideFault::Failed);
        }
        Ok(())
    }

    fn read(&mut self, into: &mut [u8]) -> Result<usize, OutsideFault>
        requires started { IsSome self.old.rest }
        requires room { 0 < length into.old }
        ensures taken { IfOk result (λ n. IfSome self.old.rest (λ rest. n ≡ min (length into.old) (length rest))) }
        ensures front { IfOk result (λ n. IfSome self.old.rest (λ rest. take n into.new ≡ take n rest)) }
        ensures failed { IsErrOf result OutsideFault.Failed ↔ NextFails self.old.calls }
        ensures no_memory { IfErr result (λ fault. fault ≡ OutsideFault.Failed) }
        ensures after { self.new ≡ after_read self.old result }
        ensures faults { Counts OutsideFault.Failed self.old.faults self.new.faults result }
    {
        if self.calls.next_fails() {
            self.faults = self.faults.saturating_add(1);
            return Err(OutsideFault::Failed);
        }
        let Some(place) = self.place else {
            unreachable!()
        };
        let taken = copy_front(rest_of(&self.files, place), into);
        self.place = Some(Place {
            file: place.file,
            offset: place.offset + taken,
        });
        Ok(taken)
    }
}
