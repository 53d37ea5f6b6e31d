ghost use Rattle.std.specs.Prelude.{◌≡◌, false};
ghost use Rattle.pb_io.specs.Host.{host_state};

use crate::host::counted;
use crate::{Files, OutsideFault};
use std::io::Read;
use std::marker::Model;
use std::{fs, rt};

/// The files of the system, by their paths. They tell whether a file is started and how often they failed.
#[derive(Drop)]
pub struct HostFiles<R: rt::Files + Drop> {
    runtime: R,
    file: Option<R::File>,
    faults: u64,
}

impl<R: rt::Files + Drop> Model for HostFiles<R> {
    ghost use Rattle.std.specs.Prelude.{is_some};
    ghost use Rattle.pb_io.specs.Host.{HostFilesState};

    ghost Value = { HostFilesState };

    ghost view = { λ files. record { is_started = is_some files.file; faults = files.faults } };
}

impl<R: rt::Files + Drop> HostFiles<R> {
    /// The files that this runtime reaches, none of them started, and with no fault so far.
    pub fn new(runtime: R) -> Self
        ensures { result ≡ record { is_started = false; faults = 0 } }
    {
        HostFiles {
            runtime,
            file: None,
            faults: 0,
        }
    }
}

impl<R: rt::Files + Drop> Files for HostFiles<R> {
    ghost state = { host_state };

    fn start(&mut self, name: &str) -> Result<(), OutsideFault> {
        self.file = None;
        let opened = fs::open(&self.runtime, name);
        self.file = Some(counted(&mut self.faults, opened)?);
        Ok(())
    }

    fn read(&mut self, into: &mut [u8]) -> Result<usize, OutsideFault> {
        let outcome = match &mut self.file {
            Some(file) => file.read(into),
            None => unreachable!(),
        };
        counted(&mut self.faults, outcome)
    }
}
