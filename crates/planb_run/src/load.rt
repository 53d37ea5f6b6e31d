ghost use Rattle.std.specs.Prelude.{◌≡◌, IfOk, IfErr};
ghost use Rattle.pb_io.specs.Faults.{Counts};
ghost use Rattle.core_tree.specs.WellTyped.{IsWellTyped};
ghost use Rattle.planb_run.specs.Headline.{StartsAtMost, HasProgram};
ghost use Rattle.planb_run.specs.Stages.{RefusesFile};

use crate::Stop;
use core_tree::Program;
use java_source::{MOST_BYTES, SourceError, SourceRefusal, program_of};
use pb_io::{Files, ReadError, read_file};
use std::alloc::Global;

impl From<ReadError> for Stop {
    ghost use Rattle.std.specs.Prelude.{◌≡◌};
    ghost use Rattle.planb_run.specs.Causes.{read_stop};

    ghost from_gives = { λ error stop. stop ≡ read_stop error };

    fn from(error: ReadError) -> Self {
        match error {
            ReadError::ReadFault => Stop::ReadFault,
            ReadError::TooLong => Stop::Refused(SourceRefusal::TooLong),
            ReadError::OutOfMemory => Stop::OutOfMemory,
        }
    }
}

impl From<SourceError> for Stop {
    ghost use Rattle.std.specs.Prelude.{◌≡◌};
    ghost use Rattle.planb_run.specs.Causes.{source_stop};

    ghost from_gives = { λ error stop. stop ≡ source_stop error };

    fn from(error: SourceError) -> Self {
        match error {
            SourceError::Refused(why) => Stop::Refused(why),
            SourceError::OutOfMemory => Stop::OutOfMemory,
        }
    }
}

/// The program of the source in the file of this name, or why there is none. It starts the file at most once, and no
/// other. A read fault comes exactly where the files failed.
pub fn load<F: Files>(alloc: Global, files: &mut F, file: &str) -> Result<Program, Stop>
    ensures ok { IfOk result (HasProgram (F.state files.old) file.now) }
    ensures well_typed { IfOk result IsWellTyped }
    ensures err { IfErr result (RefusesFile (F.state files.old) file.now) }
    ensures faults { Counts Stop.ReadFault (F.state files.old).faults (F.state files.new).faults result }
    ensures names { StartsAtMost (F.state files.old) (F.state files.new) file.now }
{
    let bytes = read_file(alloc, files, file, MOST_BYTES)?;
    let program = program_of(alloc, &bytes)?;
    Ok(program)
}
