use std::alloc::AllocError;
use std::io;
use thiserror::Error;

/// Why a call to the outside gave nothing.
#[derive(Clone, Copy, Debug, PartialEq, Eq, Drop, Error)]
pub enum OutsideFault {
    /// The outside failed. It comes exactly where the object's count of faults rose in the call.
    #[error("the outside failed")]
    Failed,
    /// Memory ran out. It may come at any call.
    #[error("out of memory")]
    OutOfMemory,
}

impl From<AllocError> for OutsideFault {
    ghost use Rattle.std.specs.Prelude.{◌≡◌};
    ghost use Rattle.pb_io.specs.declared.fault.OutsideFault.TheVariants.{OutOfMemory};

    ghost from_gives = { λ _ fault. fault ≡ OutOfMemory };

    fn from(_: AllocError) -> Self {
        OutsideFault::OutOfMemory
    }
}

impl From<io::Error> for OutsideFault {
    ghost use Rattle.std.specs.Prelude.{◌≡◌, ◌↔◌};
    ghost use Rattle.std.specs.IoError.{error_kind};
    ghost use Rattle.std.specs.declared.io.ErrorKind.TheVariants as kind;
    ghost use Rattle.pb_io.specs.declared.fault.OutsideFault.TheVariants.{OutOfMemory};

    ghost from_gives = { λ error fault. (fault ≡ OutOfMemory) ↔ (error_kind error ≡ kind.OutOfMemory) };

    fn from(error: io::Error) -> Self {
        if error.kind() == io::ErrorKind::OutOfMemory {
            OutsideFault::OutOfMemory
        } else {
            OutsideFault::Failed
        }
    }
}
