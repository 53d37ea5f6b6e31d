use crate::frame::EarlyEnd;
use core_tree::{OutOfMemory, Text, What};
use heap_arena::MakeError;
use pb_io::PutError;

/// How a run of the machine ended.
#[derive(Drop)]
pub enum RunStop {
    /// `main` ended.
    Done,
    /// An exception that nothing caught: its class, and its message where it has one.
    Uncaught { class: u32, message: Option<Text> },
    /// The budget's steps were taken, and the program wanted one more.
    StepsSpent,
    /// There was no room for a cell or for a text.
    Full(What),
    /// Memory ran out, in the machine, in the store or in the sink. It may come at any point.
    OutOfMemory,
    /// The sink failed. It comes only where the sink's count of faults rose in the run.
    WriteFault,
}

impl From<PutError> for RunStop {
    ghost use Rattle.std.specs.Prelude.{◌≡◌};
    ghost use Rattle.interpreter.specs.Machine.{refusal};

    ghost from_gives = { λ error stop. stop ≡ refusal error };

    fn from(error: PutError) -> Self {
        match error {
            PutError::WriteFault => RunStop::WriteFault,
            PutError::OutOfMemory => RunStop::OutOfMemory,
        }
    }
}

impl From<EarlyEnd> for RunStop {
    ghost use Rattle.std.specs.Prelude.{◌≡◌};
    ghost use Rattle.interpreter.specs.Machine.{stopped};

    ghost from_gives = { λ end stop. stop ≡ stopped end };

    fn from(end: EarlyEnd) -> Self {
        match end {
            EarlyEnd::OutOfMemory => RunStop::OutOfMemory,
            EarlyEnd::Refused(error) => RunStop::from(error),
        }
    }
}

impl From<MakeError> for RunStop {
    ghost use Rattle.std.specs.Prelude.{◌≡◌};
    ghost use Rattle.interpreter.specs.Machine.{unmade};

    ghost from_gives = { λ error stop. stop ≡ unmade error };

    fn from(error: MakeError) -> Self {
        match error {
            MakeError::Full => RunStop::Full(What::Cells),
            MakeError::OutOfMemory => RunStop::OutOfMemory,
        }
    }
}

impl From<OutOfMemory> for RunStop {
    ghost use Rattle.std.specs.Prelude.{◌≡◌};
    ghost use Rattle.interpreter.specs.declared.stop.RunStop.TheVariants as variant;

    ghost from_gives = { λ _ stop. stop ≡ variant.OutOfMemory };

    fn from(_: OutOfMemory) -> Self {
        RunStop::OutOfMemory
    }
}
