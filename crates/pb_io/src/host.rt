ghost use Rattle.std.specs.Prelude.{◌≡◌, Ok, IfOk};
ghost use Rattle.pb_io.specs.Faults.{Counts};

use crate::OutsideFault;
use std::io;

// Answers an error of the system as a fault, and counts it unless memory ran out.
pub(crate) fn counted<T: Drop>(faults: &mut u64, outcome: io::Result<T>) -> Result<T, OutsideFault>
    ensures value { IfOk result (λ value. outcome ≡ Ok value) }
    ensures faults { Counts OutsideFault.Failed faults.old faults.new result }
{
    match outcome {
        Ok(value) => Ok(value),
        Err(error) => {
            let fault = OutsideFault::from(error);
            if fault == OutsideFault::Failed {
                *faults = faults.saturating_add(1);
            }
            Err(fault)
        }
    }
}
