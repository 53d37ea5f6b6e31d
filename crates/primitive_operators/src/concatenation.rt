ghost use Rattle.std.specs.Prelude.{◌≡◌, ◌≤◌, IfOk, IsErr};
ghost use Rattle.core_tree.specs.Text.{code_units};
ghost use Rattle.primitive_operators.specs.Operators.{viewed};
ghost use Rattle.primitive_operators.specs.Texts.{concatenated, text_within};

use crate::ScalarRef;
use core_tree::{OutOfMemory, Text};
use std::alloc::Global;

/// The text that shows `a` and then `b` (JLS 15.18.1); `None` where it has more than `most` code units, which is found
/// before memory is asked for. Each character is copied once.
///
/// # Errors
/// `OutOfMemory` where memory runs out.
#[tactic(auto, using(crate::proofs::TextUnits::units_append))]
pub fn concatenated(
    alloc: Global,
    a: ScalarRef,
    b: ScalarRef,
    most: u32,
) -> Result<Option<Text>, OutOfMemory>
    ensures value { IfOk result (λ text. text ≡ text_within most (concatenated (viewed a.entry) (viewed b.entry))) }
    ensures memory { IsErr result → code_units (concatenated (viewed a.entry) (viewed b.entry)) ≤ most }
{
    let first = a.units();
    let second = b.units();
    if first > most || second > most - first {
        return Ok(None);
    }
    // A text has no more characters than code units.
    let mut characters = Vec::with_capacity(alloc, (first + second) as usize)?;
    a.push_to(&mut characters)?;
    b.push_to(&mut characters)?;
    Ok(Some(Text::new(alloc, characters)?))
}
