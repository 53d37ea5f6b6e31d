ghost use Rattle.std.specs.Prelude.{◌≡◌, ℕ, List, IfOk, IsErr};
ghost use Rattle.heap_arena.specs.declared.cell.Cell.TheVariants as value;
ghost use Rattle.evaluation.specs.declared.computed.Computed.TheVariants as computed;
ghost use Rattle.evaluation.specs.Values.{concatenated, literal, text_equals, text_length, units_value};

use crate::scalars::scalar;
use core_tree::{BuiltIn, OutOfMemory, Text};
use evaluation::Computed;
use heap_arena::Cell;
use std::alloc::Global;

// The most code units of a text.
const MOST_UNITS: u32 = 1_048_576;

/// The value of a text literal, shared: no character is copied. A text of more than 1,048,576 code units is `TooLong`.
pub fn literal(text: &Text) -> Result<Computed, OutOfMemory>
    ensures value { IfOk result (λ it. it ≡ literal (value.Text text.now)) }
    ensures memory { IsErr result → literal (value.Text text.now) ≡ computed.Gives (value.Text text.now) }
{
    if text.units() > MOST_UNITS {
        return Ok(Computed::TooLong);
    }
    Ok(Computed::Gives(Cell::Text(text.share()?)))
}

/// The texts of two values, one after the other (JLS 15.18.1): ints in decimal, `true` and `false`, `null`, and the
/// characters of a text. More than 1,048,576 code units are `TooLong`, which is found before memory is asked for; a
/// reference gives `NoMeaning`. Each character is copied once.
pub fn concatenated(alloc: Global, a: &Cell<u32>, b: &Cell<u32>) -> Result<Computed, OutOfMemory>
    ensures value { IfOk result (λ it. it ≡ concatenated a.now b.now) }
    ensures memory { IsErr result → (t : List ℕ) × (concatenated a.now b.now ≡ computed.Gives (value.Text t)) }
{
    let Some(first) = scalar(a) else {
        return Ok(Computed::NoMeaning);
    };
    let Some(second) = scalar(b) else {
        return Ok(Computed::NoMeaning);
    };
    match primitive_operators::concatenated(alloc, first, second, MOST_UNITS)? {
        Some(text) => Ok(Computed::Gives(Cell::Text(text))),
        None => Ok(Computed::TooLong),
    }
}

/// The number of code units of a text, in constant time; null traps, and every other value gives `NoMeaning`, as does a
/// text of more than 1,048,576 code units.
pub fn text_length(v: &Cell<u32>) -> Computed
    ensures { result ≡ text_length v.now }
{
    match v {
        Cell::Text(text) => units_value(text.units()),
        Cell::Null => Computed::Traps(BuiltIn::NullPointerException),
        Cell::Int(_) | Cell::Bool(_) | Cell::Ref(_) => Computed::NoMeaning,
    }
}

/// Whether two texts have the same characters. A null first traps, whatever the second is; no text equals null. Every
/// other value gives `NoMeaning`.
pub fn text_equals(a: &Cell<u32>, b: &Cell<u32>) -> Computed
    ensures { result ≡ text_equals a.now b.now }
{
    match a {
        Cell::Text(first) => match b {
            Cell::Text(second) => {
                Computed::Gives(Cell::Bool(first.characters() == second.characters()))
            }
            Cell::Null => Computed::Gives(Cell::Bool(false)),
            Cell::Int(_) | Cell::Bool(_) | Cell::Ref(_) => Computed::NoMeaning,
        },
        Cell::Null => Computed::Traps(BuiltIn::NullPointerException),
        Cell::Int(_) | Cell::Bool(_) | Cell::Ref(_) => Computed::NoMeaning,
    }
}

// The int that counts code units, where no more are counted than a text may have.
fn units_value(units: u32) -> Computed
    ensures { result ≡ units_value units }
{
    if units > MOST_UNITS {
        return Computed::NoMeaning;
    }
    Computed::Gives(Cell::Int(units as i32))
}
