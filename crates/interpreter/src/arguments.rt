//! The program's arguments, as its first object.

ghost use Rattle.std.specs.Prelude.{◌≡◌, ◌<◌, ◌≤◌, IfOk, OnOk, IsErrOf, IsTrue, [], map, nat_le, not};
ghost use Rattle.std.specs.Str.{chars};
ghost use Rattle.core_tree.specs.Text.{code_units, units_of};
ghost use Rattle.heap_arena.specs.declared.error.MakeError.TheVariants as error;
ghost use Rattle.heap_arena.specs.Heap.{cell_count, most_cells};
ghost use Rattle.heap_arena.specs.State.{ChangesHeap};
ghost use Rattle.evaluation.specs.Values.{most_units};
ghost use Rattle.evaluation.specs.Run.{arguments_heap, has_short_arguments};
ghost use Rattle.interpreter.specs.Machine.{text_of};

use core_tree::{OutOfMemory, Text, Ty};
use heap_arena::{Cell, Kind, MakeError, Store};
use object_cells::{make, write};
use std::alloc::Global;

/// A text has at most that many code units.
const MOST_UNITS: u32 = 1_048_576;

/// Whether an argument has too many code units.
pub fn has_long_argument(alloc: Global, args: &[String]) -> Result<bool, OutOfMemory>
    ensures { IfOk result (λ long. long ≡ not (has_short_arguments (map text_of args.now))) }
{
    for arg in args {
        let characters = characters_of(alloc, arg.as_str())?;
        if is_long(characters.as_slice()) {
            return Ok(true);
        }
    }
    Ok(false)
}

// The characters of a text.
fn characters_of(alloc: Global, text: &str) -> Result<Vec<char>, OutOfMemory>
    ensures { IfOk result (λ characters. characters.items ≡ chars text.now) }
{
    let characters: Vec<char> = text.chars().collect(alloc)?;
    Ok(characters)
}

// Whether a text has too many code units.
fn is_long(characters: &[char]) -> bool
    ensures { result ≡ not (nat_le (code_units characters.now) most_units) }
{
    let mut units = 0;
    for character in characters {
        units += units_of(*character);
        if units > MOST_UNITS {
            return true;
        }
    }
    false
}

// How many code units a character takes (JLS 3.1).
fn units_of(character: char) -> u32
    ensures { result ≡ units_of character }
{
    if (character as u32) < 0x1_0000 { 1 } else { 2 }
}

/// Makes the array of the arguments in a store without objects.
pub fn put_arguments<S: Store>(
    alloc: Global,
    store: &mut S,
    args: &[String],
) -> Result<(), MakeError>
    requires short { IsTrue (has_short_arguments (map text_of args.now)) }
    requires empty { (S.state store.old).now ≡ [] }
    ensures made { OnOk result ((S.state store.new).now ≡ arguments_heap (map text_of args.now)) }
    ensures full { IsErrOf result error.Full → most_cells < cell_count (arguments_heap (map text_of args.now)) }
    ensures fits { OnOk result (cell_count (arguments_heap (map text_of args.now)) ≤ most_cells) }
    ensures others { ChangesHeap (S.state store.old) (S.state store.new) }
{
    let Ok(count) = u32::try_from(args.len()) else {
        return Err(MakeError::Full);
    };
    make(store, Kind::Array(Ty::Text), count)?;
    let mut at = 0;
    for arg in args {
        let text = text(alloc, arg.as_str())?;
        write(store, 0, at, Cell::Text(text))?;
        at += 1;
    }
    Ok(())
}

// The text with these characters.
fn text(alloc: Global, of: &str) -> Result<Text, OutOfMemory>
    requires { code_units (chars of.now) ≤ most_units }
    ensures { IfOk result (λ text. text ≡ chars of.now) }
{
    Text::new(alloc, characters_of(alloc, of)?)
}
