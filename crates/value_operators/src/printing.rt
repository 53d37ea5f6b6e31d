ghost use Rattle.std.specs.Prelude.{◌≡◌, ◌++◌, IfOk, IsErr, IsSome, OnOk, option_map, string_bytes};
ghost use Rattle.std.specs.Fmt.{signed_decimal};
ghost use Rattle.std.specs.Str.{encode_utf8_all};
ghost use Rattle.evaluation.specs.Execute.{printed};
ghost use Rattle.primitive_operators.specs.Operators.{viewed};
ghost use Rattle.primitive_operators.specs.Texts as texts;
ghost use Rattle.evaluation.specs.Values.{shown};

use crate::scalars::scalar;
use core_tree::OutOfMemory;
use heap_arena::Cell;
use pb_int::{Digits, decimal};
use primitive_operators::ScalarRef;
use std::alloc::Global;

/// The bytes that a print of a value writes: the text that is shown of it in UTF-8, and a line feed where the line
/// ends. There are none for a reference.
pub fn print_bytes(alloc: Global, line: bool, v: &Cell<u32>) -> Result<Option<Vec<u8>>, OutOfMemory>
    ensures value { IfOk result (λ it. option_map (λ bytes. bytes.items) it ≡ option_map (printed line) (shown v.now)) }
    ensures memory { IsErr result → IsSome (shown v.now) }
{
    let Some(shown) = scalar(v) else {
        return Ok(None);
    };
    let mut text = String::new(alloc);
    push_shown(&mut text, shown)?;
    if line {
        text.push('\n')?;
    }
    Ok(Some(text.into_bytes()))
}

// Appends the text that is shown of a value.
fn push_shown(text: &mut String, v: ScalarRef) -> Result<(), OutOfMemory>
    ensures { OnOk result (string_bytes text.new ≡ string_bytes text.old ++ encode_utf8_all (texts.shown (viewed v.entry))) }
{
    match v {
        ScalarRef::Int(n) => push_int(text, n),
        ScalarRef::Bool(true) => Ok(text.push_str("true")?),
        ScalarRef::Bool(false) => Ok(text.push_str("false")?),
        ScalarRef::Null => Ok(text.push_str("null")?),
        ScalarRef::Text(shown) => push_characters(text, shown.characters()),
    }
}

// Appends the decimal text of a number.
fn push_int(text: &mut String, n: i32) -> Result<(), OutOfMemory>
    ensures { OnOk result (string_bytes text.new ≡ string_bytes text.old ++ encode_utf8_all (signed_decimal n)) }
{
    text.push_str(decimal(n, &mut Digits::new()))?;
    Ok(())
}

// Appends the characters.
fn push_characters(text: &mut String, characters: &[char]) -> Result<(), OutOfMemory>
    ensures { OnOk result (string_bytes text.new ≡ string_bytes text.old ++ encode_utf8_all characters.now) }
{
    for character in characters {
        text.push(*character)?;
    }
    Ok(())
}
