ghost use Rattle.std.specs.Prelude.{◌≡◌, ◌++◌, OnOk};
ghost use Rattle.std.specs.Fmt.{signed_decimal};
ghost use Rattle.core_tree.specs.Text.{code_units};
ghost use Rattle.primitive_operators.specs.Operators.{viewed};
ghost use Rattle.primitive_operators.specs.Texts.{shown};

use core_tree::{OutOfMemory, Text};
use pb_int::{Digits, decimal};

/// A value that isn't an object, whose text is borrowed. A print or a concatenation shows an int in decimal, `true` or
/// `false`, `null`, or the characters of a text (JLS 5.1.11).
#[derive(Clone, Copy)]
pub enum ScalarRef<'t> {
    Int(i32),
    Bool(bool),
    Text(&'t Text),
    Null,
}

impl<'t> ScalarRef<'t> {
    /// How many code units the text has that is shown. It takes no memory.
    pub fn units(&self) -> u32
        ensures { result ≡ code_units (shown (viewed self.now)) }
    {
        match self {
            ScalarRef::Int(n) => decimal_units(*n),
            // `true` and `null`, and then `false`.
            ScalarRef::Bool(true) | ScalarRef::Null => 4,
            ScalarRef::Bool(false) => 5,
            ScalarRef::Text(text) => text.units(),
        }
    }

    /// Appends the characters of the text that is shown.
    pub fn push_to(&self, characters: &mut Vec<char>) -> Result<(), OutOfMemory>
        ensures { OnOk result (characters.new.items ≡ characters.old.items ++ shown (viewed self.now)) }
    {
        match self {
            ScalarRef::Int(n) => push_codes(characters, decimal(*n, &mut Digits::new())),
            ScalarRef::Bool(true) => push_codes(characters, "true"),
            ScalarRef::Bool(false) => push_codes(characters, "false"),
            ScalarRef::Null => push_codes(characters, "null"),
            ScalarRef::Text(text) => Ok(characters.extend_from_slice(text.characters())?),
        }
    }
}

// How many code units the decimal text of a number has: each of its characters is one.
fn decimal_units(n: i32) -> u32
    ensures { result ≡ code_units (signed_decimal n) }
{
    decimal(n, &mut Digits::new()).len() as u32
}

// Appends the characters whose codes are the bytes of the text.
fn push_codes(characters: &mut Vec<char>, codes: &str) -> Result<(), OutOfMemory>
    ensures { OnOk result (characters.new.items ≡ characters.old.items ++ codes.now) }
{
    for code in codes.as_bytes() {
        characters.push(char::from(*code))?;
    }
    Ok(())
}
