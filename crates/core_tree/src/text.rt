ghost use Rattle.std.specs.Prelude.{◌≡◌, ◌<◌, ◌^◌, IfOk};
ghost use Rattle.core_tree.specs.Text.{code_units, units_of};

use crate::OutOfMemory;
use std::alloc::Global;
use std::marker::Model;
use std::rc::Rc;

/// A text: a list of characters that is never changed, and that several places may share.
#[derive(Drop)]
pub struct Text {
    content: Rc<Content>,
}

/// The characters of a text, and how many code units they take.
#[derive(Drop)]
struct Content {
    characters: Vec<char>,
    units: u32,
}

impl Model for Text {
    ghost use Rattle.std.specs.Prelude.{◌≡◌, List, ℕ};
    ghost use Rattle.core_tree.specs.Text.{code_units};

    ghost Value = { List ℕ };

    ghost view = { λ text. text.content.value.characters.items };

    ghost invariant = { λ text. text.content.value.units ≡ code_units text.content.value.characters.items };
}

impl Text {
    /// The text with these characters, which have fewer than 2^32 code units.
    pub fn new(alloc: Global, characters: Vec<char>) -> Result<Text, OutOfMemory>
        requires { code_units characters.items < 2 ^ 32 }
        ensures { IfOk result (λ text. text ≡ characters.items) }
    {
        let mut units = 0;
        for character in &characters {
            units += units_of(*character);
        }
        let content = Rc::new(alloc, Content { characters, units })?;
        Ok(Text { content })
    }

    /// The characters in order.
    pub fn characters(&self) -> &[char]
        ensures { result.now ≡ self.now }
    {
        self.content.characters.as_slice()
    }

    /// How many UTF-16 code units the text has (JLS 3.1). It takes no memory.
    pub fn units(&self) -> u32
        ensures { result ≡ code_units self.now }
    {
        self.content.units
    }

    /// The same text, shared: no character is copied. It may be refused as every copy may.
    pub fn share(&self) -> Result<Text, OutOfMemory>
        ensures { IfOk result (λ text. text ≡ self.now) }
    {
        Ok(Text {
            content: self.content.clone()?,
        })
    }
}

// How many code units the character has.
fn units_of(character: char) -> u32
    ensures { result ≡ units_of character }
{
    if character < '\u{10000}' { 1 } else { 2 }
}
