ghost use Rattle.std.specs.Prelude.{◌≡◌, ◌+◌, ◌<◌, ◌≤◌, ◌^◌, take, length, encode_utf8, if◌then◌else◌};
ghost use Rattle.java_tokens.specs.Characters.{is_line_end};
ghost use Rattle.java_tokens.specs.Places.{offset, ends_line};
ghost use Rattle.java_tokens.specs.Reading.{IsPlace};

use crate::characters::is_line_end;

/// Where a character stands: how many bytes are in front of it, and its line and column, both from 1.
#[derive(Clone, Copy, Debug, PartialEq, Eq)]
pub(crate) struct Place {
    pub(crate) offset: u32,
    pub(crate) line: u32,
    pub(crate) column: u32,
}

impl Place {
    /// Where the first character stands.
    pub(crate) const START: Place = Place {
        offset: 0,
        line: 1,
        column: 1,
    };

    /// Where the character at `to` stands, where this is the place of the character at `from`.
    pub(crate) fn moved(self, characters: &[char], from: usize, to: usize) -> Place
        requires order { from ≤ to }
        requires within { to ≤ length characters.now }
        requires few { offset characters.now < 2 ^ 31 }
        requires here { IsPlace (take from characters.now) self }
        ensures { IsPlace (take to characters.now) result }
    {
        let mut place = self;
        for at in from..to {
            let behind_return = at > 0 && characters[at - 1] == '\r';
            place = place.behind(characters[at], behind_return);
        }
        place
    }

    /// Where the next character stands, after this one, which may stand directly after a carriage return. Each number
    /// has room for the bytes of a character.
    fn behind(self, character: char, behind_return: bool) -> Place
        requires bytes { self.offset + 4 < 2 ^ 32 }
        requires lines { self.line + 4 < 2 ^ 32 }
        requires columns { self.column + 4 < 2 ^ 32 }
        ensures offset { result.offset ≡ self.offset + length (encode_utf8 character) }
        ensures line { result.line ≡ self.line + (if ends_line behind_return character then 1 else 0) }
        ensures column { result.column ≡ (if is_line_end character then 1 else self.column + 1) }
    {
        let offset = self.offset + character.len_utf8() as u32;
        if !is_line_end(character) {
            return Place {
                offset,
                line: self.line,
                column: self.column + 1,
            };
        }
        let line = if character == '\n' && behind_return {
            self.line
        } else {
            self.line + 1
        };
        Place {
            offset,
            line,
            column: 1,
        }
    }
}
