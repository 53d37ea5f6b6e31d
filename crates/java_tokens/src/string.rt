ghost use Rattle.std.specs.Prelude.{◌≡◌, slice_index, length, ◌<◌, IfOk};
ghost use Rattle.java_tokens.specs.Reading.{IsScanned};

use crate::characters::{escaped, is_line_end};
use crate::lexeme::{Flaw, Lexeme, Scanned};
use crate::{Name, TokenKind};
use std::alloc::{AllocError, Global};

/// The string at the front, which begins with `"` (JLS 3.10.5), or what of it stands there.
pub(crate) fn scan_string(alloc: Global, characters: &[char]) -> Result<Scanned, AllocError>
    requires some { 0 < length characters.now }
    requires quote { slice_index characters.now 0 ≡ 34 }
    ensures { IfOk result (λ scanned. IsScanned characters.now scanned.lexeme scanned.len) }
{
    let mut text = Vec::new(alloc);
    let mut at = 1;
    while at < characters.len() {
        let character = characters[at];
        if character == '"' {
            let kind = TokenKind::Text(Name::new(text));
            return Ok(Scanned {
                lexeme: Lexeme::Token(kind),
                len: at + 1,
            });
        }
        if is_line_end(character) {
            return Ok(malformed(Flaw::OpenString, at));
        }
        if character != '\\' {
            text.push(character)?;
            at += 1;
            continue;
        }
        if at + 1 == characters.len() {
            return Ok(malformed(Flaw::OpenString, at + 1));
        }
        match escaped(characters[at + 1]) {
            Some(meant) => text.push(meant)?,
            None => return Ok(malformed(Flaw::Escape, at + 2)),
        }
        at += 2;
    }
    Ok(malformed(Flaw::OpenString, at))
}

/// A malformed text of this length.
fn malformed(flaw: Flaw, len: usize) -> Scanned
    ensures lexeme { result.lexeme ≡ Lexeme.Malformed flaw }
    ensures len { result.len ≡ len }
{
    Scanned {
        lexeme: Lexeme::Malformed(flaw),
        len,
    }
}
