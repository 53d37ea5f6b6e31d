ghost use Rattle.std.specs.Prelude.{◌≡◌, ◌+◌, ◌-◌, ◌<◌, ◌≤◌, ◌^◌, length, take, drop, vec_len, IfOk, IfErr};
ghost use Rattle.std.specs.Str.{StartsWithNoChar};
ghost use Rattle.java_tokens.specs.Lexemes.{IsLexeme};
ghost use Rattle.java_tokens.specs.Places.{offset};
ghost use Rattle.java_tokens.specs.Tokens.{AreTokens};
ghost use Rattle.java_tokens.specs.Faults.{HasFault};
ghost use Rattle.java_tokens.specs.Reading.{IsPlace, IsFaultOf, HasTokens, StopsAt};

use crate::lexeme::{Flaw, Lexeme};
use crate::place::Place;
use crate::scan::scan;
use crate::{Token, TokenError, TokenKind};
use std::alloc::Global;
use std::str;

/// The longest front of the bytes that is UTF-8.
fn text_of(bytes: &[u8]) -> &str
    ensures within { length result.now ≤ length bytes.now }
    ensures front { result.now ≡ take (length result.now) bytes.now }
    ensures stuck { StartsWithNoChar (drop (length result.now) bytes.now) }
{
    match str::from_utf8(bytes) {
        Ok(text) => text,
        Err(error) => str::from_utf8(&bytes[..error.valid_up_to()]).unwrap(),
    }
}

/// The error of a malformed text, which stands at `place` and takes the characters from `from` to before `to`. They are
/// all of the file where `whole` is true; else a bad byte stands after them, and it counts where a text is open there.
fn fault_of(
    flaw: Flaw,
    place: Place,
    characters: &[char],
    whole: bool,
    from: usize,
    to: usize,
) -> TokenError
    requires order { from ≤ to }
    requires within { to ≤ length characters.now }
    requires few { offset characters.now < 2 ^ 31 }
    requires here { IsPlace (take from characters.now) place }
    requires flawed { IsLexeme (Lexeme.Malformed flaw) (take (to - from) (drop from characters.now)) }
    ensures { IsFaultOf flaw characters.now whole from to result }
{
    match flaw {
        Flaw::Character => TokenError::BadChar(place.offset),
        Flaw::Number => TokenError::BadNumber(place.offset),
        Flaw::Escape => TokenError::BadChar(place.moved(characters, from, to - 2).offset),
        Flaw::OpenString | Flaw::OpenComment => {
            if to == characters.len() && !whole {
                TokenError::BadUtf8(place.moved(characters, from, to).offset)
            } else {
                TokenError::Unclosed(place.offset)
            }
        }
    }
}

/// A token that stands at `place`, up to before the byte `end`.
fn token(kind: TokenKind, place: Place, end: u32) -> Token
    ensures kind { result.kind ≡ kind }
    ensures start { result.start ≡ place.offset }
    ensures end { result.end ≡ end }
    ensures line { result.line ≡ place.line }
    ensures column { result.column ≡ place.column }
{
    Token {
        kind,
        start: place.offset,
        end,
        line: place.line,
        column: place.column,
    }
}

/// The tokens of these characters, which are all of the file where `whole` is true; else a bad byte stands after them.
fn read(alloc: Global, characters: &[char], whole: bool) -> Result<Vec<Token>, TokenError>
    requires { offset characters.now < 2 ^ 31 }
    ensures ok { IfOk result (λ tokens. HasTokens characters.now whole tokens.items) }
    ensures few { IfOk result (λ tokens. vec_len tokens ≤ length characters.now + 1) }
    ensures err { IfErr result (StopsAt characters.now whole) }
{
    let mut tokens = Vec::new(alloc);
    let mut at = 0;
    let mut place = Place::START;
    while at < characters.len() {
        let scanned = scan(alloc, &characters[at..])?;
        let end = at + scanned.len;
        let behind = place.moved(characters, at, end);
        match scanned.lexeme {
            Lexeme::White | Lexeme::Comment => {}
            Lexeme::Token(kind) => tokens.push(token(kind, place, behind.offset))?,
            Lexeme::Malformed(flaw) => {
                return Err(fault_of(flaw, place, characters, whole, at, end));
            }
        }
        at = end;
        place = behind;
    }
    if !whole {
        return Err(TokenError::BadUtf8(place.offset));
    }
    tokens.push(token(TokenKind::End, place, place.offset))?;
    Ok(tokens)
}

/// The tokens of a source, in order, with the token of its end last: each is the longest that begins at its place
/// (JLS 3.2, 3.5), and names its bytes by their offsets from 0, and its line and column from 1, a column by characters.
///
/// Where the bytes have no tokens, the answer is `BadUtf8`, `BadChar`, `BadNumber` or `Unclosed` with the offset of the
/// byte at fault: the fault that is met first, where an unclosed text is met at the end of its line or of the file.
/// `OutOfMemory` may come for any bytes. There are fewer than 2^31 bytes, so that each offset fits.
pub fn tokens(alloc: Global, bytes: &[u8]) -> Result<Vec<Token>, TokenError>
    requires { length bytes.now < 2 ^ 31 }
    ensures ok { IfOk result (λ tokens. AreTokens bytes.now tokens.items) }
    ensures few { IfOk result (λ tokens. vec_len tokens ≤ length bytes.now + 1) }
    ensures err { IfErr result (HasFault bytes.now) }
{
    let text = text_of(bytes);
    let characters: Vec<char> = text.chars().collect(alloc)?;
    read(alloc, &characters, text.len() == bytes.len())
}
