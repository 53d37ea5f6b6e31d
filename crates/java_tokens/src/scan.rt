ghost use Rattle.std.specs.Prelude.{◌≡◌, ◌≢◌, ◌<◌, ◌≤◌, ◌==◌, ◌&&◌, true, false, nat_lt, length, slice_index, IfOk, IfSome, IfNone, IsTrue};
ghost use Rattle.std.specs.List.{prefix_len, list_all};
ghost use Rattle.java_tokens.specs.Characters.{is_white, is_digit, is_identifier_start, is_identifier_part, is_in_line, first_passes};
ghost use Rattle.java_tokens.specs.Lexemes.{IsLexeme};
ghost use Rattle.java_tokens.specs.Reading.{IsScanned, begins_pair, IsOther};

use crate::characters::{is_digit, is_identifier_part, is_identifier_start, is_line_end, is_white};
use crate::lexeme::{Flaw, Lexeme, Scanned};
use crate::number::number_of;
use crate::string::scan_string;
use crate::{Keyword, Name, Operator, TokenKind};
use std::alloc::{AllocError, Global};

/// How many parts of identifiers stand at the front.
fn part_len(characters: &[char]) -> usize
    ensures count { result ≡ prefix_len is_identifier_part characters.now }
    ensures within { result ≤ length characters.now }
{
    characters
        .iter()
        .take_while(|character| is_identifier_part(**character))
        .count()
}

/// Whether these two characters stand at the front.
fn begins_pair(characters: &[char], first: char, second: char) -> bool
    ensures { result ≡ begins_pair first second characters.now }
{
    characters.len() > 1 && characters[0] == first && characters[1] == second
}

/// How many characters stand at the front before the end of the line.
fn line_len(characters: &[char]) -> usize
    ensures count { result ≡ prefix_len is_in_line characters.now }
    ensures within { result ≤ length characters.now }
{
    characters
        .iter()
        .take_while(|character| !is_line_end(**character))
        .count()
}

/// What a text is that begins with a digit and goes on as an identifier does.
fn number_lexeme(text: &[char]) -> Lexeme
    requires start { IsTrue (first_passes is_digit text.now) }
    requires parts { IsTrue (list_all is_identifier_part text.now) }
    ensures { IsLexeme result text.now }
{
    match number_of(text) {
        Some(number) => Lexeme::Token(TokenKind::Number(number)),
        None => Lexeme::Malformed(Flaw::Number),
    }
}

/// The keyword or identifier that a text is that begins and goes on as an identifier does.
fn word_lexeme(alloc: Global, text: &[char]) -> Result<Lexeme, AllocError>
    requires start { IsTrue (first_passes is_identifier_start text.now) }
    requires parts { IsTrue (list_all is_identifier_part text.now) }
    ensures { IfOk result (λ lexeme. IsLexeme lexeme text.now) }
{
    Ok(Lexeme::Token(match Keyword::from_text(text) {
        Some(keyword) => TokenKind::Word(keyword),
        None => TokenKind::Ident(Name::copied(alloc, text)?),
    }))
}

/// The number at the front, which begins with a digit.
fn scan_number(characters: &[char]) -> Scanned
    requires { IsTrue (first_passes is_digit characters.now) }
    ensures { IsScanned characters.now result.lexeme result.len }
{
    let len = part_len(characters);
    Scanned {
        lexeme: number_lexeme(&characters[..len]),
        len,
    }
}

/// The keyword or identifier at the front, which begins as an identifier does.
fn scan_word(alloc: Global, characters: &[char]) -> Result<Scanned, AllocError>
    requires { IsTrue (first_passes is_identifier_start characters.now) }
    ensures { IfOk result (λ scanned. IsScanned characters.now scanned.lexeme scanned.len) }
{
    let len = part_len(characters);
    let lexeme = word_lexeme(alloc, &characters[..len])?;
    Ok(Scanned { lexeme, len })
}

/// The comment at the front, which begins with `//`.
fn scan_line_comment(characters: &[char]) -> Scanned
    requires { begins_pair 47 47 characters.now ≡ true }
    ensures { IsScanned characters.now result.lexeme result.len }
{
    Scanned {
        lexeme: Lexeme::Comment,
        len: 2 + line_len(&characters[2..]),
    }
}

/// The comment at the front, which begins with `/*`.
fn scan_block_comment(characters: &[char]) -> Scanned
    requires { begins_pair 47 42 characters.now ≡ true }
    ensures { IsScanned characters.now result.lexeme result.len }
{
    for at in 2..characters.len() {
        if begins_pair(&characters[at..], '*', '/') {
            return Scanned {
                lexeme: Lexeme::Comment,
                len: at + 2,
            };
        }
    }
    Scanned {
        lexeme: Lexeme::Malformed(Flaw::OpenComment),
        len: characters.len(),
    }
}

/// The separator, operator or bad character at the front, where nothing else begins.
fn scan_operator(characters: &[char]) -> Scanned
    requires { IsOther characters.now }
    ensures { IsScanned characters.now result.lexeme result.len }
{
    match Operator::at_front(characters) {
        Some(operator) => Scanned {
            lexeme: Lexeme::Token(TokenKind::Op(operator)),
            len: operator.text().len(),
        },
        None => Scanned {
            lexeme: Lexeme::Malformed(Flaw::Character),
            len: 1,
        },
    }
}

/// What stands at the front of the characters: the longest that begins with them.
pub(crate) fn scan(alloc: Global, characters: &[char]) -> Result<Scanned, AllocError>
    requires { 0 < length characters.now }
    ensures { IfOk result (λ scanned. IsScanned characters.now scanned.lexeme scanned.len) }
{
    let first = characters[0];
    if is_white(first) {
        return Ok(Scanned {
            lexeme: Lexeme::White,
            len: 1,
        });
    }
    if is_digit(first) {
        return Ok(scan_number(characters));
    }
    if is_identifier_start(first) {
        return scan_word(alloc, characters);
    }
    if first == '"' {
        return scan_string(alloc, characters);
    }
    if begins_pair(characters, '/', '/') {
        return Ok(scan_line_comment(characters));
    }
    if begins_pair(characters, '/', '*') {
        return Ok(scan_block_comment(characters));
    }
    Ok(scan_operator(characters))
}
