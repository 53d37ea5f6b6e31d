//! Bytes as text: `\n` is a line feed, `\r` a carriage return, `\\` a backslash, and `\x` with two digits of base 16
//! the byte of that number. All else stands for itself.

use std::alloc::{AllocError, Global};
use std::fmt::Write;

/// The bytes that a line stands for.
pub fn bytes_of(alloc: Global, line: &str) -> Result<Vec<u8>, AllocError> {
    let mut bytes = Vec::new(alloc);
    let mut is_plain = true;
    for piece in line.split('\\') {
        // Between the two backslashes of `\\` stands nothing, and what comes after them is plain.
        let is_backslash = !is_plain && piece.is_empty();
        if is_backslash {
            bytes.push(b'\\')?;
        } else if is_plain {
            bytes.extend_from_slice(piece.as_bytes())?;
        } else {
            push_escape(&mut bytes, piece.as_bytes())?;
        }
        is_plain = is_backslash;
    }
    Ok(bytes)
}

/// Adds the byte that an escape stands for, which begins here without its backslash, and what comes after it.
fn push_escape(bytes: &mut Vec<u8>, escape: &[u8]) -> Result<(), AllocError> {
    let (byte, rest) = match escape {
        [b'n', rest @ ..] => (b'\n', rest),
        [b'r', rest @ ..] => (b'\r', rest),
        [b'x', high, low, rest @ ..] => ((digit(*high) << 4) | digit(*low), rest),
        _ => (b'\\', escape),
    };
    bytes.push(byte)?;
    bytes.extend_from_slice(rest)
}

/// The value of a digit of base 16.
fn digit(byte: u8) -> u8 {
    match byte {
        b'0'..=b'9' => byte - b'0',
        b'a'..=b'f' => byte - b'a' + 10,
        _ => 0,
    }
}

/// Adds characters, with escapes for the control characters and the backslash.
pub fn push_escaped(text: &mut String, characters: &[char]) -> Result<(), AllocError> {
    for character in characters {
        match *character {
            '\n' => text.push_str("\\n")?,
            '\r' => text.push_str("\\r")?,
            '\\' => text.push_str("\\\\")?,
            '\0'..=' ' if *character != ' ' => write!(text, "\\x{:02x}", *character as u32)?,
            other => text.push(other)?,
        }
    }
    Ok(())
}
