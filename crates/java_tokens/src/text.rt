ghost use Rattle.std.specs.Prelude.{◌≡◌, bytes_eq};
ghost use Rattle.java_tokens.specs.Reading.{starts_with};

/// Whether the characters are those of the text, which is ASCII.
pub(crate) fn is_text(characters: &[char], text: &str) -> bool
    ensures { result ≡ bytes_eq characters.now text.now }
{
    let mut rest = characters;
    for byte in text.as_bytes() {
        match rest {
            [first, behind @ ..] if *first == char::from(*byte) => rest = behind,
            _ => return false,
        }
    }
    rest.is_empty()
}

/// Whether the characters begin with the text, which is ASCII.
pub(crate) fn starts_with(characters: &[char], text: &str) -> bool
    ensures { result ≡ starts_with characters.now text.now }
{
    characters.len() >= text.len() && is_text(&characters[..text.len()], text)
}
