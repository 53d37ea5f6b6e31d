ghost use Rattle.std.specs.Prelude.{◌≡◌};
ghost use Rattle.java_tokens.specs.Characters.{is_line_end, is_white, is_digit, is_identifier_start, is_identifier_part, escaped};

/// Whether the character ends a line (JLS 3.4).
pub(crate) fn is_line_end(character: char) -> bool
    ensures { result ≡ is_line_end character }
{
    matches!(character, '\n' | '\r')
}

/// Whether the character is white space: space, tab, form feed, line feed or carriage return (JLS 3.6).
pub(crate) fn is_white(character: char) -> bool
    ensures { result ≡ is_white character }
{
    matches!(character, ' ' | '\t' | '\u{c}' | '\n' | '\r')
}

/// Whether the character is a decimal digit.
pub(crate) fn is_digit(character: char) -> bool
    ensures { result ≡ is_digit character }
{
    matches!(character, '0'..='9')
}

/// Whether an identifier may begin with the character (JLS 3.8; Unicode Standard Annex 31).
pub(crate) fn is_identifier_start(character: char) -> bool
    ensures { result ≡ is_identifier_start character }
{
    matches!(character, '_' | '$') || unicode_ident::is_xid_start(character)
}

/// Whether an identifier may go on with the character.
pub(crate) fn is_identifier_part(character: char) -> bool
    ensures { result ≡ is_identifier_part character }
{
    character == '$' || unicode_ident::is_xid_continue(character)
}

/// The character that a backslash and this one stand for in a string, or `None` where they are no escape (JLS 3.10.7).
pub(crate) fn escaped(character: char) -> Option<char>
    ensures { result ≡ escaped character }
{
    match character {
        'b' => Some('\u{8}'),
        't' => Some('\t'),
        'n' => Some('\n'),
        'f' => Some('\u{c}'),
        'r' => Some('\r'),
        '"' => Some('"'),
        '\'' => Some('\''),
        '\\' => Some('\\'),
        _ => None,
    }
}
