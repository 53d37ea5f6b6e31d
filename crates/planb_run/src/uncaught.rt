//! The line on an exception that nothing caught.

ghost use Rattle.std.specs.Prelude.{◌≡◌, ◌∷◌, [], encode_utf8_all, option_map};
ghost use Rattle.pb_io.specs.Sink.{Puts};
ghost use Rattle.planb_run.specs.Report.{class_name, escape, escaped, message_text, uncaught_text};

use core_tree::{Program, Text};
use pb_io::{PutError, Sink, put_all};

/// Writes the line on an exception of this class of the program, by its number, and with this message. After an error a
/// prefix of it is written. It takes no memory itself.
pub fn write_uncaught<O: Sink>(
    sink: &mut O,
    program: Option<&Program>,
    class: u32,
    message: &Option<Text>,
) -> Result<(), PutError>
    ensures { Puts (O.state sink.old) (O.state sink.new)
        (uncaught_text (option_map (λ p. p.now) program.entry) class message.now) result }
{
    put_all(sink, b"uncaught ")?;
    put_characters(sink, name_of(program, class))?;
    put_message(sink, message)
}

// The name of a class of the program.
fn name_of<'p>(program: Option<&'p Program>, class: u32) -> &'p [char]
    ensures { result.now ≡ class_name (option_map (λ p. p.now) program.entry) class }
{
    let Some(program) = program else {
        return &[];
    };
    match program.classes.get(class as usize) {
        Some(class) => class.name.characters(),
        None => &[],
    }
}

// Writes what follows the name of the class.
fn put_message<O: Sink>(sink: &mut O, message: &Option<Text>) -> Result<(), PutError>
    ensures { Puts (O.state sink.old) (O.state sink.new) (message_text message.now) result }
{
    match message {
        None => put_all(sink, b"\n"),
        Some(message) => put_text(sink, message.characters()),
    }
}

// Writes a message, and ends the line.
fn put_text<O: Sink>(sink: &mut O, characters: &[char]) -> Result<(), PutError>
    ensures { Puts (O.state sink.old) (O.state sink.new) (message_text (Some characters.now)) result }
{
    put_all(sink, b": ")?;
    put_escaped(sink, characters)?;
    put_all(sink, b"\n")
}

// Writes characters.
fn put_characters<O: Sink>(sink: &mut O, characters: &[char]) -> Result<(), PutError>
    ensures { Puts (O.state sink.old) (O.state sink.new) (encode_utf8_all characters.now) result }
{
    for character in characters {
        put_character(sink, *character)?;
    }
    Ok(())
}

// Writes the characters of a message as they stand on one line.
fn put_escaped<O: Sink>(sink: &mut O, characters: &[char]) -> Result<(), PutError>
    ensures { Puts (O.state sink.old) (O.state sink.new) (encode_utf8_all (escaped characters.now)) result }
{
    for character in characters {
        put_escape(sink, *character)?;
    }
    Ok(())
}

// Writes a character of a message.
fn put_escape<O: Sink>(sink: &mut O, character: char) -> Result<(), PutError>
    ensures { Puts (O.state sink.old) (O.state sink.new) (encode_utf8_all (escape character)) result }
{
    match character {
        '\\' => put_all(sink, b"\\\\"),
        '\n' => put_all(sink, b"\\n"),
        '\r' => put_all(sink, b"\\r"),
        _ => put_character(sink, character),
    }
}

// Writes a character.
#[tactic(auto, using(crate::proofs::Characters::one_character))]
fn put_character<O: Sink>(sink: &mut O, character: char) -> Result<(), PutError>
    ensures { Puts (O.state sink.old) (O.state sink.new) (encode_utf8_all (character ∷ [])) result }
{
    let mut bytes = [0; 4];
    let encoded = character.encode_utf8(&mut bytes);
    put_all(sink, encoded.as_bytes())
}
