ghost use Rattle.std.specs.Prelude.{◌≡◌, flat_map};
ghost use Rattle.pb_io.specs.Sink.{Puts};
ghost use Rattle.clause_form.specs.Dimacs.{dimacs, header, clause_line, literal_text};

use crate::{Clause, Clauses};
use itoa::Buffer;
use pb_io::{PutError, Sink, put_all};

// The bytes of the longest literal, -2147483648, and the space after it.
const LONGEST_LITERAL: usize = 12;

/// Writes clauses in the DIMACS form: the line `p cnf V C` with the numbers of variables and of clauses, then a line
/// for each clause with its literals and a 0. After an error a prefix of that text is written. `WriteFault` comes
/// only where the sink's count of faults rose, and `OutOfMemory` only from the sink.
pub fn write_dimacs<O: Sink>(sink: &mut O, clauses: &Clauses) -> Result<(), PutError>
    ensures { Puts (O.state sink.old) (O.state sink.new) (dimacs clauses.now) result }
{
    let each = clauses.clauses.as_slice();
    put_header(sink, clauses.variables, each.len())?;
    put_clauses(sink, each)
}

fn put_header<O: Sink>(sink: &mut O, variables: u32, count: usize) -> Result<(), PutError>
    ensures { Puts (O.state sink.old) (O.state sink.new) (header variables count) result }
{
    let mut variables_text = Buffer::new();
    let mut count_text = Buffer::new();
    let variables = variables_text.format(variables).as_bytes();
    let count = count_text.format(count).as_bytes();
    put_parts(sink, &[b"p cnf ", variables, b" ", count, b"\n"])
}

// Puts the parts of a text in order.
fn put_parts<O: Sink>(sink: &mut O, parts: &[&[u8]]) -> Result<(), PutError>
    ensures { Puts (O.state sink.old) (O.state sink.new) (flat_map (λ part. part.now) parts.now) result }
{
    for part in parts {
        put_all(sink, part)?;
    }
    Ok(())
}

fn put_clauses<O: Sink>(sink: &mut O, clauses: &[Clause]) -> Result<(), PutError>
    ensures { Puts (O.state sink.old) (O.state sink.new) (flat_map clause_line clauses.now) result }
{
    for clause in clauses {
        put_clause(sink, clause.literals())?;
    }
    Ok(())
}

fn put_clause<O: Sink>(sink: &mut O, literals: &[i32]) -> Result<(), PutError>
    ensures { Puts (O.state sink.old) (O.state sink.new) (clause_line literals.now) result }
{
    put_literals(sink, literals)?;
    put_all(sink, b"0\n")
}

fn put_literals<O: Sink>(sink: &mut O, literals: &[i32]) -> Result<(), PutError>
    ensures { Puts (O.state sink.old) (O.state sink.new) (flat_map literal_text literals.now) result }
{
    for literal in literals {
        put_literal(sink, *literal)?;
    }
    Ok(())
}

// Puts a literal and the space after it at once.
fn put_literal<O: Sink>(sink: &mut O, literal: i32) -> Result<(), PutError>
    ensures { Puts (O.state sink.old) (O.state sink.new) (literal_text literal) result }
{
    let mut buffer = Buffer::new();
    let digits = buffer.format(literal).as_bytes();
    let end = digits.len();
    let mut text = [0; LONGEST_LITERAL];
    text[..end].copy_from_slice(digits);
    text[end] = b' ';
    put_all(sink, &text[..end + 1])
}
