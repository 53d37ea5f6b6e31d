//! The classes of a program by their numbers, and the public call that makes all symbols.

ghost use Rattle.std.specs.Prelude.{◌≡◌, ◌++◌, ◌+◌, IfOk, length, map};
ghost use Rattle.java_names.specs.Symbols as spec;

use crate::built_in::{in_file, needs_maker};
use crate::fields::fields;
use crate::makers::{made_makers, written_makers};
use crate::methods::methods;
use crate::numbering::Numbering;
use crate::numbers::{Numbers, first_numbers, numbers_after, sum};
use crate::selectors::selectors;
use crate::symbol::{ClassSymbol, Makers, Selector, Symbols};
use class_table::{ClassRow, ClassTable};
use java_tokens::Name;
use sqlite_items::Items;
use std::alloc::{AllocError, Global};

/// The constructors of class number `class`.
fn makers(
    alloc: Global,
    names: &Numbering<Name>,
    class: u32,
    numbers: Numbers,
    row: &ClassRow,
) -> Result<Makers, AllocError>
    ensures { IfOk result (λ makers. makers ≡ spec.makers_of names.now class numbers row.now) }
{
    let rows = row.makers.get().as_slice();
    if needs_maker(class, rows) {
        made_makers(alloc, class, numbers.made, row.at)
    } else {
        written_makers(alloc, names, class, in_file(class, numbers.maker), rows)
    }
}

/// A copy of the line of a class.
fn copy_line(alloc: Global, line: &[u32]) -> Result<Items<u32>, AllocError>
    ensures { IfOk result (λ copy. copy ≡ line.now) }
{
    Items::from_slice(alloc, line)
}

/// The symbol of class number `class`.
fn class_symbol(
    alloc: Global,
    names: &Numbering<Name>,
    selectors: &Numbering<Selector>,
    class: u32,
    numbers: Numbers,
    row: &ClassRow,
) -> Result<ClassSymbol, AllocError>
    ensures { IfOk result (λ symbol. symbol ≡ spec.class_symbol names.now selectors.now class numbers row.now) }
{
    let number = in_file(class, numbers.method);
    let rows = row.methods.get().as_slice();
    Ok(ClassSymbol {
        parent: row.parent,
        line: copy_line(alloc, row.line.as_slice())?,
        fields: fields(alloc, names, class, row)?,
        methods: methods(alloc, names, selectors, class, number, rows)?,
        makers: makers(alloc, names, class, numbers, row)?,
        at: row.at,
    })
}

/// The symbols of the classes by their numbers.
fn class_symbols(
    alloc: Global,
    names: &Numbering<Name>,
    selectors: &Numbering<Selector>,
    first: Numbers,
    rows: &[ClassRow],
) -> Result<Items<ClassSymbol>, AllocError>
    ensures { IfOk result (λ symbols. symbols ≡ spec.class_symbols names.now selectors.now 0 first rows.now) }
{
    let mut numbers = first;
    let mut class = 0u32;
    let mut symbols = Items::new(alloc);
    for row in rows {
        symbols.push(class_symbol(alloc, names, selectors, class, numbers, row)?)?;
        numbers = numbers_after(class, numbers, row)?;
        class = sum(class, 1)?;
    }
    Ok(symbols)
}

/// The names of the classes by their numbers.
fn names_of(alloc: Global, rows: &[ClassRow]) -> Result<Numbering<Name>, AllocError>
    ensures { IfOk result (λ names. names ≡ spec.names_of rows.now) }
{
    let mut names = Numbering::new(alloc);
    for row in rows {
        names.push(row.name.clone()?, row.name.clone()?)?;
    }
    Ok(names)
}

/// The symbols of a class table: what its classes declare, with numbers and resolved types (JLS 6.1, 8.2). `AllocError`
/// where memory runs out, or where more than 2^32 - 1 things of one kind are declared.
pub fn symbols(alloc: Global, table: &ClassTable) -> Result<Symbols, AllocError>
    ensures { IfOk result (λ symbols. symbols ≡ spec.symbols_of table.now) }
{
    let rows = table.classes.as_slice();
    let names = names_of(alloc, rows)?;
    let selectors = selectors(alloc, rows)?;
    let classes = class_symbols(alloc, &names, &selectors, first_numbers(rows)?, rows)?;
    Ok(Symbols {
        names,
        classes,
        selectors,
    })
}
