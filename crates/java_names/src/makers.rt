//! The constructors of a class.

ghost use Rattle.std.specs.Prelude.{◌≡◌, ◌++◌, IfOk, map};
ghost use Rattle.java_names.specs.Symbols as spec;

use crate::methods::{following, thrown};
use crate::mods::is_private;
use crate::numbering::Numbering;
use crate::symbol::{MakerSymbol, Makers};
use crate::types::declared_types;
use class_table::MakerRow;
use java_tokens::Name;
use sqlite_items::Items;
use std::alloc::{AllocError, Global};

/// The symbol of a constructor that is written.
fn maker_symbol(
    alloc: Global,
    names: &Numbering<Name>,
    owner: u32,
    number: Option<u32>,
    maker: &MakerRow,
) -> Result<MakerSymbol, AllocError>
    ensures { IfOk result (λ symbol. symbol ≡ spec.maker_symbol names.now owner number maker.now) }
{
    Ok(MakerSymbol {
        number,
        owner,
        params: declared_types(alloc, names, maker.params.as_slice())?,
        throws: thrown(alloc, names, maker.throws.as_slice())?,
        is_private: is_private(&maker.mods),
        is_made: false,
        at: maker.at,
    })
}

/// The symbols of constructors of class number `owner`, numbered on from `number`.
fn maker_symbols(
    alloc: Global,
    names: &Numbering<Name>,
    owner: u32,
    number: Option<u32>,
    rows: &[MakerRow],
) -> Result<Items<MakerSymbol>, AllocError>
    ensures { IfOk result (λ symbols. symbols ≡ spec.maker_symbols names.now owner number rows.now) }
{
    let mut next = number;
    let mut symbols = Items::new(alloc);
    for maker in rows {
        symbols.push(maker_symbol(alloc, names, owner, next, maker)?)?;
        next = following(next)?;
    }
    Ok(symbols)
}

/// How many parameters constructors have, in order.
fn arities(alloc: Global, rows: &[MakerRow]) -> Result<Numbering<usize>, AllocError>
    ensures { IfOk result (λ keys. keys ≡ spec.maker_arities rows.now) }
{
    let mut keys = Numbering::new(alloc);
    for maker in rows {
        keys.push(maker.params.len(), maker.params.len())?;
    }
    Ok(keys)
}

/// The constructors that class number `owner` declares itself, numbered on from `number`. `AllocError` where there is
/// no memory left, or no number.
pub fn written_makers(
    alloc: Global,
    names: &Numbering<Name>,
    owner: u32,
    number: Option<u32>,
    rows: &[MakerRow],
) -> Result<Makers, AllocError>
    ensures { IfOk result (λ makers. makers ≡ spec.written_makers names.now owner number rows.now) }
{
    Ok(Makers {
        symbols: maker_symbols(alloc, names, owner, number, rows)?,
        arities: arities(alloc, rows)?,
    })
}

/// The constructor number `number` that is made for class number `owner`, whose name stands at token `at` (JLS 8.8.9).
pub fn made_makers(alloc: Global, owner: u32, number: u32, at: u32) -> Result<Makers, AllocError>
    ensures { IfOk result (λ makers. makers ≡ spec.made_makers owner number at) }
{
    let mut symbols = Items::new(alloc);
    symbols.push(MakerSymbol {
        number: Some(number),
        owner,
        params: Items::new(alloc),
        throws: Items::new(alloc),
        is_private: false,
        is_made: true,
        at,
    })?;
    let mut arities = Numbering::new(alloc);
    arities.push(0, 0)?;
    Ok(Makers { symbols, arities })
}
