//! Which classes are built in, and what that asks.

ghost use Rattle.std.specs.Prelude.{◌≡◌};
ghost use Rattle.core_tree.specs.BuiltIn.{is_built_in};
ghost use Rattle.java_names.specs.BuiltIn as spec;

use class_table::MakerRow;
use core_tree::FIRST_CLASS;

/// Whether class number `class` is built in.
pub fn is_built_in(class: u32) -> bool
    ensures { result ≡ is_built_in class }
{
    class < FIRST_CLASS
}

/// Whether class number `class` is one of the file, and declares no constructor.
pub fn needs_maker(class: u32, rows: &[MakerRow]) -> bool
    ensures { result ≡ spec.needs_maker class rows.now }
{
    match rows {
        [] => !is_built_in(class),
        _ => false,
    }
}

/// The number that something in class number `class` gets; `None` in a built-in class.
pub fn in_file(class: u32, number: u32) -> Option<u32>
    ensures { result ≡ spec.in_file class number }
{
    if is_built_in(class) {
        None
    } else {
        Some(number)
    }
}
