//! What the names of the library denote.

ghost use Rattle.std.specs.Prelude.{◌≡◌, Some, map};
ghost use Rattle.class_table.specs.Names.{same_name};
ghost use Rattle.java_denotes.specs.Denotes as spec;
ghost use Rattle.java_denotes.specs.Known.{known_of};
ghost use Rattle.java_denotes.specs.Library as names;

use crate::denotation::{Denotation, Printing};
use core_tree::Ty;
use core_tree::forms::{is_array, is_string};
use java_names::{Scope, Symbols};
use java_syntax::Expr;
use java_tokens::Name;

/// Whether a name is `System`.
pub fn is_system(name: &Name) -> bool
    ensures { result ≡ same_name name.now names.system_name }
{
    name.characters() == ['S', 'y', 's', 't', 'e', 'm'].as_slice()
}

/// Whether a name is `out`.
pub fn is_out(name: &Name) -> bool
    ensures { result ≡ same_name name.now names.out_name }
{
    name.characters() == ['o', 'u', 't'].as_slice()
}

/// Whether a name is `println`.
pub fn is_println(name: &Name) -> bool
    ensures { result ≡ same_name name.now names.println_name }
{
    name.characters() == ['p', 'r', 'i', 'n', 't', 'l', 'n'].as_slice()
}

/// Whether a name is `print` or `println`.
pub fn is_print(name: &Name) -> bool
    ensures { result ≡ names.is_print name.now }
{
    name.characters() == ['p', 'r', 'i', 'n', 't'].as_slice() || is_println(name)
}

/// Whether a name is `equals`.
pub fn is_equals(name: &Name) -> bool
    ensures { result ≡ same_name name.now names.equals_name }
{
    name.characters() == ['e', 'q', 'u', 'a', 'l', 's'].as_slice()
}

/// Whether a name is `length`.
pub fn is_length(name: &Name) -> bool
    ensures { result ≡ same_name name.now names.length_name }
{
    name.characters() == ['l', 'e', 'n', 'g', 't', 'h'].as_slice()
}

/// What a name after a value denotes that isn't an object of a class: the length of an array.
pub fn array_field(name: &Name, ty: &Ty) -> Option<Denotation>
    ensures { result ≡ spec.library_field name.now (Some (Denotation.Value ty.now)) }
{
    if is_array(ty) && is_length(name) {
        Some(Denotation::Value(Ty::Int))
    } else {
        None
    }
}

/// What a name after a dot denotes where it isn't a field of a class: `System.out`, or the length of an array.
pub fn library_field(name: &Name, object: &Option<Denotation>) -> Option<Denotation>
    ensures { result ≡ spec.library_field name.now object.now }
{
    match object {
        Some(Denotation::System) => {
            if is_out(name) {
                Some(Denotation::Output)
            } else {
                None
            }
        }
        Some(Denotation::Value(ty)) => array_field(name, ty),
        _ => None,
    }
}

/// A method of a String.
pub fn text_method(name: &Name) -> Option<Denotation>
    ensures { result ≡ spec.text_method name.now }
{
    if is_equals(name) {
        Some(Denotation::Value(Ty::Bool))
    } else if is_length(name) {
        Some(Denotation::Value(Ty::Int))
    } else {
        None
    }
}

// A print.
fn output_method(
    symbols: &Symbols,
    scope: &Scope,
    name: &Name,
    arguments: &[Expr],
) -> Option<Denotation>
    ensures { result ≡ spec.library_method name.now (map (known_of symbols.now scope.now) arguments.now) (Some Denotation.Output) }
{
    if !is_print(name) {
        return None;
    }
    Some(Denotation::Print(Printing {
        ends_line: is_println(name),
        has_argument: !arguments.is_empty(),
    }))
}

/// What a call after a dot gives where it calls no method of a class: a print, or a method of a String.
pub fn library_method(
    symbols: &Symbols,
    scope: &Scope,
    name: &Name,
    arguments: &[Expr],
    object: &Option<Denotation>,
) -> Option<Denotation>
    ensures { result ≡ spec.library_method name.now (map (known_of symbols.now scope.now) arguments.now) object.now }
{
    match object {
        Some(Denotation::Output) => output_method(symbols, scope, name, arguments),
        Some(Denotation::Value(ty)) => {
            if is_string(ty) {
                text_method(name)
            } else {
                None
            }
        }
        _ => None,
    }
}
