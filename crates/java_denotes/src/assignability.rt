//! Which values fit which types (JLS 4.10, 5.2).

ghost use Rattle.std.specs.Prelude.{◌≡◌, ◌==◌, false};
ghost use Rattle.std.specs.Option.{option_map_or};
ghost use Rattle.core_tree.specs.Types as of;
ghost use Rattle.java_names.specs.Lookups as names;
ghost use Rattle.java_denotes.specs.Types as spec;

use core_tree::Ty;
use core_tree::forms::{class_of, elements_of, is_boolean, is_int, is_null, is_object, is_string};
use java_names::Symbols;

// Whether the type is the class type of this class or of one above it.
fn is_above(symbols: &Symbols, class: u32, to: &Ty) -> bool
    ensures { result ≡ option_map_or (names.is_below symbols.now class) (of.class_of to.now) false }
{
    match class_of(to) {
        Some(other) => symbols.is_below(class, other),
        None => false,
    }
}

/// Whether a value of the first type may be assigned to a variable of the second (JLS 5.2): a type to itself, a class
/// to its superclasses, null to String, classes and arrays, an array to Object and to an array whose elements it fits.
/// It takes time in proportion to the pairs of brackets, and for classes to the depth of inheritance.
#[tactic(auto, using(core_tree::proofs::TypeNodes::assignable))]
pub fn is_assignable(symbols: &Symbols, from: &Ty, to: &Ty) -> bool
    ensures { result ≡ spec.is_assignable symbols.now from.now to.now }
{
    match from {
        Ty::Int => is_int(to),
        Ty::Bool => is_boolean(to),
        Ty::Text => is_string(to),
        Ty::Class(class) => is_above(symbols, *class, to),
        Ty::Array(elements) => match class_of(to) {
            Some(class) => class == 0,
            None => match elements_of(to) {
                Some(others) => is_assignable(symbols, elements.get(), others),
                None => false,
            },
        },
        Ty::Null => is_null(to) || is_string(to) || is_object(to),
        Ty::Void => false,
    }
}

/// Whether one of the types may be assigned to the other.
pub fn is_either_way(symbols: &Symbols, a: &Ty, b: &Ty) -> bool
    ensures { result ≡ spec.is_either_way symbols.now a.now b.now }
{
    is_assignable(symbols, a, b) || is_assignable(symbols, b, a)
}
