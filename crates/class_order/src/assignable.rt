ghost use Rattle.std.specs.Prelude.{◌≡◌, ◌==◌, false};
ghost use Rattle.std.specs.Option.{option_map_or};
ghost use Rattle.core_tree.specs.Types as of;
ghost use Rattle.evaluation.specs.Objects.{type_of_kind};

use crate::is_subclass;
use core_tree::forms::{self, class_of, elements_of, is_boolean, is_int, is_null, is_string};
use core_tree::{BuiltIn, Class, Ty};
use heap_arena::Kind;
use sqlite_items::Items;

/// Whether a value of the first type may be assigned to a variable of the second (JLS 5.2): a type to itself, a class
/// to its superclasses, null to String, classes and arrays, an array to Object and to an array whose elements it fits.
#[tactic(auto, unfolding(core_tree::specs::Types::is_assignable), using(core_tree::proofs::TypeNodes::assignable))]
pub fn is_assignable(classes: &Items<Class>, from: &Ty, to: &Ty) -> bool
    ensures { result ≡ of.is_assignable classes.now from.now to.now }
{
    match from {
        Ty::Int => is_int(to),
        Ty::Bool => is_boolean(to),
        Ty::Text => is_string(to),
        Ty::Class(class) => is_below(classes, *class, to),
        Ty::Array(elements) => match class_of(to) {
            Some(class) => is_object(class),
            None => match elements_of(to) {
                Some(others) => is_assignable(classes, elements.get(), others),
                None => false,
            },
        },
        Ty::Null => is_null(to) || is_string(to) || forms::is_object(to),
        Ty::Void => false,
    }
}

/// Whether an object of this kind may be the value of a variable of the type.
#[tactic(auto, unfolding(core_tree::specs::Types::is_assignable), using(core_tree::proofs::TypeNodes::assignable))]
pub fn kind_fits(classes: &Items<Class>, kind: &Kind, to: &Ty) -> bool
    ensures { result ≡ of.is_assignable classes.now (type_of_kind kind.now) to.now }
{
    match kind {
        Kind::Instance(class) => is_below(classes, *class, to),
        Kind::Array(elements) => match class_of(to) {
            Some(class) => is_object(class),
            None => match elements_of(to) {
                Some(others) => is_assignable(classes, elements, others),
                None => false,
            },
        },
    }
}

// Whether the class is Object.
fn is_object(class: u32) -> bool
    ensures { result ≡ (class == 0) }
{
    class == BuiltIn::Object.number()
}

// Whether the type is a class type, and the class is its class or below it.
fn is_below(classes: &Items<Class>, class: u32, to: &Ty) -> bool
    ensures { result ≡ option_map_or (of.is_subclass classes.now class) (of.class_of to.now) false }
{
    match class_of(to) {
        Some(above) => is_subclass(classes, class, above),
        None => false,
    }
}
