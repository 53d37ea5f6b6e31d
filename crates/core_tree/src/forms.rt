//! What is asked of a type.

ghost use Rattle.std.specs.Prelude.{◌≡◌};
ghost use Rattle.std.specs.Option.{option_copied};
ghost use Rattle.core_tree.specs.Types as spec;

use crate::Ty;

/// Whether the type is `int`.
#[tactic(auto, using(crate::proofs::TypeFacts::int_is, crate::proofs::TypeFacts::int_is_not))]
pub fn is_int(ty: &Ty) -> bool
    ensures { result ≡ spec.is_int ty.now }
{
    matches!(ty, Ty::Int)
}

/// Whether the type is `boolean`.
#[tactic(auto, using(crate::proofs::TypeFacts::boolean_is, crate::proofs::TypeFacts::boolean_is_not))]
pub fn is_boolean(ty: &Ty) -> bool
    ensures { result ≡ spec.is_boolean ty.now }
{
    matches!(ty, Ty::Bool)
}

/// Whether the type is String.
#[tactic(auto, using(crate::proofs::TypeFacts::string_is, crate::proofs::TypeFacts::string_is_not))]
pub fn is_string(ty: &Ty) -> bool
    ensures { result ≡ spec.is_string ty.now }
{
    matches!(ty, Ty::Text)
}

/// Whether the type is that of `null`.
#[tactic(auto, using(crate::proofs::TypeFacts::null_is, crate::proofs::TypeFacts::null_is_not))]
pub fn is_null(ty: &Ty) -> bool
    ensures { result ≡ spec.is_null ty.now }
{
    matches!(ty, Ty::Null)
}

/// Whether the type is that of no result, or of a declaration whose type has an unknown name.
#[tactic(auto, using(crate::proofs::TypeFacts::void_is, crate::proofs::TypeFacts::void_is_not))]
pub fn is_void(ty: &Ty) -> bool
    ensures { result ≡ spec.is_void ty.now }
{
    matches!(ty, Ty::Void)
}

/// The class of a class type; `None` of every other type.
#[tactic(auto, using(crate::proofs::TypeFacts::class_is, crate::proofs::TypeFacts::class_is_not))]
pub fn class_of(ty: &Ty) -> Option<u32>
    ensures { result ≡ spec.class_of ty.now }
{
    match ty {
        Ty::Class(class) => Some(*class),
        _ => None,
    }
}

/// The type of the elements of an array type; `None` of every other type.
#[tactic(auto, using(crate::proofs::TypeFacts::elements_are, crate::proofs::TypeFacts::elements_are_not))]
pub fn elements_of(ty: &Ty) -> Option<&Ty>
    ensures { option_copied result ≡ spec.elements_of ty.now }
{
    match ty {
        Ty::Array(elements) => Some(elements.get()),
        _ => None,
    }
}

/// Whether the type is a class or an array type.
pub fn is_object(ty: &Ty) -> bool
    ensures { result ≡ spec.is_object ty.now }
{
    class_of(ty).is_some() || elements_of(ty).is_some()
}

/// Whether the type is an array type.
pub fn is_array(ty: &Ty) -> bool
    ensures { result ≡ spec.is_array ty.now }
{
    elements_of(ty).is_some()
}
