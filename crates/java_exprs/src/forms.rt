//! What is asked of a type by the rules.

ghost use Rattle.std.specs.Prelude.{◌≡◌};
ghost use Rattle.java_exprs.specs.Rules as rule;

use core_tree::Ty;
use core_tree::forms::{is_boolean, is_int, is_object, is_string};

/// Whether a print shows values of the type.
pub fn is_printed(ty: &Ty) -> bool
    ensures { result ≡ rule.is_printed ty.now }
{
    is_int(ty) || is_boolean(ty) || is_string(ty)
}

/// Whether values of the type have members: not int, boolean and `null`.
pub fn has_members(ty: &Ty) -> bool
    ensures { result ≡ rule.has_members ty.now }
{
    is_object(ty) || is_string(ty)
}
