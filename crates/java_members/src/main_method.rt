//! Which method runs (JLS 12.1.4).

ghost use Rattle.std.specs.Prelude.{◌≡◌, ◌+◌, IfOk, flat_map, length, option_map, position};
ghost use Rattle.class_table.specs.Members.{method_row, types_of};
ghost use Rattle.class_table.specs.Names.{same_name};
ghost use Rattle.class_table.specs.Rules as rule;
ghost use Rattle.java_members.specs.Files as spec;

use java_names::{following, is_static};
use java_syntax::{BaseType, ClassTree, FileTree, Member, MethodTree, ParamTree};
use java_tokens::Name;
use std::alloc::AllocError;

// Whether a name is `main`.
fn is_main_name(name: &Name) -> bool
    ensures { result ≡ same_name name.now rule.main_name }
{
    matches!(name.characters(), ['m', 'a', 'i', 'n'])
}

// Whether a base type is `String`, as it is spelled.
fn is_string(base: &BaseType) -> bool
    ensures { result ≡ rule.is_string base.now }
{
    match base {
        BaseType::Class(class) => {
            matches!(class.name.characters(), ['S', 't', 'r', 'i', 'n', 'g'])
        }
        _ => false,
    }
}

// Whether the one parameter is of type `String[]`, as it is spelled.
fn is_string_array(params: &[ParamTree]) -> bool
    ensures { result ≡ rule.is_string_array (types_of params.now) }
{
    match params {
        [only] => is_string(&only.ty.base) && only.ty.dimensions == 1,
        _ => false,
    }
}

// Whether a method is `static void main` with one parameter of type `String[]`.
fn is_main(method: &MethodTree) -> bool
    ensures { result ≡ rule.is_main (method_row method.now) }
{
    is_main_name(&method.name.name)
        && is_static(&method.mods)
        && method.answer.is_none()
        && is_string_array(method.params.as_slice())
}

// The number of the first `main` among the methods of a class, which are numbered on from `first`; `None` where there
// is none.
fn main_in(members: &[Member], first: u32) -> Result<Option<u32>, AllocError>
    ensures { IfOk result (λ found. found ≡ option_map (λ k. first + k) (position (λ m. rule.is_main (method_row m)) (flat_map spec.method_tree members.now))) }
{
    let mut number = first;
    for member in members {
        if let Member::Method(method) = member {
            if is_main(method) {
                return Ok(Some(number));
            }
            number = following(number)?;
        }
    }
    Ok(None)
}

// The number after those of the methods of a class, which are numbered on from `first`.
fn behind(members: &[Member], first: u32) -> Result<u32, AllocError>
    ensures { IfOk result (λ next. next ≡ first + length (flat_map spec.method_tree members.now)) }
{
    let mut next = first;
    for member in members {
        if let Member::Method(_) = member {
            next = following(next)?;
        }
    }
    Ok(next)
}

/// The number of the method that runs: the first `static void main` with one parameter of type `String[]`, and 0 where
/// there is none. `AllocError` where there are more than 2^32 - 1 methods.
pub fn main_number(tree: &FileTree) -> Result<u32, AllocError>
    ensures { IfOk result (λ number. number ≡ spec.main_of tree.now) }
{
    let mut first = 0u32;
    for class in tree.classes.as_slice() {
        let members = class.members.as_slice();
        if let Some(number) = main_in(members, first)? {
            return Ok(number);
        }
        first = behind(members, first)?;
    }
    Ok(0)
}
