//! The scopes in which bodies and initialisers begin (JLS 8.3.2, 8.4.7, 8.8.7).

ghost use Rattle.std.specs.Prelude.{◌≡◌, IfOk};
ghost use Rattle.java_names.specs.Scope as spec;

use crate::mods::is_static;
use crate::scope::Scope;
use crate::symbol::Symbols;
use crate::types::answer_type;
use core_tree::{Shared, Ty};
use java_syntax::MethodTree;
use std::alloc::{AllocError, Global};

/// The scope of the body of a method of class number `class`, before its parameters. `AllocError` where there is no
/// memory left.
pub fn method_scope(
    alloc: Global,
    symbols: &Symbols,
    class: u32,
    method: &MethodTree,
) -> Result<Scope, AllocError>
    ensures { IfOk result (λ scope. scope ≡ spec.method_scope symbols.now class method.now) }
{
    let answer = answer_type(alloc, &symbols.names, &method.answer)?;
    Ok(Scope::new(alloc, class, is_static(&method.mods), answer))
}

/// The scope of the body of a constructor of class number `class`, before its parameters, and of an instance field's
/// initialiser. `AllocError` where memory runs out.
pub fn maker_scope(alloc: Global, class: u32) -> Result<Scope, AllocError>
    ensures { IfOk result (λ scope. scope ≡ spec.maker_scope class) }
{
    Ok(Scope::new(alloc, class, false, Shared::new(alloc, Ty::Void)?))
}

/// The scope of a constant's initialiser in class number `class`. `AllocError` where memory runs out.
pub fn constant_scope(alloc: Global, class: u32) -> Result<Scope, AllocError>
    ensures { IfOk result (λ scope. scope ≡ spec.constant_scope class) }
{
    Ok(Scope::new(alloc, class, true, Shared::new(alloc, Ty::Void)?))
}
