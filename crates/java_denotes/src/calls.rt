//! Calls and `new`: which method or constructor they mean, and what they give (JLS 15.9, 15.12).

ghost use Rattle.std.specs.Prelude.{◌≡◌, IfOk, map, option_map};
ghost use Rattle.std.specs.Option.{option_copied};
ghost use Rattle.java_syntax.specs.declared.expression.Expr.TheOpen.{Expr-F};
ghost use Rattle.java_names.specs.Lookups as lookups;
ghost use Rattle.java_denotes.specs.Denotes as spec;
ghost use Rattle.java_denotes.specs.Known.{known_of, of_known};
ghost use Rattle.java_denotes.specs.Lookups as names;
ghost use Rattle.java_denotes.specs.Members as members;

use crate::denotation::Denotation;
use crate::known::{Known, copy};
use crate::library::library_method;
use core_tree::Ty;
use core_tree::forms::{class_of, is_void};
use java_names::{MakerSymbol, MethodSymbol, Scope, Selector, Symbols};
use java_syntax::{Expr, Ident};
use java_tokens::Name;
use std::alloc::{AllocError, Global};

/// The method of that name and number of parameters in class number `class`, its own or an inherited one; `None` where
/// there is none (JLS 15.12.2). `AllocError` where memory runs out.
pub fn method_named<'a>(
    symbols: &'a Symbols,
    class: u32,
    name: &Name,
    arity: usize,
) -> Result<Option<&'a MethodSymbol>, AllocError>
    ensures { IfOk result (λ m. option_copied m ≡ names.method_named symbols.now class name.now arity) }
{
    let selector = Selector {
        name: name.clone()?,
        arity,
    };
    Ok(symbols.method(class, &selector))
}

/// The constructor with that number of parameters of the class with that name; `None` where there is none (JLS 15.9.3).
pub fn maker_named<'a>(symbols: &'a Symbols, name: &Name, arity: usize) -> Option<&'a MakerSymbol>
    ensures { option_copied result ≡ names.maker_named symbols.now name.now arity }
{
    match symbols.class_number(name) {
        Some(class) => symbols.maker(class, arity),
        None => None,
    }
}

/// What a call of a method with a result of this type gives. `AllocError` where memory runs out.
pub fn answer(alloc: Global, ty: &Ty) -> Result<Denotation, AllocError>
    ensures { IfOk result (λ d. d ≡ names.answer_denotes ty.now) }
{
    if is_void(ty) {
        return Ok(Denotation::Nothing);
    }
    Ok(Denotation::Value(copy(alloc, ty)?))
}

/// What a call of a method gives, where there is one. `AllocError` where memory runs out.
pub fn gives(alloc: Global, method: Option<&MethodSymbol>) -> Result<Option<Denotation>, AllocError>
    ensures { IfOk result (λ d. d ≡ spec.gives (option_copied method.entry)) }
{
    match method {
        Some(method) => Ok(Some(answer(alloc, method.answer.get())?)),
        None => Ok(None),
    }
}

/// The class in which a method is looked up that stands after this and a dot: a class, or the class of an object.
/// `None` where the library's are meant.
pub fn receiver(o: &Known) -> Option<u32>
    ensures { result ≡ members.receiver o.now.denotes }
{
    match &o.denotes {
        Some(Denotation::Class(class)) => Some(*class),
        Some(Denotation::Value(ty)) => class_of(ty),
        _ => None,
    }
}

// A call of the method of class number `class` by that name.
fn called(
    alloc: Global,
    symbols: &Symbols,
    class: u32,
    name: &Name,
    arity: usize,
) -> Result<Option<Denotation>, AllocError>
    ensures { IfOk result (λ d. d ≡ spec.gives (names.method_named symbols.now class name.now arity)) }
{
    let method = method_named(symbols, class, name, arity)?;
    gives(alloc, method)
}

/// `m(..)`
pub fn call(
    alloc: Global,
    symbols: &Symbols,
    scope: &Scope,
    m: &Ident,
    arguments: &[Expr],
) -> Result<Option<Denotation>, AllocError>
    ensures { IfOk result (λ d. d ≡ spec.denotes_at of_known symbols.now scope.now (Expr-F.Call m.now (map (known_of symbols.now scope.now) arguments.now))) }
{
    called(alloc, symbols, scope.class, &m.name, arguments.len())
}

/// `super.m(..)`
#[tactic(auto, using(crate::proofs::CallLemmas::above))]
pub fn super_call(
    alloc: Global,
    symbols: &Symbols,
    scope: &Scope,
    at: u32,
    m: &Ident,
    arguments: &[Expr],
) -> Result<Option<Denotation>, AllocError>
    ensures { IfOk result (λ d. d ≡ spec.denotes_at of_known symbols.now scope.now (Expr-F.Super at m.now (map (known_of symbols.now scope.now) arguments.now))) }
{
    match symbols.superclass(scope.class) {
        Some(class) => called(alloc, symbols, class, &m.name, arguments.len()),
        None => Ok(None),
    }
}

/// `o.m(..)`
#[tactic(auto, using(crate::proofs::CallLemmas::behind))]
pub fn method(
    alloc: Global,
    symbols: &Symbols,
    scope: &Scope,
    o: &Known,
    m: &Ident,
    arguments: &[Expr],
) -> Result<Option<Denotation>, AllocError>
    ensures { IfOk result (λ d. d ≡ spec.denotes_at of_known symbols.now scope.now (Expr-F.Method o.now m.now (map (known_of symbols.now scope.now) arguments.now))) }
{
    match receiver(o) {
        Some(class) => called(alloc, symbols, class, &m.name, arguments.len()),
        None => Ok(library_method(symbols, scope, &m.name, arguments, &o.denotes)),
    }
}

/// What `new` of the class of this name gives.
pub fn new_value(symbols: &Symbols, class: &Ident) -> Option<Denotation>
    ensures { result ≡ spec.value (option_map Ty.Class (lookups.class_number symbols.now class.now.name)) }
{
    match symbols.class_number(&class.name) {
        Some(class) => Some(Denotation::Value(Ty::Class(class))),
        None => None,
    }
}
