//! Calls and `new`: what they give, and the exceptions that they may throw (JLS 11.2.1, 15.9, 15.12).

ghost use Rattle.std.specs.Prelude.{◌≡◌, [], IfOk, map};
ghost use Rattle.std.specs.Option.{option_copied};
ghost use Rattle.java_syntax.specs.declared.expression.Expr.TheOpen.{Expr-F};
ghost use Rattle.java_names.specs.Refusals.{Allows};
ghost use Rattle.java_denotes.specs.Denotes as denotes;
ghost use Rattle.java_denotes.specs.Known.{known_at, known_of};
ghost use Rattle.java_denotes.specs.Lookups as names;
ghost use Rattle.throw_check.specs.Points.{maker_throws, points_at, points_here, throws};
ghost use Rattle.throw_check.specs.Files.{parent_maker, parent_points};
ghost use Rattle.throw_check.specs.Walks.{faults_left};

use crate::handlers::Handlers;
use java_denotes::Known;
use java_denotes::calls::{gives, maker_named, method_named, new_value, receiver};
use java_denotes::library::library_method;
use java_names::{MakerSymbol, MethodSymbol, Scope, Symbols};
use java_syntax::{CheckError, Expr, Ident};
use java_tokens::Name;
use std::alloc::Global;

// The classes after `throws` of a method; none where there is none.
fn thrown(method: Option<&MethodSymbol>) -> &[u32]
    ensures { result.now ≡ throws (option_copied method.entry) }
{
    match method {
        Some(method) => method.throws.as_slice(),
        None => &[],
    }
}

// The same of a constructor.
fn thrown_by_maker(maker: Option<&MakerSymbol>) -> &[u32]
    ensures { result.now ≡ maker_throws (option_copied maker.entry) }
{
    match maker {
        Some(maker) => maker.throws.as_slice(),
        None => &[],
    }
}

// A call at token `at` of the method of class number `class` by that name.
fn called(
    alloc: Global,
    symbols: &Symbols,
    handlers: &Handlers,
    class: u32,
    name: &Name,
    arity: usize,
    at: u32,
) -> Result<Known, CheckError>
    ensures known { IfOk result (λ k. k ≡ record { at = at; denotes = denotes.gives (names.method_named symbols.now class name.now arity) }) }
    ensures handled { Allows (faults_left symbols.now handlers.now (points_at at (throws (names.method_named symbols.now class name.now arity)))) result }
{
    let method = method_named(symbols, class, name, arity)?;
    handlers.check(symbols, thrown(method), at)?;
    Ok(Known {
        at,
        denotes: gives(alloc, method)?,
    })
}

/// `m(..)`
///
/// # Errors
/// `Fault` of rule 23 at the name, where the method declares an exception that breaks it. `OutOfMemory` where memory
/// runs out.
pub fn call(
    alloc: Global,
    symbols: &Symbols,
    scope: &Scope,
    handlers: &Handlers,
    m: &Ident,
    arguments: &[Expr],
) -> Result<Known, CheckError>
    ensures known { IfOk result (λ k. k ≡ known_at symbols.now scope.now (Expr-F.Call m.now (map (known_of symbols.now scope.now) arguments.now))) }
    ensures handled { Allows (faults_left symbols.now handlers.now (points_here symbols.now scope.now (Expr-F.Call m.now (map (known_of symbols.now scope.now) arguments.now)))) result }
{
    let arity = arguments.len();
    called(alloc, symbols, handlers, scope.class, &m.name, arity, m.at)
}

/// `super.m(..)`
///
/// # Errors
/// As `call`, at the word `super`.
#[tactic(auto, using(java_denotes::proofs::CallLemmas::above, crate::proofs::CallLemmas::above, crate::proofs::LeftLemmas::joins))]
pub fn super_call(
    alloc: Global,
    symbols: &Symbols,
    scope: &Scope,
    handlers: &Handlers,
    at: u32,
    m: &Ident,
    arguments: &[Expr],
) -> Result<Known, CheckError>
    ensures known { IfOk result (λ k. k ≡ known_at symbols.now scope.now (Expr-F.Super at m.now (map (known_of symbols.now scope.now) arguments.now))) }
    ensures handled { Allows (faults_left symbols.now handlers.now (points_here symbols.now scope.now (Expr-F.Super at m.now (map (known_of symbols.now scope.now) arguments.now)))) result }
{
    match symbols.superclass(scope.class) {
        Some(class) => called(
            alloc,
            symbols,
            handlers,
            class,
            &m.name,
            arguments.len(),
            at,
        ),
        None => Ok(Known { at, denotes: None }),
    }
}

/// `o.m(..)`
///
/// # Errors
/// As `call`, at the first token of `o`.
#[tactic(auto, using(java_denotes::proofs::CallLemmas::behind, crate::proofs::CallLemmas::behind, crate::proofs::LeftLemmas::joins))]
pub fn method(
    alloc: Global,
    symbols: &Symbols,
    scope: &Scope,
    handlers: &Handlers,
    o: &Known,
    m: &Ident,
    arguments: &[Expr],
) -> Result<Known, CheckError>
    ensures known { IfOk result (λ k. k ≡ known_at symbols.now scope.now (Expr-F.Method o.now m.now (map (known_of symbols.now scope.now) arguments.now))) }
    ensures handled { Allows (faults_left symbols.now handlers.now (points_here symbols.now scope.now (Expr-F.Method o.now m.now (map (known_of symbols.now scope.now) arguments.now)))) result }
{
    match receiver(o) {
        Some(class) => called(
            alloc,
            symbols,
            handlers,
            class,
            &m.name,
            arguments.len(),
            o.at,
        ),
        None => Ok(Known {
            at: o.at,
            denotes: library_method(symbols, scope, &m.name, arguments, &o.denotes),
        }),
    }
}

/// `new C(..)`
///
/// # Errors
/// `Fault` of rule 23 at the word `new`, where the constructor declares an exception that breaks it.
pub fn new_object(
    symbols: &Symbols,
    scope: &Scope,
    handlers: &Handlers,
    at: u32,
    class: &Ident,
    arguments: &[Expr],
) -> Result<Known, CheckError>
    ensures known { IfOk result (λ k. k ≡ known_at symbols.now scope.now (Expr-F.New at class.now (map (known_of symbols.now scope.now) arguments.now))) }
    ensures handled { Allows (faults_left symbols.now handlers.now (points_here symbols.now scope.now (Expr-F.New at class.now (map (known_of symbols.now scope.now) arguments.now)))) result }
{
    let maker = maker_named(symbols, &class.name, arguments.len());
    handlers.check(symbols, thrown_by_maker(maker), at)?;
    Ok(Known {
        at,
        denotes: new_value(symbols, class),
    })
}

// The constructor with that number of parameters of a class's superclass.
fn maker_of_parent(symbols: &Symbols, class: u32, arity: usize) -> Option<&MakerSymbol>
    ensures { option_copied result ≡ parent_maker symbols.now class arity }
{
    match symbols.superclass(class) {
        Some(class) => symbols.maker(class, arity),
        None => None,
    }
}

/// Checks that the exceptions are handled, at token `at`, that the constructor with that number of parameters of the
/// superclass of class number `class` declares (JLS 8.8.7).
///
/// # Errors
/// `Fault` of rule 23 at the token, where one of them breaks it.
pub fn check_parent(
    symbols: &Symbols,
    handlers: &Handlers,
    class: u32,
    arity: usize,
    at: u32,
) -> Result<(), CheckError>
    ensures { Allows (faults_left symbols.now handlers.now (parent_points symbols.now class arity at)) result }
{
    let maker = maker_of_parent(symbols, class, arity);
    handlers.check(symbols, thrown_by_maker(maker), at)
}
