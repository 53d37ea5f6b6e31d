//! New objects and arrays (JLS 15.9, 15.10.1).

ghost use Rattle.std.specs.Prelude.{◌≡◌, [], length, is_some, Some, IfOk, IfErr, OnOk};
ghost use Rattle.core_tree.specs.declared.expr.Expr.TheViews as view;
ghost use Rattle.java_names.specs.Lookups.{is_accessible as accessible};
ghost use Rattle.java_syntax.specs.declared.expression.Expr.TheOpen.{Expr-F};
ghost use Rattle.java_exprs.specs.Attr.{of_rule, unless};
ghost use Rattle.java_names.specs.Refusals.{Allows, Refuses};
ghost use Rattle.java_exprs.specs.Checks.{Checks, attr_at, of_value, of_values};
ghost use Rattle.java_exprs.specs.Creation.{maker_core, new_faults};
ghost use Rattle.java_exprs.specs.Lookups as names;
ghost use Rattle.java_exprs.specs.Resolved as resolved;
ghost use Rattle.java_exprs.specs.Rules as rule;

use crate::arguments::{cores, fit_each};
use crate::environment::Environment;
use crate::fault::fault;
use crate::operators::wants_int;
use crate::typed::{Form, Typed};
use crate::value::Value;
use core_tree::{Expr, Ty};
use java_denotes::Denotation;
use java_names::{MakerSymbol, Scope, arrays, is_accessible, resolve_base};
use java_syntax::{BaseType, CheckError, Ident};
use sqlite_items::{Boxed, Items};
use std::alloc::{AllocError, Global};

// ---- arrays

// The type of the elements of an array that is made. `Fault` of rule 10 at its name, where that is unknown.
#[tactic(auto, using(crate::proofs::RulesLemmas::one_place))]
fn elements_type(
    alloc: Global,
    env: &Environment,
    base: &BaseType,
    dimensions: u32,
) -> Result<Ty, CheckError>
    ensures found { IfOk result (λ t. names.elements_named env.now base.now dimensions ≡ Some t) }
    ensures known { OnOk result (names.unknown_base env.now base.now ≡ []) }
    ensures fault { IfErr result (Refuses (of_rule 10 (names.unknown_base env.now base.now) [])) }
{
    let base = resolve_base(&env.symbols.names, base)?;
    Ok(arrays(alloc, base, dimensions)?)
}

/// `new T[e][]..`, with that many empty pairs of brackets.
///
/// # Errors
/// `Fault` of rule 10 at the name of `T` where that is unknown, and of rule 11 at the first token of `e` where that is
/// no int. `OutOfMemory` where memory runs out.
#[tactic(auto, using(crate::proofs::RulesLemmas::joins))]
pub fn new_array(
    alloc: Global,
    env: &Environment,
    scope: &Scope,
    at: u32,
    base: &BaseType,
    e: Value,
    dimensions: u32,
) -> Result<Typed, CheckError>
    ensures { Checks (attr_at env.now scope.now (Expr-F.NewArray at base.now (of_value e) dimensions)) result }
{
    let elements = elements_type(alloc, env, base, dimensions)?;
    wants_int(&e)?;
    let again = match elements.copy(alloc) {
        Ok(again) => again,
        Err(_) => return Err(CheckError::OutOfMemory),
    };
    let core = Expr::NewArray(elements, Boxed::new(alloc, e.core)?);
    Ok(Typed {
        at,
        denotes: Denotation::Value(Ty::Array(Boxed::new(alloc, again)?)),
        form: Form::Other,
        needs_minus: false,
        core,
    })
}

// ---- objects

// The number of the class of that name. `Fault` of rule 10 where it is unknown.
fn named_class(env: &Environment, class: &Ident) -> Result<u32, CheckError>
    ensures found { IfOk result (λ number. names.class_named env.now class.now.name ≡ Some number) }
    ensures fault { IfErr result (Refuses (of_rule 10 (unless (is_some (names.class_named env.now class.now.name)) class.now.at) [])) }
{
    match env.symbols.class_number(&class.name) {
        Some(number) => Ok(number),
        None => Err(fault(10, class.at)),
    }
}

// The constructor of that class with that many parameters. `Fault` of rule 12 where there is none.
#[tactic(auto, using(crate::proofs::CreationLemmas::made_with))]
fn maker<'a>(
    env: &'a Environment,
    number: u32,
    class: &Ident,
    arguments: &[Value],
) -> Result<&'a MakerSymbol, CheckError>
    ensures found { IfOk result (λ m. names.maker_of env.now number (length (of_values arguments.now)) ≡ Some m.now) }
    ensures fault { IfErr result (Refuses (of_rule 12 (unless (is_some (names.maker_of env.now number (length (of_values arguments.now)))) class.now.at) [])) }
{
    match env.symbols.maker(number, arguments.len()) {
        Some(maker) => Ok(maker),
        None => Err(fault(12, class.at)),
    }
}

// Checks that the constructor isn't private to another class.
fn check_access(
    scope: &Scope,
    number: u32,
    class: &Ident,
    maker: &MakerSymbol,
) -> Result<(), CheckError>
    ensures { Allows (of_rule 13 (unless (accessible scope.now.class number maker.now.is_private) class.now.at) []) result }
{
    if is_accessible(scope.class, number, maker.is_private) {
        return Ok(());
    }
    Err(fault(13, class.at))
}

// The constructor that a `new` of the class with this number calls.
#[tactic(auto, using(crate::proofs::RulesLemmas::joins))]
fn constructor<'a>(
    env: &'a Environment,
    scope: &Scope,
    number: u32,
    class: &Ident,
    arguments: &[Value],
) -> Result<&'a MakerSymbol, CheckError>
    ensures found { IfOk result (λ m. names.maker_of env.now number (length (of_values arguments.now)) ≡ Some m.now) }
    ensures fits { OnOk result (new_faults env.now scope.now class.now number (of_values arguments.now) ≡ []) }
    ensures fault { IfErr result (Refuses (new_faults env.now scope.now class.now number (of_values arguments.now))) }
{
    let found = maker(env, number, class, arguments)?;
    check_access(scope, number, class, found)?;
    fit_each(env, arguments, found.params.as_slice())?;
    Ok(found)
}

// The resolved first argument; `None` where there is none.
fn first_core(alloc: Global, arguments: Items<Value>) -> Result<Option<Boxed<Expr>>, AllocError>
    ensures { IfOk result (λ core. core ≡ resolved.first_core (of_values arguments)) }
{
    let mut arguments = arguments;
    if arguments.is_empty() {
        return Ok(None);
    }
    let first = arguments.remove(0);
    Ok(Some(Boxed::new(alloc, first.core)?))
}

// The resolved `new`: by a constructor of the file, or of a built-in class with a message or without.
#[tactic(auto, using(crate::proofs::RulesLemmas::cores_values))]
fn new_core(
    alloc: Global,
    number: u32,
    maker: &MakerSymbol,
    arguments: Items<Value>,
) -> Result<Expr, CheckError>
    ensures core { IfOk result (λ core. core ≡ maker_core number maker.now (of_values arguments)) }
    ensures memory { IfErr result (λ e. e ≡ CheckError.OutOfMemory) }
{
    match maker.number {
        Some(maker) => Ok(Expr::New(maker, cores(alloc, arguments)?)),
        None => Ok(Expr::NewBuilt(number, first_core(alloc, arguments)?)),
    }
}

/// `new C(..)`
///
/// # Errors
/// `Fault` of rule 10 at the name where no class has it, of rule 12 there where the class has no constructor with that
/// many parameters, of rule 13 there where that is private to another class, and of rule 11 at the first token of an
/// argument that doesn't fit. `OutOfMemory` where memory runs out.
#[tactic(auto, using(crate::proofs::RulesLemmas::joins, crate::proofs::RulesLemmas::no_faults))]
pub fn new_object(
    alloc: Global,
    env: &Environment,
    scope: &Scope,
    at: u32,
    class: &Ident,
    arguments: Items<Value>,
) -> Result<Typed, CheckError>
    ensures { Checks (attr_at env.now scope.now (Expr-F.New at class.now (of_values arguments))) result }
{
    let number = named_class(env, class)?;
    let maker = constructor(env, scope, number, class, arguments.as_slice())?;
    let core = new_core(alloc, number, maker, arguments)?;
    Ok(Typed {
        at,
        denotes: Denotation::Value(Ty::Class(number)),
        form: Form::Call,
        needs_minus: false,
        core,
    })
}
