//! Fields and constants of classes, named through `this`, a class or an object (JLS 8.3, 15.11).

ghost use Rattle.std.specs.Prelude.{◌≡◌, ◌&&◌, [], Some, None, is_some, IfOk, IfErr, option_and_then};
ghost use Rattle.std.specs.Option.{option_map_or, option_copied};
ghost use Rattle.core_tree.specs.declared.expr.Expr.TheVariants as core;
ghost use Rattle.core_tree.specs.declared.expr.Expr.TheViews as view;
ghost use Rattle.java_names.specs.Lookups.{is_accessible as accessible};
ghost use Rattle.java_exprs.specs.Attr.{of_rule, only_if, unless};
ghost use Rattle.java_names.specs.Refusals.{Allows};
ghost use Rattle.java_exprs.specs.Checks.{Checks};
ghost use Rattle.java_exprs.specs.Fields.{field_attr, field_core, field_faults, field_form};
ghost use Rattle.java_denotes.specs.Lookups as denoted;
ghost use Rattle.java_exprs.specs.Lookups as names;
ghost use Rattle.java_exprs.specs.Resolved as resolved;
ghost use Rattle.java_exprs.specs.Rules as rule;

use crate::environment::Environment;
use crate::fault::fault;
use crate::receiver::Receiver;
use crate::typed::{Form, Typed};
use core_tree::{Expr, Ty};
use java_denotes::names::variable;
use java_denotes::{Denotation, Through};
use java_names::{FieldSymbol, Scope, is_accessible};
use java_syntax::{CheckError, Ident};
use primitive_operators::Scalar;
use sqlite_items::Boxed;
use std::alloc::Global;

/// What is denoted, where that is known.
///
/// # Errors
/// `OutOfMemory` where nothing is known: then the type of a variable's declaration has an unknown name, which is
/// refused before the uses of the variable are read.
pub fn known(denotes: Option<Denotation>) -> Result<Denotation, CheckError>
    ensures value { IfOk result (λ value. denotes ≡ Some value) }
    ensures memory { IfErr result (λ e. e ≡ CheckError.OutOfMemory) }
{
    match denotes {
        Some(denotes) => Ok(denotes),
        None => Err(CheckError::OutOfMemory),
    }
}

// What a variable of this type denotes.
fn variable_value(alloc: Global, ty: &Ty) -> Result<Denotation, CheckError>
    ensures value { IfOk result (λ value. denoted.variable_denotes ty.now ≡ Some value) }
    ensures memory { IfErr result (λ e. e ≡ CheckError.OutOfMemory) }
{
    known(variable(alloc, ty)?)
}

// Checks that what stands after a class is no instance field.
fn check_kind(through: Through, x: &Ident, field: &FieldSymbol) -> Result<(), CheckError>
    ensures { Allows (of_rule 11 (only_if (rule.is_behind_class through && is_some field.now.place) x.now.at) []) result }
{
    if matches!(through, Through::Class) && field.place.is_some() {
        return Err(fault(11, x.at));
    }
    Ok(())
}

// Checks that the field isn't private to another class.
fn check_access(scope: &Scope, x: &Ident, field: &FieldSymbol) -> Result<(), CheckError>
    ensures { Allows (of_rule 13 (unless (accessible scope.now.class field.now.owner field.now.is_private) x.now.at) []) result }
{
    if is_accessible(scope.class, field.owner, field.is_private) {
        return Ok(());
    }
    Err(fault(13, x.at))
}

// Checks that there is a `this` where the field needs it.
fn check_this(
    scope: &Scope,
    through: Through,
    x: &Ident,
    field: &FieldSymbol,
) -> Result<(), CheckError>
    ensures { Allows (of_rule 14 (only_if (scope.now.is_static && (rule.needs_this through && is_some field.now.place)) x.now.at) []) result }
{
    let needs_this = matches!(through, Through::This | Through::Class);
    if scope.is_static && needs_this && field.place.is_some() {
        return Err(fault(14, x.at));
    }
    Ok(())
}

// Checks that the field or constant may be named there.
#[tactic(auto, using(crate::proofs::RulesLemmas::joins))]
fn check_field(
    scope: &Scope,
    through: Through,
    x: &Ident,
    field: &FieldSymbol,
) -> Result<(), CheckError>
    ensures { Allows (field_faults scope.now through x.now field.now) result }
{
    check_kind(through, x, field)?;
    check_access(scope, x, field)?;
    check_this(scope, through, x, field)
}

// The form of a field, which can be assigned to, or of a constant, which can't.
fn form_of(x: &Ident, field: &FieldSymbol) -> Form
    ensures { result ≡ field_form x.now field.now }
{
    if field.place.is_some() {
        Form::Variable
    } else {
        Form::Constant(x.at)
    }
}

// The value of a constant.
fn literal_core(literal: &Scalar) -> Result<Expr, CheckError>
    ensures value { IfOk result (λ value. value ≡ resolved.literal_core literal.now) }
    ensures memory { IfErr result (λ e. e ≡ CheckError.OutOfMemory) }
{
    match literal {
        Scalar::Int(n) => Ok(Expr::Int(*n)),
        Scalar::Bool(b) => Ok(Expr::Bool(*b)),
        Scalar::Text(text) => match text.share() {
            Ok(text) => Ok(Expr::Text(text)),
            Err(_) => Err(CheckError::OutOfMemory),
        },
        Scalar::Null => Ok(Expr::Null),
    }
}

// The value of the constant whose name is token `at`; `null` where it has none, since it breaks a rule.
fn constant_core(env: &Environment, at: u32) -> Result<Expr, CheckError>
    ensures value { IfOk result (λ value. value ≡ option_map_or resolved.literal_core (names.constant_at env.now at) core.Null) }
    ensures memory { IfErr result (λ e. e ≡ CheckError.OutOfMemory) }
{
    match env.constants.get(at) {
        Some(Some(literal)) => literal_core(literal),
        _ => Ok(Expr::Null),
    }
}

// The resolved field of an object, or the value of a constant.
fn core_of(
    alloc: Global,
    env: &Environment,
    object: Expr,
    field: &FieldSymbol,
) -> Result<Expr, CheckError>
    ensures core { IfOk result (λ core. core ≡ field_core env.now object field.now) }
    ensures memory { IfErr result (λ e. e ≡ CheckError.OutOfMemory) }
{
    match field.place {
        Some(place) => Ok(Expr::Field(Boxed::new(alloc, object)?, place)),
        None => constant_core(env, field.at),
    }
}

/// A field or a constant that was found in the receiver's class: checked and resolved. `object` is the resolved
/// expression before the dot; where there is none, it is `this`.
///
/// # Errors
/// `Fault` at its name: of rule 11 where it is an instance field named through a class, of rule 13 where it is private
/// to another class, and of rule 14 where it needs a `this` that isn't there. `OutOfMemory` where memory runs out, and
/// where the type of its declaration has an unknown name.
pub fn member(
    alloc: Global,
    env: &Environment,
    scope: &Scope,
    receiver: Receiver,
    object: Expr,
    x: &Ident,
    field: &FieldSymbol,
) -> Result<Typed, CheckError>
    ensures { Checks (field_attr env.now scope.now receiver object x.now field.now) result }
{
    check_field(scope, receiver.through, x, field)?;
    let denotes = variable_value(alloc, field.ty.get())?;
    let core = core_of(alloc, env, object, field)?;
    Ok(Typed {
        at: receiver.at,
        denotes,
        form: form_of(x, field),
        needs_minus: false,
        core,
    })
}
