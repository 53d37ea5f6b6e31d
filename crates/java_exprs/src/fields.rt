//! Names after a dot (JLS 6.5.6.2, 10.7, 15.11).

ghost use Rattle.std.specs.Prelude.{◌≡◌, [], Some, IfOk, IfErr};
ghost use Rattle.core_tree.specs.declared.expr.Expr.TheVariants as core;
ghost use Rattle.class_table.specs.Names.{same_name};
ghost use Rattle.java_syntax.specs.declared.expression.Expr.TheOpen.{Expr-F};
ghost use Rattle.java_exprs.specs.Attr.{of_rule};
ghost use Rattle.java_exprs.specs.Checks.{Checks, attr_at, clean, of_value};
ghost use Rattle.java_names.specs.Refusals.{Refuses};
ghost use Rattle.java_denotes.specs.Library as denotes;
ghost use Rattle.java_exprs.specs.Fields.{length_attr, naming_attr, naming_of, output_attr};
ghost use Rattle.java_denotes.specs.Members as members;
ghost use Rattle.java_exprs.specs.Rules as rule;

use crate::environment::Environment;
use crate::fault::fault;
use crate::forms::has_members;
use crate::members::member;
use crate::receiver::Receiver;
use crate::typed::{Form, Typed};
use crate::value::Value;
use core_tree::forms::{class_of, is_array};
use core_tree::{Expr, Ty};
use java_denotes::library::{is_length, is_out};
use java_denotes::names::found;
use java_denotes::{Denotation, Through};
use java_names::{FieldSymbol, Scope};
use java_syntax::{CheckError, Ident};
use sqlite_items::Boxed;
use std::alloc::Global;

// The field or constant of that name in the receiver's class. `Fault` of rule 10 where there is none.
fn find<'a>(
    env: &'a Environment,
    receiver: Receiver,
    f: &Ident,
) -> Result<&'a FieldSymbol, CheckError>
    ensures found { IfOk result (λ field. members.named_member env.now.symbols (naming_of receiver core.This f.now) ≡ Some field.now) }
    ensures fault { IfErr result (Refuses (of_rule 10 (rule.naming_10 env.now (naming_of receiver core.This f.now)) [])) }
{
    match found(&env.symbols, receiver.through, receiver.class, &f.name) {
        Some(field) => Ok(field),
        None => Err(fault(10, f.at)),
    }
}

// A field or constant after a class or an object of one.
fn member_behind(
    alloc: Global,
    env: &Environment,
    scope: &Scope,
    receiver: Receiver,
    object: Expr,
    f: &Ident,
) -> Result<Typed, CheckError>
    ensures { Checks (naming_attr env.now scope.now receiver object f.now) result }
{
    let field = find(env, receiver, f)?;
    member(alloc, env, scope, receiver, object, f, field)
}

// The length of an array; every other name after a value that isn't an object of a class is refused.
fn array_length(alloc: Global, o: Value, f: &Ident) -> Result<Typed, CheckError>
    ensures { Checks (length_attr o f.now) result }
{
    let at = o.at;
    if !has_members(&o.ty) {
        return Err(fault(11, at));
    }
    if !(is_array(&o.ty) && is_length(&f.name)) {
        return Err(fault(10, f.at));
    }
    Ok(Typed {
        at,
        denotes: Denotation::Value(Ty::Int),
        form: Form::Other,
        needs_minus: false,
        core: Expr::Length(Boxed::new(alloc, o.core)?),
    })
}

// A name after a value.
fn behind_value(
    alloc: Global,
    env: &Environment,
    scope: &Scope,
    o: Value,
    f: &Ident,
) -> Result<Typed, CheckError>
    ensures { Checks (attr_at env.now scope.now (Expr-F.Field (of_value o) f.now)) result }
{
    match class_of(&o.ty) {
        Some(class) => {
            let receiver = Receiver {
                at: o.at,
                through: Through::Object,
                class,
            };
            member_behind(alloc, env, scope, receiver, o.core, f)
        }
        None => array_length(alloc, o, f),
    }
}

// A name after `System`, of which only `out` is known. What it resolves to means nothing.
fn output(alloc: Global, at: u32, system: Expr, f: &Ident) -> Result<Typed, CheckError>
    ensures { Checks (output_attr at system f.now) result }
{
    if !is_out(&f.name) {
        return Err(fault(10, f.at));
    }
    Ok(Typed {
        at,
        denotes: Denotation::Output,
        form: Form::Other,
        needs_minus: false,
        core: Expr::Length(Boxed::new(alloc, system)?),
    })
}

/// `o.f`: a field of an object, a field or constant of a class, the length of an array, or `System.out`.
///
/// # Errors
/// `Fault` at the name: of rule 10 where it is unknown, of rule 11 where it is an instance field named through a class,
/// of rule 13 where it is private to another class, and of rule 14 where it is an instance field named through a class
/// and there is no `this`. `Fault` at the first token of `o`: of rule 11 where it is an int, a boolean, null or a call
/// without a result, and of rule 19 where it is the number 2147483648. `OutOfMemory` where memory runs out, and where
/// the type of the field's declaration has an unknown name.
pub fn field(
    alloc: Global,
    env: &Environment,
    scope: &Scope,
    o: Typed,
    f: &Ident,
) -> Result<Typed, CheckError>
    ensures { Checks (attr_at env.now scope.now (Expr-F.Field (clean o) f.now)) result }
{
    if o.needs_minus {
        return Err(fault(19, o.at));
    }
    match o.denotes {
        Denotation::Class(class) => {
            let receiver = Receiver {
                at: o.at,
                through: Through::Class,
                class,
            };
            member_behind(alloc, env, scope, receiver, Expr::This, f)
        }
        Denotation::System => output(alloc, o.at, o.core, f),
        Denotation::Output => Err(fault(10, f.at)),
        Denotation::Value(_) => behind_value(alloc, env, scope, o.value()?, f),
        Denotation::Nothing | Denotation::Print(_) => Err(fault(11, o.at)),
    }
}
