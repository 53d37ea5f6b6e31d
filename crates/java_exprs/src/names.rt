//! Names (JLS 6.4.2, 6.5, 15.14.1).

ghost use Rattle.std.specs.Prelude.{◌≡◌, [], Some, IfOk, IfErr, OnErr};
ghost use Rattle.core_tree.specs.declared.expr.Expr.TheVariants as core;
ghost use Rattle.class_table.specs.Names.{same_name};
ghost use Rattle.java_syntax.specs.declared.expression.Expr.TheOpen.{Expr-F};
ghost use Rattle.java_exprs.specs.declared.typed.Form.TheVariants as form;
ghost use Rattle.java_exprs.specs.Checks.{Checks, attr_at, clean};
ghost use Rattle.java_denotes.specs.Library as library;
ghost use Rattle.java_exprs.specs.Fields.{class_attr};
ghost use Rattle.java_denotes.specs.Lookups as denoted;

use crate::environment::Environment;
use crate::fault::fault;
use crate::members::{known, member};
use crate::receiver::Receiver;
use crate::typed::{Form, Typed};
use core_tree::Expr;
use java_denotes::library::is_system;
use java_denotes::names::local;
use java_denotes::{Denotation, Through};
use java_names::Scope;
use java_syntax::{CheckError, Ident};
use std::alloc::Global;

// What the local with this number denotes.
fn local_value(alloc: Global, scope: &Scope, number: u32) -> Result<Denotation, CheckError>
    ensures value { IfOk result (λ value. denoted.local_denotes scope.now number ≡ Some value) }
    ensures memory { IfErr result (λ e. e ≡ CheckError.OutOfMemory) }
{
    known(local(alloc, scope, number)?)
}

// The name of a class, or `System`. `Fault` of rule 10 where it is neither.
fn class_or_system(env: &Environment, x: &Ident) -> Result<Typed, CheckError>
    ensures { Checks (class_attr env.now x.now) result }
{
    let denotes = match env.symbols.class_number(&x.name) {
        Some(class) => Denotation::Class(class),
        None if is_system(&x.name) => Denotation::System,
        None => return Err(fault(10, x.at)),
    };
    Ok(Typed {
        at: x.at,
        denotes,
        form: Form::Other,
        needs_minus: false,
        core: Expr::Null,
    })
}

/// A name: of a local, else of a field or constant of the class or its superclasses, else of a class or `System`.
///
/// # Errors
/// `Fault` at the name: of rule 10 where it is unknown, of rule 13 where it is a field or constant that is private to
/// another class, and of rule 14 where it is an instance field and there is no `this`. `OutOfMemory` where memory runs
/// out, and where the type of a variable's declaration has an unknown name.
pub fn name(alloc: Global, env: &Environment, scope: &Scope, x: &Ident) -> Result<Typed, CheckError>
    ensures { Checks (attr_at env.now scope.now (Expr-F.Name x.now)) result }
{
    if let Some(number) = scope.local(&x.name) {
        return Ok(Typed {
            at: x.at,
            denotes: local_value(alloc, scope, number)?,
            form: Form::Variable,
            needs_minus: false,
            core: Expr::Local(number),
        });
    }
    match env.symbols.field(scope.class, &x.name) {
        Some(field) => {
            let receiver = Receiver {
                at: x.at,
                through: Through::This,
                class: scope.class,
            };
            member(alloc, env, scope, receiver, Expr::This, x, field)
        }
        None => class_or_system(env, x),
    }
}
