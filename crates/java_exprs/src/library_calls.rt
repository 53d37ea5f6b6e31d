//! Calls of the library's methods: prints, and `equals` and `length` of a String.

ghost use Rattle.std.specs.Prelude.{◌≡◌, ◌≤◌, ℕ, List, [], Some, true, IfOk, OnOk, length};
ghost use Rattle.std.specs.Option.{option_to_list};
ghost use Rattle.class_table.specs.Names.{same_name};
ghost use Rattle.core_tree.specs.Types as of;
ghost use Rattle.java_denotes.specs.declared.denotation.Denotation.TheVariants as denotation;
ghost use Rattle.java_exprs.specs.Attr.{of_rule};
ghost use Rattle.java_exprs.specs.Calls.{equals_11, print_attr, print_faults, text_attr, text_faults};
ghost use Rattle.java_names.specs.Refusals.{Allows};
ghost use Rattle.java_exprs.specs.Checks.{Checks, of_value, of_values};
ghost use Rattle.java_denotes.specs.Denotes as denotes;
ghost use Rattle.java_denotes.specs.Library as library;
ghost use Rattle.java_exprs.specs.Resolved as resolved;
ghost use Rattle.java_exprs.specs.Rules as rule;

use crate::arguments::fit;
use crate::environment::Environment;
use crate::fault::fault;
use crate::forms::{has_members, is_printed};
use crate::typed::{Form, Typed};
use crate::value::Value;
use core_tree::forms::is_string;
use core_tree::{Expr, Ty};
use java_denotes::library::{is_equals, is_length, is_print, is_println};
use java_denotes::{Denotation, Printing};
use java_syntax::{CheckError, Ident};
use java_tokens::Name;
use sqlite_items::{Boxed, Items};
use std::alloc::{AllocError, Global};

// The argument, where there is at most one.
fn only(arguments: Items<Value>) -> Option<Value>
    requires { length arguments ≤ 1 }
    ensures { option_to_list result ≡ arguments }
{
    let mut arguments = arguments;
    arguments.pop()
}

// Checks that a print shows the value.
fn check_printed(value: &Value) -> Result<(), CheckError>
    ensures { Allows (of_rule 11 (rule.wants rule.is_printed (of_value value.now)) []) result }
{
    if is_printed(&value.ty) {
        return Ok(());
    }
    Err(fault(11, value.at))
}

// Checks that `System.out` has such a method, and that it takes these arguments.
fn check_print(m: &Ident, arguments: &[Value]) -> Result<(), CheckError>
    ensures allowed { Allows (print_faults m.now (of_values arguments.now)) result }
    ensures few { OnOk result (length arguments.now ≤ 1) }
{
    if !is_print(&m.name) {
        return Err(fault(10, m.at));
    }
    match arguments {
        [] if is_println(&m.name) => Ok(()),
        [value] => check_printed(value),
        _ => Err(fault(12, m.at)),
    }
}

/// `System.out.print(..)` or `System.out.println(..)`, whose first token is `at`.
///
/// # Errors
/// `Fault` at the method's name of rule 10 where it isn't a print, and of rule 12 where it takes another number of
/// arguments; of rule 11 at an argument that is no int, boolean or String.
pub fn print(at: u32, m: &Ident, arguments: Items<Value>) -> Result<Typed, CheckError>
    ensures { Checks (print_attr at m.now (of_values arguments)) result }
{
    check_print(m, arguments.as_slice())?;
    let printing = Printing {
        ends_line: is_println(&m.name),
        has_argument: !arguments.is_empty(),
    };
    let core = match only(arguments) {
        Some(value) => value.core,
        None => Expr::Null,
    };
    Ok(Typed {
        at,
        denotes: Denotation::Print(printing),
        form: Form::Call,
        needs_minus: false,
        core,
    })
}

// Checks that `equals` takes these arguments.
fn check_equals(env: &Environment, m: &Ident, arguments: &[Value]) -> Result<(), CheckError>
    requires { same_name m.now.name library.equals_name ≡ true }
    ensures allowed { Allows (of_rule 11 (equals_11 env.now (of_values arguments.now)) (of_rule 12 (rule.text_12 m.now (of_values arguments.now)) [])) result }
    ensures few { OnOk result (length arguments.now ≤ 1) }
{
    match arguments {
        [value] => fit(env, value, &Ty::Text),
        _ => Err(fault(12, m.at)),
    }
}

// Checks that `length` takes these arguments.
fn check_length(m: &Ident, arguments: &[Value]) -> Result<(), CheckError>
    requires { same_name m.now.name library.length_name ≡ true }
    ensures allowed { Allows (of_rule 12 (rule.text_12 m.now (of_values arguments.now)) []) result }
    ensures few { OnOk result (length arguments.now ≤ 1) }
{
    match arguments {
        [] => Ok(()),
        _ => Err(fault(12, m.at)),
    }
}

// Checks that the value is a String, and that it has such a method, which takes these arguments.
fn check_text(
    env: &Environment,
    o: &Value,
    m: &Ident,
    arguments: &[Value],
) -> Result<(), CheckError>
    ensures allowed { Allows (text_faults env.now (of_value o.now) m.now (of_values arguments.now)) result }
    ensures text { OnOk result (of.is_string o.now.ty ≡ true) }
    ensures method { OnOk result (rule.is_text_method m.now.name ≡ true) }
    ensures few { OnOk result (length arguments.now ≤ 1) }
{
    if !has_members(&o.ty) {
        return Err(fault(11, o.at));
    }
    if !is_string(&o.ty) {
        return Err(fault(10, m.at));
    }
    if is_equals(&m.name) {
        return check_equals(env, m, arguments);
    }
    if is_length(&m.name) {
        return check_length(m, arguments);
    }
    Err(fault(10, m.at))
}

// The type of the method's result.
fn text_answer(m: &Name) -> Ty
    requires { rule.is_text_method m.now ≡ true }
    ensures { denotes.text_method m.now ≡ Some (denotation.Value result) }
{
    if is_equals(m) { Ty::Bool } else { Ty::Int }
}

// The resolved `equals` or `length` of a String.
fn text_core(alloc: Global, text: Value, arguments: Items<Value>) -> Result<Expr, AllocError>
    requires { length arguments ≤ 1 }
    ensures { IfOk result (λ core. (m : List ℕ) → core ≡ resolved.text_core (of_value text) m (resolved.cores (of_values arguments))) }
{
    let text = Boxed::new(alloc, text.core)?;
    match only(arguments) {
        Some(value) => Ok(Expr::TextEquals(text, Boxed::new(alloc, value.core)?)),
        None => Ok(Expr::TextLength(text)),
    }
}

/// `o.m(..)` with a value that isn't an object of a class: `equals` or `length` of a String.
///
/// # Errors
/// `Fault` of rule 11 at the value where it is an int, a boolean or `null`; of rule 10 at the method's name where it is
/// an array, or a String without such a method; of rule 12 at the name where the method takes another number of
/// arguments; of rule 11 at an argument that isn't a String. `OutOfMemory` where memory runs out.
pub fn text_call(
    alloc: Global,
    env: &Environment,
    o: Value,
    m: &Ident,
    arguments: Items<Value>,
) -> Result<Typed, CheckError>
    ensures { Checks (text_attr env.now (of_value o) m.now (of_values arguments)) result }
{
    check_text(env, &o, m, arguments.as_slice())?;
    let ty = text_answer(&m.name);
    let at = o.at;
    let core = text_core(alloc, o, arguments)?;
    Ok(Typed {
        at,
        denotes: Denotation::Value(ty),
        form: Form::Call,
        needs_minus: false,
        core,
    })
}
