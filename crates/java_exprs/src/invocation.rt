//! What a call resolves to (JLS 15.12.3, 15.12.4).

ghost use Rattle.std.specs.Prelude.{◌≡◌, IfOk, IfErr, unwrap_or};
ghost use Rattle.std.specs.Option.{option_map_or};
ghost use Rattle.core_tree.specs.declared.expr.Expr.TheVariants as core;
ghost use Rattle.core_tree.specs.declared.expr.Expr.TheViews as view;
ghost use Rattle.java_exprs.specs.Calls.{calling_of};
ghost use Rattle.java_exprs.specs.Checks.{of_values};
ghost use Rattle.java_exprs.specs.Resolved as resolved;

use crate::arguments::cores;
use crate::environment::Environment;
use crate::receiver::Receiver;
use crate::value::Value;
use core_tree::{Expr, Site};
use java_denotes::Through;
use java_names::MethodSymbol;
use java_syntax::{CheckError, Ident, TokenPlace};
use sqlite_items::{Boxed, Items, at};
use std::alloc::Global;

// Where a token begins; line 1 and column 1 where there is no such token.
fn site_at(places: &[TokenPlace], token: u32) -> Site
    ensures { result ≡ resolved.site_at places.now token }
{
    match at(places, token as usize) {
        Some(place) => Site {
            line: place.line,
            column: place.column,
        },
        None => Site { line: 1, column: 1 },
    }
}

// A call of a static method.
#[tactic(auto, using(crate::proofs::RulesLemmas::cores_values))]
fn static_call(
    alloc: Global,
    number: Option<u32>,
    arguments: Items<Value>,
    site: Site,
) -> Result<Expr, CheckError>
    ensures call { IfOk result (λ call. call ≡ view.Static (unwrap_or number 0) (resolved.cores (of_values arguments)) site) }
    ensures memory { IfErr result (λ e. e ≡ CheckError.OutOfMemory) }
{
    let number = number.unwrap_or(0);
    Ok(Expr::Static(number, cores(alloc, arguments)?, site))
}

// A call through `super`; the built-in `getMessage`, which has no number, reads the message.
#[tactic(auto, using(crate::proofs::RulesLemmas::cores_values))]
fn super_call(
    alloc: Global,
    number: Option<u32>,
    arguments: Items<Value>,
    site: Site,
) -> Result<Expr, CheckError>
    ensures call { IfOk result (λ call. call ≡ option_map_or (λ number. view.Super number (resolved.cores (of_values arguments)) site) number (view.Message core.This)) }
    ensures memory { IfErr result (λ e. e ≡ CheckError.OutOfMemory) }
{
    match number {
        Some(number) => Ok(Expr::Super(number, cores(alloc, arguments)?, site)),
        None => Ok(Expr::Message(Boxed::new(alloc, Expr::This)?)),
    }
}

// A call on an object, which picks the method by its class.
#[tactic(auto, using(crate::proofs::RulesLemmas::cores_values))]
fn chosen_call(
    alloc: Global,
    object: Expr,
    selector: Option<u32>,
    arguments: Items<Value>,
    site: Site,
) -> Result<Expr, CheckError>
    ensures call { IfOk result (λ call. call ≡ view.Chosen object (unwrap_or selector 0) (resolved.cores (of_values arguments)) site) }
    ensures memory { IfErr result (λ e. e ≡ CheckError.OutOfMemory) }
{
    let selector = selector.unwrap_or(0);
    let object = Boxed::new(alloc, object)?;
    Ok(Expr::Chosen(object, selector, cores(alloc, arguments)?, site))
}

/// The resolved call of a method, on an object where it isn't static. Through `super` and on `this` the object is
/// `this`.
///
/// # Errors
/// `OutOfMemory` where memory runs out.
pub fn invocation(
    alloc: Global,
    env: &Environment,
    receiver: Receiver,
    object: Expr,
    m: &Ident,
    arguments: Items<Value>,
    found: &MethodSymbol,
) -> Result<Expr, CheckError>
    ensures call { IfOk result (λ call. call ≡ resolved.method_core env.now (calling_of receiver object m.now arguments) found.now) }
    ensures memory { IfErr result (λ e. e ≡ CheckError.OutOfMemory) }
{
    let site = site_at(env.places.as_slice(), m.at);
    if found.is_static {
        return static_call(alloc, found.number, arguments, site);
    }
    match receiver.through {
        Through::Super => super_call(alloc, found.number, arguments, site),
        Through::This | Through::Class | Through::Object => {
            chosen_call(alloc, object, found.selector, arguments, site)
        }
    }
}
