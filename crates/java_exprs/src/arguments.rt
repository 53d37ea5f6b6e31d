//! The arguments of a call or a `new` (JLS 15.12.2).

ghost use Rattle.std.specs.Prelude.{◌≡◌, [], map, IfOk, IfErr, reverse};
ghost use Rattle.java_exprs.specs.Attr.{of_rule};
ghost use Rattle.java_names.specs.Refusals.{Allows};
ghost use Rattle.java_exprs.specs.Checks.{of_value, of_values};
ghost use Rattle.java_exprs.specs.Rules as rule;

use crate::environment::Environment;
use crate::fault::fault;
use crate::value::Value;
use core_tree::forms::is_void;
use core_tree::{Expr, Shared, Ty};
use java_denotes::assignability::is_assignable;
use java_syntax::CheckError;
use sqlite_items::Items;
use std::alloc::{AllocError, Global};

/// Checks that a value can be assigned to a variable of this type. Where the type is `Void`, its name is unknown, and
/// nothing is asked.
///
/// # Errors
/// `Fault` of rule 11 at the value's first token, where it doesn't fit.
pub fn fit(env: &Environment, given: &Value, want: &Ty) -> Result<(), CheckError>
    ensures { Allows (of_rule 11 (rule.wants_type env.now want.now (of_value given.now)) []) result }
{
    if is_void(want) || is_assignable(&env.symbols, &given.ty, want) {
        return Ok(());
    }
    Err(fault(11, given.at))
}

/// Checks that each argument fits its parameter (JLS 15.12.2.2). It takes time in proportion to their number, and for
/// each to what `is_assignable` takes.
///
/// # Errors
/// `Fault` of rule 11 at the first token of the first argument that doesn't fit.
pub fn fit_each(env: &Environment, given: &[Value], params: &[Shared<Ty>]) -> Result<(), CheckError>
    ensures { Allows (of_rule 11 (rule.wants_each env.now (of_values given.now) params.now) []) result }
{
    let mut given = given;
    let mut params = params;
    while let [value, values @ ..] = given {
        let [param, more @ ..] = params else {
            return Ok(());
        };
        fit(env, value, param.get())?;
        given = values;
        params = more;
    }
    Ok(())
}

// The resolved expressions, the last one first.
#[tactic(auto, using(crate::proofs::ArgumentLemmas::last_core))]
fn cores_backwards(alloc: Global, given: Items<Value>) -> Result<Vec<Expr>, AllocError>
    ensures { IfOk result (λ cores. cores.items ≡ reverse (map (λ v. v.core) given)) }
{
    let mut given = given;
    let mut cores = Vec::new(alloc);
    while let Some(value) = given.pop() {
        cores.push(value.core)?;
    }
    Ok(cores)
}

/// The resolved expressions of the arguments, in order.
///
/// # Errors
/// `OutOfMemory` where memory runs out.
pub fn cores(alloc: Global, given: Items<Value>) -> Result<Items<Expr>, CheckError>
    ensures cores { IfOk result (λ cores. cores ≡ map (λ v. v.core) given) }
    ensures memory { IfErr result (λ e. e ≡ CheckError.OutOfMemory) }
{
    let mut cores = cores_backwards(alloc, given)?;
    cores.reverse();
    Ok(Items::from_vec(cores))
}
