//! The classes after `throws` and of catch clauses (JLS 8.4.6, 8.8.5, 14.20).

ghost use Rattle.std.specs.Prelude.{◌≡◌, [], Some, flat_map, IfOk, IfErr, OnOk};
ghost use Rattle.java_exprs.specs.Attr.{of_rule};
ghost use Rattle.java_names.specs.Refusals.{Allows, Refuses};
ghost use Rattle.java_exprs.specs.Lookups.{class_named};
ghost use Rattle.java_names.specs.Types as types;
ghost use Rattle.java_statements.specs.Statements as spec;

use java_exprs::Environment;
use java_exprs::fault::fault;
use java_syntax::{CheckError, Ident};
use java_tokens::Name;

/// The number of Throwable.
const THROWABLE: u32 = 1;

// Whether a name is `String`.
fn is_string(name: &Name) -> bool
    ensures { result ≡ types.is_string name.now }
{
    matches!(name.characters(), ['S', 't', 'r', 'i', 'n', 'g'])
}

// Checks that the name is known, as that of a class or as String.
fn check_known(env: &Environment, class: &Ident) -> Result<(), CheckError>
    ensures { Allows (of_rule 10 (spec.exception_10 env.now class.now) []) result }
{
    if env.symbols.class_number(&class.name).is_some() || is_string(&class.name) {
        return Ok(());
    }
    Err(fault(10, class.at))
}

// Checks that a known class is Throwable or below it.
fn check_throwable(env: &Environment, class: &Ident) -> Result<(), CheckError>
    ensures { Allows (of_rule 11 (spec.exception_11 env.now class.now) []) result }
{
    let is_wrong = match env.symbols.class_number(&class.name) {
        Some(number) => !env.symbols.is_below(number, THROWABLE),
        None => is_string(&class.name),
    };
    if is_wrong {
        return Err(fault(11, class.at));
    }
    Ok(())
}

/// Checks that the classes after `throws` are known.
///
/// # Errors
/// `Fault` of rule 10 at a name that is unknown.
pub fn check_all_known(env: &Environment, throws: &[Ident]) -> Result<(), CheckError>
    ensures { Allows (of_rule 10 (flat_map (spec.exception_10 env.now) throws.now) []) result }
{
    for class in throws {
        check_known(env, class)?;
    }
    Ok(())
}

/// Checks that the classes after `throws` that are known are Throwable or below it.
///
/// # Errors
/// `Fault` of rule 11 at a name that is String or that of a class that isn't Throwable or below it.
pub fn check_all_throwable(env: &Environment, throws: &[Ident]) -> Result<(), CheckError>
    ensures { Allows (of_rule 11 (flat_map (spec.exception_11 env.now) throws.now) []) result }
{
    for class in throws {
        check_throwable(env, class)?;
    }
    Ok(())
}

/// The number of the class of this name, which is Throwable or below it.
///
/// # Errors
/// `Fault` of rule 10 where the name is unknown, and of rule 11 where it is String or that of another class.
pub fn throwable(env: &Environment, class: &Ident) -> Result<u32, CheckError>
    ensures class { IfOk result (λ number. class_named env.now class.now.name ≡ Some number) }
    ensures known { OnOk result (spec.exception_10 env.now class.now ≡ []) }
    ensures below { OnOk result (spec.exception_11 env.now class.now ≡ []) }
    ensures fault { IfErr result (Refuses (of_rule 10 (spec.exception_10 env.now class.now) (of_rule 11 (spec.exception_11 env.now class.now) []))) }
{
    let Some(number) = env.symbols.class_number(&class.name) else {
        let rule = if is_string(&class.name) { 11 } else { 10 };
        return Err(fault(rule, class.at));
    };
    if !env.symbols.is_below(number, THROWABLE) {
        return Err(fault(11, class.at));
    }
    Ok(number)
}
