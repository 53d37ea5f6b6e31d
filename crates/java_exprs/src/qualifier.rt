//! What stands before the dot of a call (JLS 15.12).

ghost use Rattle.std.specs.Prelude.{◌≡◌, Some, false, IfOk, IfErr, OnOk};
ghost use Rattle.java_syntax.specs.declared.expression.Expr.TheOpen.{Expr-F};
ghost use Rattle.java_exprs.specs.Calls as spec;
ghost use Rattle.java_names.specs.Refusals.{Refuses};
ghost use Rattle.java_exprs.specs.Checks.{attr_at, clean, of_values};

use crate::environment::Environment;
use crate::fault::fault;
use crate::typed::Typed;
use crate::value::Value;
use java_denotes::Denotation;
use java_names::Scope;
use java_syntax::{CheckError, Ident};

/// What a method is called on.
#[derive(Clone, Copy, Debug, PartialEq, Eq, Drop)]
pub enum Qualifier {
    /// The class with this number.
    Class(u32),
    /// `System.out`
    Output,
    /// A value, or a call without a result.
    Value,
}

/// What the method is called on, where `o` stands before the dot.
///
/// # Errors
/// `Fault` of rule 19 at its first token where it is the number 2147483648, and of rule 10 at the method's name where
/// it is `System`.
#[tactic(auto, using(crate::proofs::CallLemmas::minus_refused, crate::proofs::CallLemmas::system_refused))]
pub fn qualifier_of(
    env: &Environment,
    scope: &Scope,
    o: &Typed,
    m: &Ident,
    arguments: &[Value],
) -> Result<Qualifier, CheckError>
    ensures qualifier { IfOk result (λ q. spec.qualifier_of o.now.denotes ≡ Some q) }
    ensures minus { OnOk result (o.now.needs_minus ≡ false) }
    ensures fault { IfErr result (Refuses (attr_at env.now scope.now (Expr-F.Method (clean o.now) m.now (of_values arguments.now))).faults) }
{
    if o.needs_minus {
        return Err(fault(19, o.at));
    }
    match &o.denotes {
        Denotation::Class(class) => Ok(Qualifier::Class(*class)),
        Denotation::Output => Ok(Qualifier::Output),
        Denotation::System => Err(fault(10, m.at)),
        Denotation::Value(_) | Denotation::Nothing | Denotation::Print(_) => Ok(Qualifier::Value),
    }
}
