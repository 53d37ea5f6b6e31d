//! Expressions that stand as statements (JLS 14.8).

ghost use Rattle.std.specs.Prelude.{◌≡◌, ◌++◌, [], IfOk, Some};
ghost use Rattle.java_syntax.specs.declared.statement.Stmt.TheOpen.{Stmt-F};
ghost use Rattle.java_exprs.specs.Attr.{of_rule, statement_faults, unless};
ghost use Rattle.java_names.specs.Refusals.{Allows};
ghost use Rattle.java_exprs.specs.Checks.{clean};
ghost use Rattle.java_statements.specs.Outcomes.{Gives};
ghost use Rattle.java_statements.specs.Statements as spec;
ghost use Rattle.java_statements.specs.Statements.{effect_at};

use core_tree::{Expr as Core, Stmt as Step};
use java_denotes::{Denotation, Printing};
use java_exprs::expression::expr;
use java_exprs::fault::fault;
use java_exprs::{Environment, Form, Typed};
use java_names::Scope;
use java_syntax::{CheckError, Expr};
use sqlite_items::Boxed;
use std::alloc::{AllocError, Global};

// Checks that the expression may stand as a statement.
fn check_statement(e: &Typed) -> Result<(), CheckError>
    ensures { Allows (statement_faults (clean e.now) ++ of_rule 18 (unless (spec.is_call e.now.form) e.now.at) []) result }
{
    if matches!(
        e.denotes,
        Denotation::Class(_) | Denotation::System | Denotation::Output
    ) {
        return Err(fault(10, e.at));
    }
    if e.needs_minus {
        return Err(fault(19, e.at));
    }
    match e.form {
        Form::Call => Ok(()),
        _ => Err(fault(18, e.at)),
    }
}

// The resolved print.
fn print(alloc: Global, print: Printing, argument: Core) -> Result<Step, AllocError>
    ensures { IfOk result (λ step. step ≡ spec.evaluated argument (Some (Denotation.Print print))) }
{
    if !print.has_argument {
        return Ok(Step::Print(print.ends_line, None));
    }
    let argument = Boxed::new(alloc, argument)?;
    Ok(Step::Print(print.ends_line, Some(argument)))
}

// The resolved statement.
fn evaluated(alloc: Global, core: Core, denotes: Denotation) -> Result<Step, AllocError>
    ensures { IfOk result (λ step. step ≡ spec.evaluated core (Some denotes)) }
{
    match denotes {
        Denotation::Print(printing) => print(alloc, printing, core),
        _ => Ok(Step::Eval(Boxed::new(alloc, core)?)),
    }
}

/// `e;`
///
/// # Errors
/// `Fault` of a rule that is broken in it. `OutOfMemory` where memory runs out.
#[tactic(auto, using(java_exprs::proofs::RulesLemmas::joins))]
pub fn eval(alloc: Global, env: &Environment, scope: &Scope, e: &Expr) -> Result<Step, CheckError>
    ensures { Gives (effect_at env.now (Stmt-F.Eval e.now) scope.now) scope.now result }
{
    let e = expr(alloc, env, scope, e)?;
    check_statement(&e)?;
    Ok(evaluated(alloc, e.core, e.denotes)?)
}
