//! Declarations and simple statements, without their semicolons.
//!
//! ```text
//! Local  = Type Ident [ "=" Expr ]
//! Simple = Post AssignOp Expr | Post ( "++" | "--" ) | ( "++" | "--" ) Post | Expr
//! ```
//!
//! The operand of a sign is read as any expression, and tested after it.

ghost use Rattle.std.specs.Prelude.{◌≡◌, ◌≤◌, ◌<◌, ℕ};
ghost use Rattle.java_syntax.specs.declared.expression.Expr.{out-Expr};
ghost use Rattle.java_reading.specs.ReadStmt as spec;
ghost use Rattle.token_reading.specs.Reads.{Reads};

use crate::grammar::{Grammar, reading};
use crate::signs::{assign_at, step_at};
use java_syntax::{AssignOp, Expr, Fix, LocalTree, StepOp, Stmt};
use java_tokens::Operator;
use sqlite_items::Items;
use std::alloc::Global;
use token_reading::{Refusal, Tokens};

/// Whether the expression may be assigned to, as far as the grammar goes: no operator but `.` and `[` makes it.
fn is_post(tree: &Expr) -> bool
    ensures { result ≡ spec.is_post (out-Expr tree.now) }
{
    match tree {
        Expr::Unary(..)
        | Expr::Cast(..)
        | Expr::Binary(..)
        | Expr::InstanceOf(..)
        | Expr::Conditional(..) => false,
        _ => true,
    }
}

/// An expression of at most this height.
#[tactic(auto, unfolding(java_reading::specs::ReadStmt::value))]
pub fn value(alloc: Global, tokens: &mut Tokens<'_>, most: u32) -> Result<Expr, Refusal>
    requires { most ≤ 200 }
    ensures { Reads (spec.value most tokens.old) result tokens.new }
{
    let (tree, _height) = reading(alloc, tokens, most, 1)?;
    Ok(tree)
}

/// Arguments of at most this height and the closing parenthesis.
#[tactic(auto, unfolding(java_reading::specs::ReadStmt::arguments))]
pub fn arguments(alloc: Global, tokens: &mut Tokens<'_>, most: u32) -> Result<Items<Expr>, Refusal>
    requires { most < 200 }
    ensures { Reads (spec.arguments most tokens.old) result tokens.new }
{
    let grammar = Grammar {
        alloc,
        parts: most,
        read: reading,
    };
    let (given, _height) = grammar.args(tokens)?;
    Ok(given)
}

/// An initial value with its `=`, or nothing (JLS 8.3, 14.4).
#[tactic(auto, unfolding(java_reading::specs::ReadStmt::initial))]
pub fn initial(alloc: Global, tokens: &mut Tokens<'_>, most: u32) -> Result<Option<Expr>, Refusal>
    requires { most ≤ 200 }
    ensures { Reads (spec.initial (spec.value most) tokens.old) result tokens.new }
{
    if tokens.eat(Operator::Assign) {
        Ok(Some(value(alloc, tokens, most)?))
    } else {
        Ok(None)
    }
}

/// A declaration without its semicolon (JLS 14.4).
#[tactic(auto, unfolding(java_reading::specs::ReadStmt::local))]
fn local(alloc: Global, tokens: &mut Tokens<'_>, most: u32) -> Result<LocalTree, Refusal>
    requires { most ≤ 200 }
    ensures { Reads (spec.local most (spec.value most) tokens.old) result tokens.new }
{
    let ty = tokens.type_tree(most)?;
    let name = tokens.ident()?;
    let value = initial(alloc, tokens, most)?;
    Ok(LocalTree { ty, name, value })
}

/// The same, as a statement.
#[tactic(auto, unfolding(java_reading::specs::ReadStmt::declaration))]
pub fn declaration(alloc: Global, tokens: &mut Tokens<'_>, most: u32) -> Result<Stmt, Refusal>
    requires { most ≤ 200 }
    ensures { Reads (spec.declaration most (spec.value most) tokens.old) result tokens.new }
{
    Ok(Stmt::Local(local(alloc, tokens, most)?))
}

/// What stands after the `++` or `--` before its operand (JLS 15.15).
#[tactic(auto, unfolding(java_reading::specs::ReadStmt::step_before))]
fn step_before(
    alloc: Global,
    tokens: &mut Tokens<'_>,
    most: u32,
    op: StepOp,
) -> Result<Stmt, Refusal>
    requires { most ≤ 200 }
    ensures { Reads (spec.step_before (spec.value most) op tokens.old) result tokens.new }
{
    let operand = value(alloc, tokens, most)?;
    if is_post(&operand) {
        Ok(Stmt::Step(op, Fix::Before, operand))
    } else {
        Err(Refusal::NoTree)
    }
}

/// What stands after an operand and its sign of assignment (JLS 15.26).
#[tactic(auto, unfolding(java_reading::specs::ReadStmt::assignment))]
fn assignment(
    alloc: Global,
    tokens: &mut Tokens<'_>,
    most: u32,
    target: Expr,
    op: AssignOp,
) -> Result<Stmt, Refusal>
    requires { most ≤ 200 }
    ensures { Reads (spec.assignment (spec.value most) target op tokens.old) result tokens.new }
{
    if !is_post(&target) {
        return Err(Refusal::NoTree);
    }
    let value = value(alloc, tokens, most)?;
    Ok(Stmt::Assign(target, op, value))
}

/// An operand and the `++` or `--` after it (JLS 15.14).
#[tactic(auto, unfolding(java_reading::specs::ReadStmt::step_behind))]
fn step_behind(tokens: &mut Tokens<'_>, operand: Expr, op: StepOp) -> Result<Stmt, Refusal>
    ensures { (most : ℕ) → Reads (spec.step_behind (spec.value most) operand op tokens.old) result tokens.new }
{
    if is_post(&operand) {
        Ok(Stmt::Step(op, Fix::Behind, operand))
    } else {
        Err(Refusal::NoTree)
    }
}

/// What stands after an expression with which a statement begins (JLS 14.8).
#[tactic(auto, unfolding(java_reading::specs::ReadStmt::evaluated))]
fn evaluated(
    alloc: Global,
    tokens: &mut Tokens<'_>,
    most: u32,
    first: Expr,
) -> Result<Stmt, Refusal>
    requires { most ≤ 200 }
    ensures { Reads (spec.evaluated (spec.value most) first tokens.old) result tokens.new }
{
    if let Some(op) = assign_at(tokens) {
        tokens.skip();
        return assignment(alloc, tokens, most, first, op);
    }
    match step_at(tokens) {
        Some(op) => {
            tokens.skip();
            step_behind(tokens, first, op)
        }
        None => Ok(Stmt::Eval(first)),
    }
}

/// A simple statement without its semicolon.
#[tactic(auto, unfolding(java_reading::specs::ReadStmt::simple))]
pub fn simple(alloc: Global, tokens: &mut Tokens<'_>, most: u32) -> Result<Stmt, Refusal>
    requires { most ≤ 200 }
    ensures { Reads (spec.simple (spec.value most) tokens.old) result tokens.new }
{
    if let Some(op) = step_at(tokens) {
        tokens.skip();
        return step_before(alloc, tokens, most, op);
    }
    let first = value(alloc, tokens, most)?;
    evaluated(alloc, tokens, most, first)
}

/// A declaration or a simple statement, without its semicolon and of at most this height.
#[tactic(auto, unfolding(java_reading::specs::ReadStmt::unended))]
pub fn unended(
    alloc: Global,
    tokens: &mut Tokens<'_>,
    most: u32,
    declares: bool,
) -> Result<Stmt, Refusal>
    requires { most ≤ 200 }
    ensures { Reads (spec.unended most declares tokens.old) result tokens.new }
{
    if most == 0 {
        return Err(tokens.too_high());
    }
    if declares {
        declaration(alloc, tokens, most - 1)
    } else {
        simple(alloc, tokens, most - 1)
    }
}
