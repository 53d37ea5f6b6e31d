//! The readers of statements take the reader of their parts as a parameter, so that each is proved by itself.

ghost use Rattle.std.specs.Prelude.{◌≡◌, ◌≤◌, ◌<◌};
ghost use Rattle.java_reading.specs.ReadStmt as spec;
ghost use Rattle.java_parse.specs.Nests.{NestsStatements};
ghost use Rattle.token_reading.specs.Reads.{Reads};

use crate::simple;
use java_syntax::{Expr, Stmt};
use sqlite_items::Items;
use std::alloc::Global;
use token_reading::{Refusal, Tokens};

/// The reader of a statement from the reader of its parts.
#[derive(Clone, Copy)]
pub struct Statements<F> {
    pub alloc: Global,
    /// How high the parts may be; the whole may be higher by 1.
    pub parts: u32,
    /// Reads a part of at most a height, directly in a block or not.
    pub read: F,
}

impl<F: Fn(Global, &mut Tokens<'_>, u32, bool) -> Result<Stmt, Refusal>> Statements<F> {
    /// Takes a statement that is a part.
    pub fn part(&self, tokens: &mut Tokens<'_>, in_block: bool) -> Result<Stmt, Refusal>
        requires part { NestsStatements self.now.parts (F.pre self.now.read) (F.post self.now.read) }
        requires low { self.now.parts < 200 }
        ensures { Reads (spec.statement self.now.parts in_block tokens.old) result tokens.new }
    {
        (self.read)(self.alloc, tokens, self.parts, in_block)
    }

    /// Takes an expression that is a part.
    pub fn value(&self, tokens: &mut Tokens<'_>) -> Result<Expr, Refusal>
        requires low { self.now.parts < 200 }
        ensures { Reads (spec.value self.now.parts tokens.old) result tokens.new }
    {
        simple::value(self.alloc, tokens, self.parts)
    }
}

/// A statement of at most this height, directly in a block or not.
pub fn statement(
    alloc: Global,
    tokens: &mut Tokens<'_>,
    most: u32,
    in_block: bool,
) -> Result<Stmt, Refusal>
    requires { most ≤ 200 }
    ensures { Reads (spec.statement most in_block tokens.old) result tokens.new }
{
    if most == 0 {
        return Err(tokens.too_high());
    }
    Statements {
        alloc,
        parts: most - 1,
        read: statement,
    }
    .stmt(tokens, in_block)
}

/// The statements of a body and its closing brace, after the opening one.
#[tactic(auto, unfolding(java_reading::specs::ReadStmt::body))]
pub fn body(alloc: Global, tokens: &mut Tokens<'_>, most: u32) -> Result<Items<Stmt>, Refusal>
    requires { most < 200 }
    ensures { Reads (spec.body most tokens.old) result tokens.new }
{
    Statements {
        alloc,
        parts: most,
        read: statement,
    }
    .stmts(tokens)
}
