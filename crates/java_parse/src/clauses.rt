//! The statements with parts of their own kind.
//!
//! ```text
//! "for" "(" [ Local | Simples ] ";" [ Expr ] ";" [ Simples ] ")" Stmt       Simples = Simple { "," Simple }
//! "try" Block { "catch" "(" Ident Ident ")" Block } [ "finally" Block ]
//! ```

ghost use Rattle.std.specs.Prelude.{◌≡◌, ◌≤◌, ◌<◌, [], length};
ghost use Rattle.java_reading.specs.ReadStmt as spec;
ghost use Rattle.java_parse.specs.Nests.{NestsStatements};
ghost use Rattle.token_reading.specs.Reads.{Reads};

use crate::lookahead::is_local;
use crate::simple::unended;
use crate::statement_nodes as nodes;
use crate::statements::Statements;
use java_syntax::{CatchTree, Stmt};
use java_tokens::{Keyword, Operator};
use sqlite_items::Items;
use std::alloc::Global;
use token_reading::{Refusal, Tokens};

impl<F: Fn(Global, &mut Tokens<'_>, u32, bool) -> Result<Stmt, Refusal>> Statements<F> {
    /// Further simple statements, and the token that closes the list.
    #[tactic(auto, unfolding(java_reading::specs::ReadStmt::more_simples))]
    fn more_simples(&self, tokens: &mut Tokens<'_>, close: Operator) -> Result<Items<Stmt>, Refusal>
        requires part { NestsStatements self.now.parts (F.pre self.now.read) (F.post self.now.read) }
        requires low { self.now.parts < 200 }
        ensures { let n = self.now.parts in
            Reads (spec.more_simples (spec.value n) (spec.arguments n) (spec.unended n) (spec.statement n) close (length tokens.old) [] tokens.old) result tokens.new }
    {
        let mut found = Items::new(self.alloc);
        for _turn in 0..tokens.left() {
            let next = unended(self.alloc, tokens, self.parts, false)?;
            found.push(next)?;
            if !tokens.eat(Operator::Comma) {
                tokens.expect(close)?;
                return Ok(found);
            }
        }
        Err(Refusal::NoTree)
    }

    /// Simple statements with commas between them, and the token that closes the list.
    #[tactic(auto, unfolding(java_reading::specs::ReadStmt::simples))]
    fn simples(&self, tokens: &mut Tokens<'_>, close: Operator) -> Result<Items<Stmt>, Refusal>
        requires part { NestsStatements self.now.parts (F.pre self.now.read) (F.post self.now.read) }
        requires low { self.now.parts < 200 }
        ensures { let n = self.now.parts in
            Reads (spec.simples (spec.value n) (spec.arguments n) (spec.unended n) (spec.statement n) close tokens.old) result tokens.new }
    {
        if tokens.eat(close) {
            return Ok(Items::new(self.alloc));
        }
        self.more_simples(tokens, close)
    }

    /// The start of a `for`, and its semicolon.
    #[tactic(auto, unfolding(java_reading::specs::ReadStmt::start))]
    fn start(&self, tokens: &mut Tokens<'_>) -> Result<Items<Stmt>, Refusal>
        requires part { NestsStatements self.now.parts (F.pre self.now.read) (F.post self.now.read) }
        requires low { self.now.parts < 200 }
        ensures { let n = self.now.parts in
            Reads (spec.start (spec.value n) (spec.arguments n) (spec.unended n) (spec.statement n) tokens.old) result tokens.new }
    {
        if !is_local(tokens) {
            return self.simples(tokens, Operator::Semicolon);
        }
        let tree = unended(self.alloc, tokens, self.parts, true)?;
        tokens.expect(Operator::Semicolon)?;
        Ok(nodes::one(self.alloc, tree)?)
    }

    /// What stands after `for` (JLS 14.14.1).
    #[tactic(auto, unfolding(java_reading::specs::ReadStmt::for_stmt))]
    pub fn for_stmt(&self, tokens: &mut Tokens<'_>) -> Result<Stmt, Refusal>
        requires part { NestsStatements self.now.parts (F.pre self.now.read) (F.post self.now.read) }
        requires low { self.now.parts < 200 }
        ensures { let n = self.now.parts in
            Reads (spec.for_stmt (spec.value n) (spec.arguments n) (spec.unended n) (spec.statement n) tokens.old) result tokens.new }
    {
        tokens.expect(Operator::LeftParen)?;
        let start = self.start(tokens)?;
        let condition = self.ended(tokens)?;
        let update = self.simples(tokens, Operator::RightParen)?;
        let body = self.part(tokens, false)?;
        Ok(nodes::for_node(self.alloc, start, condition, update, body)?)
    }

    /// What stands after `catch` (JLS 14.20).
    #[tactic(auto, unfolding(java_reading::specs::ReadStmt::catch))]
    fn catch(&self, tokens: &mut Tokens<'_>) -> Result<CatchTree, Refusal>
        requires part { NestsStatements self.now.parts (F.pre self.now.read) (F.post self.now.read) }
        requires low { self.now.parts < 200 }
        ensures { let n = self.now.parts in
            Reads (spec.catch (spec.value n) (spec.arguments n) (spec.unended n) (spec.statement n) tokens.old) result tokens.new }
    {
        tokens.expect(Operator::LeftParen)?;
        let class = tokens.ident()?;
        let name = tokens.ident()?;
        tokens.expect(Operator::RightParen)?;
        let body = self.inner_block(tokens)?;
        Ok(nodes::catch_clause(self.alloc, class, name, body)?)
    }

    /// All catch clauses that come next.
    #[tactic(auto, unfolding(java_reading::specs::ReadStmt::catches))]
    fn catches(&self, tokens: &mut Tokens<'_>) -> Result<Items<CatchTree>, Refusal>
        requires part { NestsStatements self.now.parts (F.pre self.now.read) (F.post self.now.read) }
        requires low { self.now.parts < 200 }
        ensures { let n = self.now.parts in
            Reads (spec.catches (spec.value n) (spec.arguments n) (spec.unended n) (spec.statement n) (length tokens.old) [] tokens.old) result tokens.new }
    {
        let mut found = Items::new(self.alloc);
        for _turn in 0..tokens.left() {
            if !tokens.eat_word(Keyword::Catch) {
                return Ok(found);
            }
            let next = self.catch(tokens)?;
            found.push(next)?;
        }
        if tokens.sees_word(Keyword::Catch) {
            return Err(Refusal::NoTree);
        }
        Ok(found)
    }

    /// A `finally` and its block, or nothing.
    #[tactic(auto, unfolding(java_reading::specs::ReadStmt::finally))]
    fn finally(&self, tokens: &mut Tokens<'_>) -> Result<Option<Stmt>, Refusal>
        requires part { NestsStatements self.now.parts (F.pre self.now.read) (F.post self.now.read) }
        requires low { self.now.parts < 200 }
        ensures { let n = self.now.parts in
            Reads (spec.finally (spec.value n) (spec.arguments n) (spec.unended n) (spec.statement n) tokens.old) result tokens.new }
    {
        if tokens.eat_word(Keyword::Finally) {
            Ok(Some(self.inner_block(tokens)?))
        } else {
            Ok(None)
        }
    }

    /// What stands after `try` (JLS 14.20).
    #[tactic(auto, unfolding(java_reading::specs::ReadStmt::try_stmt))]
    pub fn try_stmt(&self, tokens: &mut Tokens<'_>) -> Result<Stmt, Refusal>
        requires part { NestsStatements self.now.parts (F.pre self.now.read) (F.post self.now.read) }
        requires low { self.now.parts < 200 }
        ensures { let n = self.now.parts in
            Reads (spec.try_stmt (spec.value n) (spec.arguments n) (spec.unended n) (spec.statement n) tokens.old) result tokens.new }
    {
        let body = self.inner_block(tokens)?;
        let clauses = self.catches(tokens)?;
        let last = self.finally(tokens)?;
        if clauses.is_empty() && last.is_none() {
            return Err(Refusal::NoTree);
        }
        Ok(nodes::try_node(self.alloc, body, clauses, last)?)
    }
}
