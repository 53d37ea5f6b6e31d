//! Statements (JLS 14).
//!
//! ```text
//! Block = "{" { Local ";" | Stmt } "}"
//! Stmt  = Block | ";" | Simple ";" | "super" "(" [ Args ] ")" ";"
//!       | "if" "(" Expr ")" Stmt [ "else" Stmt ] | "while" "(" Expr ")" Stmt | "do" Stmt "while" "(" Expr ")" ";"
//!       | "return" [ Expr ] ";" | "break" ";" | "continue" ";" | "throw" Expr ";" | "for" .. | "try" ..
//! ```

ghost use Rattle.std.specs.Prelude.{◌≡◌, ◌≤◌, ◌<◌, [], length};
ghost use Rattle.java_reading.specs.ReadStmt as spec;
ghost use Rattle.token_reading.specs.ReadType as spec_type;
ghost use Rattle.java_parse.specs.Nests.{NestsStatements};
ghost use Rattle.token_reading.specs.Reads.{Reads};

use crate::lookahead::is_local;
use crate::simple::{arguments, declaration, simple};
use crate::statement_nodes as nodes;
use crate::statements::Statements;
use java_syntax::{Expr, Stmt};
use java_tokens::{Keyword, Operator, TokenKind};
use sqlite_items::Items;
use std::alloc::Global;
use token_reading::{Refusal, Tokens};

impl<F: Fn(Global, &mut Tokens<'_>, u32, bool) -> Result<Stmt, Refusal>> Statements<F> {
    /// Statements and the closing brace, after the opening one (JLS 14.2).
    #[tactic(auto, unfolding(java_reading::specs::ReadStmt::stmts))]
    pub fn stmts(&self, tokens: &mut Tokens<'_>) -> Result<Items<Stmt>, Refusal>
        requires part { NestsStatements self.now.parts (F.pre self.now.read) (F.post self.now.read) }
        requires low { self.now.parts < 200 }
        ensures { let n = self.now.parts in
            Reads (spec.stmts (spec.value n) (spec.arguments n) (spec.unended n) (spec.statement n) (length tokens.old) [] tokens.old) result tokens.new }
    {
        let mut found = Items::new(self.alloc);
        for _turn in 0..tokens.left() {
            if tokens.eat(Operator::RightBrace) {
                return Ok(found);
            }
            let next = self.part(tokens, true)?;
            found.push(next)?;
        }
        Err(Refusal::NoTree)
    }

    /// What stands after the opening brace of a block.
    #[tactic(auto, unfolding(java_reading::specs::ReadStmt::block))]
    fn block(&self, tokens: &mut Tokens<'_>) -> Result<Stmt, Refusal>
        requires part { NestsStatements self.now.parts (F.pre self.now.read) (F.post self.now.read) }
        requires low { self.now.parts < 200 }
        ensures { let n = self.now.parts in
            Reads (spec.block (spec.value n) (spec.arguments n) (spec.unended n) (spec.statement n) tokens.old) result tokens.new }
    {
        Ok(Stmt::Block(self.stmts(tokens)?))
    }

    /// A part that is a block.
    #[tactic(auto, unfolding(java_reading::specs::ReadStmt::inner_block))]
    pub fn inner_block(&self, tokens: &mut Tokens<'_>) -> Result<Stmt, Refusal>
        requires part { NestsStatements self.now.parts (F.pre self.now.read) (F.post self.now.read) }
        requires low { self.now.parts < 200 }
        ensures { let n = self.now.parts in
            Reads (spec.inner_block (spec.value n) (spec.arguments n) (spec.unended n) (spec.statement n) tokens.old) result tokens.new }
    {
        if tokens.sees(Operator::LeftBrace) {
            self.part(tokens, false)
        } else {
            Err(Refusal::NoTree)
        }
    }

    /// A condition in its parentheses.
    #[tactic(auto, unfolding(java_reading::specs::ReadStmt::condition))]
    fn condition(&self, tokens: &mut Tokens<'_>) -> Result<Expr, Refusal>
        requires part { NestsStatements self.now.parts (F.pre self.now.read) (F.post self.now.read) }
        requires low { self.now.parts < 200 }
        ensures { let n = self.now.parts in
            Reads (spec.condition (spec.value n) (spec.arguments n) (spec.unended n) (spec.statement n) tokens.old) result tokens.new }
    {
        tokens.expect(Operator::LeftParen)?;
        let condition = self.value(tokens)?;
        tokens.expect(Operator::RightParen)?;
        Ok(condition)
    }

    /// An expression or nothing, and the semicolon.
    #[tactic(auto, unfolding(java_reading::specs::ReadStmt::ended))]
    pub fn ended(&self, tokens: &mut Tokens<'_>) -> Result<Option<Expr>, Refusal>
        requires part { NestsStatements self.now.parts (F.pre self.now.read) (F.post self.now.read) }
        requires low { self.now.parts < 200 }
        ensures { let n = self.now.parts in
            Reads (spec.ended (spec.value n) (spec.arguments n) (spec.unended n) (spec.statement n) tokens.old) result tokens.new }
    {
        if tokens.eat(Operator::Semicolon) {
            return Ok(None);
        }
        let value = self.value(tokens)?;
        tokens.expect(Operator::Semicolon)?;
        Ok(Some(value))
    }

    /// An `else` and its statement, or nothing.
    #[tactic(auto, unfolding(java_reading::specs::ReadStmt::otherwise))]
    fn otherwise(&self, tokens: &mut Tokens<'_>) -> Result<Option<Stmt>, Refusal>
        requires part { NestsStatements self.now.parts (F.pre self.now.read) (F.post self.now.read) }
        requires low { self.now.parts < 200 }
        ensures { let n = self.now.parts in
            Reads (spec.otherwise (spec.value n) (spec.arguments n) (spec.unended n) (spec.statement n) tokens.old) result tokens.new }
    {
        if tokens.eat_word(Keyword::Else) {
            Ok(Some(self.part(tokens, false)?))
        } else {
            Ok(None)
        }
    }

    /// What stands after `if` (JLS 14.9).
    #[tactic(auto, unfolding(java_reading::specs::ReadStmt::if_stmt))]
    fn if_stmt(&self, tokens: &mut Tokens<'_>) -> Result<Stmt, Refusal>
        requires part { NestsStatements self.now.parts (F.pre self.now.read) (F.post self.now.read) }
        requires low { self.now.parts < 200 }
        ensures { let n = self.now.parts in
            Reads (spec.if_stmt (spec.value n) (spec.arguments n) (spec.unended n) (spec.statement n) tokens.old) result tokens.new }
    {
        let condition = self.condition(tokens)?;
        let then = self.part(tokens, false)?;
        let other = self.otherwise(tokens)?;
        Ok(nodes::if_node(self.alloc, condition, then, other)?)
    }

    /// What stands after `while` (JLS 14.12).
    #[tactic(auto, unfolding(java_reading::specs::ReadStmt::while_stmt))]
    fn while_stmt(&self, tokens: &mut Tokens<'_>) -> Result<Stmt, Refusal>
        requires part { NestsStatements self.now.parts (F.pre self.now.read) (F.post self.now.read) }
        requires low { self.now.parts < 200 }
        ensures { let n = self.now.parts in
            Reads (spec.while_stmt (spec.value n) (spec.arguments n) (spec.unended n) (spec.statement n) tokens.old) result tokens.new }
    {
        let condition = self.condition(tokens)?;
        let body = self.part(tokens, false)?;
        Ok(nodes::while_node(self.alloc, condition, body)?)
    }

    /// What stands after `do` (JLS 14.13).
    #[tactic(auto, unfolding(java_reading::specs::ReadStmt::do_stmt))]
    fn do_stmt(&self, tokens: &mut Tokens<'_>) -> Result<Stmt, Refusal>
        requires part { NestsStatements self.now.parts (F.pre self.now.read) (F.post self.now.read) }
        requires low { self.now.parts < 200 }
        ensures { let n = self.now.parts in
            Reads (spec.do_stmt (spec.value n) (spec.arguments n) (spec.unended n) (spec.statement n) tokens.old) result tokens.new }
    {
        let body = self.part(tokens, false)?;
        tokens.expect_word(Keyword::While)?;
        let condition = self.condition(tokens)?;
        tokens.expect(Operator::Semicolon)?;
        Ok(nodes::do_node(self.alloc, body, condition)?)
    }

    /// What stands after `return` (JLS 14.17).
    #[tactic(auto, unfolding(java_reading::specs::ReadStmt::return_stmt))]
    fn return_stmt(&self, tokens: &mut Tokens<'_>, at: u32) -> Result<Stmt, Refusal>
        requires part { NestsStatements self.now.parts (F.pre self.now.read) (F.post self.now.read) }
        requires low { self.now.parts < 200 }
        ensures { let n = self.now.parts in
            Reads (spec.return_stmt (spec.value n) (spec.arguments n) (spec.unended n) (spec.statement n) at tokens.old) result tokens.new }
    {
        Ok(Stmt::Return(at, self.ended(tokens)?))
    }

    /// What stands after `throw` (JLS 14.18).
    #[tactic(auto, unfolding(java_reading::specs::ReadStmt::throw_stmt))]
    fn throw_stmt(&self, tokens: &mut Tokens<'_>) -> Result<Stmt, Refusal>
        requires part { NestsStatements self.now.parts (F.pre self.now.read) (F.post self.now.read) }
        requires low { self.now.parts < 200 }
        ensures { let n = self.now.parts in
            Reads (spec.throw_stmt (spec.value n) (spec.arguments n) (spec.unended n) (spec.statement n) tokens.old) result tokens.new }
    {
        let value = self.value(tokens)?;
        tokens.expect(Operator::Semicolon)?;
        Ok(Stmt::Throw(value))
    }

    /// What stands after `super` where a `(` comes next (JLS 8.8.7).
    #[tactic(auto, unfolding(java_reading::specs::ReadStmt::super_stmt))]
    fn super_stmt(&self, tokens: &mut Tokens<'_>, at: u32) -> Result<Stmt, Refusal>
        requires part { NestsStatements self.now.parts (F.pre self.now.read) (F.post self.now.read) }
        requires low { self.now.parts < 200 }
        ensures { let n = self.now.parts in
            Reads (spec.super_stmt (spec.value n) (spec.arguments n) (spec.unended n) (spec.statement n) at tokens.old) result tokens.new }
    {
        tokens.expect(Operator::LeftParen)?;
        let given = arguments(self.alloc, tokens, self.parts)?;
        tokens.expect(Operator::Semicolon)?;
        Ok(Stmt::Super(at, given))
    }

    /// A declaration and its semicolon.
    #[tactic(auto, unfolding(java_reading::specs::ReadStmt::local_stmt))]
    fn local_stmt(&self, tokens: &mut Tokens<'_>) -> Result<Stmt, Refusal>
        requires part { NestsStatements self.now.parts (F.pre self.now.read) (F.post self.now.read) }
        requires low { self.now.parts < 200 }
        ensures { let n = self.now.parts in
            Reads (spec.local_stmt n (spec.value n) (spec.arguments n) (spec.unended n) (spec.statement n) tokens.old) result tokens.new }
    {
        let tree = declaration(self.alloc, tokens, self.parts)?;
        tokens.expect(Operator::Semicolon)?;
        Ok(tree)
    }

    /// A simple statement and its semicolon.
    #[tactic(auto, unfolding(java_reading::specs::ReadStmt::simple_stmt))]
    fn simple_stmt(&self, tokens: &mut Tokens<'_>) -> Result<Stmt, Refusal>
        requires part { NestsStatements self.now.parts (F.pre self.now.read) (F.post self.now.read) }
        requires low { self.now.parts < 200 }
        ensures { let n = self.now.parts in
            Reads (spec.simple_stmt (spec.value n) (spec.arguments n) (spec.unended n) (spec.statement n) tokens.old) result tokens.new }
    {
        let tree = simple(self.alloc, tokens, self.parts)?;
        tokens.expect(Operator::Semicolon)?;
        Ok(tree)
    }

    /// A statement that `super` begins: a call of a constructor, or an expression that is one of a method.
    fn super_or_simple(&self, tokens: &mut Tokens<'_>, at: u32) -> Result<Stmt, Refusal>
        requires part { NestsStatements self.now.parts (F.pre self.now.read) (F.post self.now.read) }
        requires low { self.now.parts < 200 }
        ensures { let n = self.now.parts in
            Reads (spec.word_stmt (spec.value n) (spec.arguments n) (spec.unended n) (spec.statement n) Keyword.Super at tokens.old (spec_type.next tokens.old)) result tokens.new }
    {
        let mut behind = tokens.fork();
        behind.skip();
        if behind.sees(Operator::LeftParen) {
            tokens.skip();
            self.super_stmt(tokens, at)
        } else {
            self.simple_stmt(tokens)
        }
    }

    /// A statement that this keyword begins.
    fn word_stmt(&self, tokens: &mut Tokens<'_>, word: Keyword, at: u32) -> Result<Stmt, Refusal>
        requires part { NestsStatements self.now.parts (F.pre self.now.read) (F.post self.now.read) }
        requires low { self.now.parts < 200 }
        ensures { let n = self.now.parts in
            Reads (spec.word_stmt (spec.value n) (spec.arguments n) (spec.unended n) (spec.statement n) word at tokens.old (spec_type.next tokens.old)) result tokens.new }
    {
        match word {
            Keyword::If => {
                tokens.skip();
                self.if_stmt(tokens)
            }
            Keyword::While => {
                tokens.skip();
                self.while_stmt(tokens)
            }
            Keyword::Do => {
                tokens.skip();
                self.do_stmt(tokens)
            }
            Keyword::For => {
                tokens.skip();
                self.for_stmt(tokens)
            }
            Keyword::Return => {
                tokens.skip();
                self.return_stmt(tokens, at)
            }
            Keyword::Break => {
                tokens.skip();
                tokens.expect(Operator::Semicolon)?;
                Ok(Stmt::Break(at))
            }
            Keyword::Continue => {
                tokens.skip();
                tokens.expect(Operator::Semicolon)?;
                Ok(Stmt::Continue(at))
            }
            Keyword::Throw => {
                tokens.skip();
                self.throw_stmt(tokens)
            }
            Keyword::Try => {
                tokens.skip();
                self.try_stmt(tokens)
            }
            Keyword::Super => self.super_or_simple(tokens, at),
            _ => self.simple_stmt(tokens),
        }
    }

    /// A statement that is no declaration.
    #[tactic(auto, unfolding(java_reading::specs::ReadStmt::plain_stmt))]
    fn plain_stmt(&self, tokens: &mut Tokens<'_>) -> Result<Stmt, Refusal>
        requires part { NestsStatements self.now.parts (F.pre self.now.read) (F.post self.now.read) }
        requires low { self.now.parts < 200 }
        ensures { let n = self.now.parts in
            Reads (spec.plain_stmt (spec.value n) (spec.arguments n) (spec.unended n) (spec.statement n) tokens.old) result tokens.new }
    {
        let at = tokens.at();
        match tokens.peek() {
            None => Err(Refusal::NoTree),
            Some(TokenKind::Word(word)) => self.word_stmt(tokens, *word, at),
            Some(TokenKind::Op(Operator::LeftBrace)) => {
                tokens.skip();
                self.block(tokens)
            }
            Some(TokenKind::Op(Operator::Semicolon)) => {
                tokens.skip();
                Ok(Stmt::Empty)
            }
            Some(_) => self.simple_stmt(tokens),
        }
    }

    /// A statement, directly in a block or not.
    #[tactic(auto, unfolding(java_reading::specs::ReadStmt::stmt))]
    pub fn stmt(&self, tokens: &mut Tokens<'_>, in_block: bool) -> Result<Stmt, Refusal>
        requires part { NestsStatements self.now.parts (F.pre self.now.read) (F.post self.now.read) }
        requires low { self.now.parts < 200 }
        ensures { let n = self.now.parts in
            Reads (spec.stmt n (spec.value n) (spec.arguments n) (spec.unended n) (spec.statement n) in_block tokens.old) result tokens.new }
    {
        if !is_local(tokens) {
            return self.plain_stmt(tokens);
        }
        if in_block {
            self.local_stmt(tokens)
        } else {
            Err(Refusal::NoTree)
        }
    }
}
