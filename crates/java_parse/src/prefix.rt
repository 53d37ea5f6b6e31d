//! What begins an expression.
//!
//! ```text
//! Unary = ( "+" | "-" ) Unary | Plain
//! Plain = ( "!" | "~" ) Unary | "(" Type ")" Plain | Post
//! Prim  = Number | String | "true" | "false" | "null" | "this" | Ident | Ident "(" [ Args ] ")" | "(" Expr ")"
//!       | "super" "." Ident "(" [ Args ] ")" | "new" Ident "(" [ Args ] ")"
//!       | "new" ( "int" | "boolean" | Ident ) "[" Expr "]" { "[" "]" }
//! Args  = Expr { "," Expr }
//! ```

ghost use Rattle.std.specs.Prelude.{◌≡◌, ◌≤◌, ◌<◌, ◌+◌, IfOk, [], length};
ghost use Rattle.java_reading.specs.ReadExpr as spec;
ghost use Rattle.java_parse.specs.Nests.{Nests};
ghost use Rattle.token_reading.specs.Reads.{Reads};

use crate::grammar::{Grammar, Tall, Talls};
use crate::infix::unary_level;
use crate::lookahead::casts;
use crate::nodes;
use java_syntax::{Expr, UnaryOp};
use java_tokens::{Keyword, Operator, TokenKind};
use sqlite_items::Items;
use std::alloc::Global;
use token_reading::{BaseType, Ident, Refusal, Tokens, castable};

impl<F: Fn(Global, &mut Tokens<'_>, u32, u8) -> Result<Tall, Refusal>> Grammar<F> {
    /// Further arguments and the closing parenthesis.
    #[tactic(auto, unfolding(java_reading::specs::ReadExpr::more_args))]
    fn more_args(&self, tokens: &mut Tokens<'_>) -> Result<Talls, Refusal>
        requires part { Nests self.now.parts (F.pre self.now.read) (F.post self.now.read) }
        requires low { self.now.parts < 200 }
        ensures reads { Reads (spec.more_args (spec.reading self.now.parts) (length tokens.old) [] 0 tokens.old) result tokens.new }
        ensures low { IfOk result (λ t. t.1 ≤ self.now.parts) }
    {
        let mut found = Items::new(self.alloc);
        let mut height = 0;
        for _turn in 0..tokens.left() {
            let (arg, arg_height) = self.part(tokens, 1)?;
            found.push(arg)?;
            height = height.max(arg_height);
            if !tokens.eat(Operator::Comma) {
                tokens.expect(Operator::RightParen)?;
                return Ok((found, height));
            }
        }
        Err(Refusal::NoTree)
    }

    /// The arguments after the opening parenthesis, and the greatest of their heights (JLS 15.12).
    #[tactic(auto, unfolding(java_reading::specs::ReadExpr::args))]
    pub fn args(&self, tokens: &mut Tokens<'_>) -> Result<Talls, Refusal>
        requires part { Nests self.now.parts (F.pre self.now.read) (F.post self.now.read) }
        requires low { self.now.parts < 200 }
        ensures reads { Reads (spec.args (spec.reading self.now.parts) tokens.old) result tokens.new }
        ensures low { IfOk result (λ t. t.1 ≤ self.now.parts) }
    {
        if tokens.eat(Operator::RightParen) {
            return Ok((Items::new(self.alloc), 0));
        }
        self.more_args(tokens)
    }

    /// What stands after a name: the arguments of a call, or nothing.
    #[tactic(auto, unfolding(java_reading::specs::ReadExpr::named))]
    fn named(&self, tokens: &mut Tokens<'_>, name: Ident) -> Result<Tall, Refusal>
        requires part { Nests self.now.parts (F.pre self.now.read) (F.post self.now.read) }
        requires low { self.now.parts < 200 }
        ensures reads { Reads (spec.named (spec.reading self.now.parts) name tokens.old) result tokens.new }
        ensures low { IfOk result (λ t. t.1 ≤ self.now.parts + 1) }
    {
        if tokens.eat(Operator::LeftParen) {
            let (given, height) = self.args(tokens)?;
            Ok((Expr::Call(name, given), height + 1))
        } else {
            Ok((Expr::Name(name), 1))
        }
    }

    /// What stands after the `(` of a cast (JLS 15.16).
    #[tactic(auto, unfolding(java_reading::specs::ReadExpr::cast))]
    fn cast(&self, tokens: &mut Tokens<'_>, at: u32) -> Result<Tall, Refusal>
        requires part { Nests self.now.parts (F.pre self.now.read) (F.post self.now.read) }
        requires low { self.now.parts < 200 }
        ensures reads { Reads (spec.cast self.now.parts (spec.reading self.now.parts) at tokens.old) result tokens.new }
        ensures low { IfOk result (λ t. t.1 ≤ self.now.parts + 1) }
    {
        let ty = tokens.type_tree(self.parts)?;
        if !castable(&ty) {
            return Err(Refusal::NoTree);
        }
        tokens.expect(Operator::RightParen)?;
        let (operand, height) = self.part(tokens, 13)?;
        let height = ty.height().max(height) + 1;
        Ok((nodes::cast(self.alloc, at, ty, operand)?, height))
    }

    /// What stands after a `(`.
    #[tactic(auto, unfolding(java_reading::specs::ReadExpr::parens))]
    fn parens(&self, tokens: &mut Tokens<'_>, at: u32) -> Result<Tall, Refusal>
        requires part { Nests self.now.parts (F.pre self.now.read) (F.post self.now.read) }
        requires low { self.now.parts < 200 }
        ensures reads { Reads (spec.parens self.now.parts (spec.reading self.now.parts) at tokens.old) result tokens.new }
        ensures low { IfOk result (λ t. t.1 ≤ self.now.parts + 1) }
    {
        if casts(tokens) {
            return self.cast(tokens, at);
        }
        let (inner, height) = self.part(tokens, 1)?;
        tokens.expect(Operator::RightParen)?;
        Ok((nodes::paren(self.alloc, at, inner)?, height + 1))
    }

    /// What stands after an operator before its operand (JLS 15.15).
    #[tactic(auto, unfolding(java_reading::specs::ReadExpr::operand))]
    fn operand(
        &self,
        tokens: &mut Tokens<'_>,
        least: u8,
        at: u32,
        op: UnaryOp,
    ) -> Result<Tall, Refusal>
        requires part { Nests self.now.parts (F.pre self.now.read) (F.post self.now.read) }
        requires low { self.now.parts < 200 }
        ensures reads { Reads (spec.operand (spec.reading self.now.parts) least at op tokens.old) result tokens.new }
        ensures low { IfOk result (λ t. t.1 ≤ self.now.parts + 1) }
    {
        if unary_level(op) < least {
            return Err(Refusal::NoTree);
        }
        let (operand, height) = self.part(tokens, 12)?;
        Ok((nodes::unary(self.alloc, at, op, operand)?, height + 1))
    }

    /// What stands after `super` (JLS 15.12).
    #[tactic(auto, unfolding(java_reading::specs::ReadExpr::super_call))]
    fn super_call(&self, tokens: &mut Tokens<'_>, at: u32) -> Result<Tall, Refusal>
        requires part { Nests self.now.parts (F.pre self.now.read) (F.post self.now.read) }
        requires low { self.now.parts < 200 }
        ensures reads { Reads (spec.super_call (spec.reading self.now.parts) at tokens.old) result tokens.new }
        ensures low { IfOk result (λ t. t.1 ≤ self.now.parts + 1) }
    {
        tokens.expect(Operator::Dot)?;
        let name = tokens.ident()?;
        tokens.expect(Operator::LeftParen)?;
        let (given, height) = self.args(tokens)?;
        Ok((Expr::Super(at, name, given), height + 1))
    }

    /// What stands after `new` and the name of a class (JLS 15.9).
    #[tactic(auto, unfolding(java_reading::specs::ReadExpr::instance))]
    fn instance(&self, tokens: &mut Tokens<'_>, at: u32, class: Ident) -> Result<Tall, Refusal>
        requires part { Nests self.now.parts (F.pre self.now.read) (F.post self.now.read) }
        requires low { self.now.parts < 200 }
        ensures reads { Reads (spec.instance (spec.reading self.now.parts) at class tokens.old) result tokens.new }
        ensures low { IfOk result (λ t. t.1 ≤ self.now.parts + 1) }
    {
        tokens.expect(Operator::LeftParen)?;
        let (given, height) = self.args(tokens)?;
        Ok((Expr::New(at, class, given), height + 1))
    }

    /// What stands after `new` and the base of an array's type (JLS 15.10).
    #[tactic(auto, unfolding(java_reading::specs::ReadExpr::array))]
    fn array(&self, tokens: &mut Tokens<'_>, at: u32, base: BaseType) -> Result<Tall, Refusal>
        requires part { Nests self.now.parts (F.pre self.now.read) (F.post self.now.read) }
        requires low { self.now.parts < 200 }
        ensures reads { Reads (spec.array self.now.parts (spec.reading self.now.parts) at base tokens.old) result tokens.new }
        ensures low { IfOk result (λ t. t.1 ≤ self.now.parts + 1) }
    {
        tokens.expect(Operator::LeftBracket)?;
        let (size, height) = self.part(tokens, 1)?;
        tokens.expect(Operator::RightBracket)?;
        let dimensions = tokens.brackets(self.parts)?;
        let tree = nodes::new_array(self.alloc, at, base, size, dimensions)?;
        Ok((tree, dimensions.max(height) + 1))
    }

    /// What stands after `new`.
    #[tactic(auto, unfolding(java_reading::specs::ReadExpr::creation))]
    fn creation(&self, tokens: &mut Tokens<'_>, at: u32) -> Result<Tall, Refusal>
        requires part { Nests self.now.parts (F.pre self.now.read) (F.post self.now.read) }
        requires low { self.now.parts < 200 }
        ensures reads { Reads (spec.creation self.now.parts (spec.reading self.now.parts) at tokens.old) result tokens.new }
        ensures low { IfOk result (λ t. t.1 ≤ self.now.parts + 1) }
    {
        match tokens.base_type()? {
            BaseType::Class(class) => {
                if tokens.sees(Operator::LeftParen) {
                    self.instance(tokens, at, class)
                } else {
                    self.array(tokens, at, BaseType::Class(class))
                }
            }
            base => self.array(tokens, at, base),
        }
    }

    /// What an operator or separator begins.
    fn prefix_operator(
        &self,
        tokens: &mut Tokens<'_>,
        least: u8,
        at: u32,
        sign: Operator,
    ) -> Result<Tall, Refusal>
        requires part { Nests self.now.parts (F.pre self.now.read) (F.post self.now.read) }
        requires low { self.now.parts < 200 }
        ensures reads { Reads (spec.prefix_operator self.now.parts (spec.reading self.now.parts) least at sign tokens.old) result tokens.new }
        ensures low { IfOk result (λ t. t.1 ≤ self.now.parts + 1) }
    {
        match sign {
            Operator::LeftParen => self.parens(tokens, at),
            Operator::Plus => self.operand(tokens, least, at, UnaryOp::Plus),
            Operator::Minus => self.operand(tokens, least, at, UnaryOp::Minus),
            Operator::Not => self.operand(tokens, least, at, UnaryOp::Not),
            Operator::Tilde => self.operand(tokens, least, at, UnaryOp::Complement),
            _ => Err(Refusal::NoTree),
        }
    }

    /// What a keyword begins.
    fn prefix_keyword(
        &self,
        tokens: &mut Tokens<'_>,
        at: u32,
        word: Keyword,
    ) -> Result<Tall, Refusal>
        requires part { Nests self.now.parts (F.pre self.now.read) (F.post self.now.read) }
        requires low { self.now.parts < 200 }
        ensures reads { Reads (spec.prefix_keyword self.now.parts (spec.reading self.now.parts) at word tokens.old) result tokens.new }
        ensures low { IfOk result (λ t. t.1 ≤ self.now.parts + 1) }
    {
        match word {
            Keyword::True => Ok((Expr::Bool(at, true), 1)),
            Keyword::False => Ok((Expr::Bool(at, false), 1)),
            Keyword::Null => Ok((Expr::Null(at), 1)),
            Keyword::This => Ok((Expr::This(at), 1)),
            Keyword::Super => self.super_call(tokens, at),
            Keyword::New => self.creation(tokens, at),
            _ => Err(Refusal::NoTree),
        }
    }

    /// A tree that begins with a token of its own.
    #[tactic(auto, unfolding(java_reading::specs::ReadExpr::prefix))]
    pub fn prefix(&self, tokens: &mut Tokens<'_>, least: u8) -> Result<Tall, Refusal>
        requires part { Nests self.now.parts (F.pre self.now.read) (F.post self.now.read) }
        requires low { self.now.parts < 200 }
        ensures reads { Reads (spec.prefix self.now.parts (spec.reading self.now.parts) least tokens.old) result tokens.new }
        ensures low { IfOk result (λ t. t.1 ≤ self.now.parts + 1) }
    {
        let at = tokens.at();
        let Some(kind) = tokens.peek() else {
            return Err(Refusal::NoTree);
        };
        tokens.skip();
        match kind {
            TokenKind::Number(value) => Ok((Expr::Number(at, *value), 1)),
            TokenKind::Text(text) => Ok((Expr::Text(at, text.clone()?), 1)),
            TokenKind::Ident(name) => {
                let name = name.clone()?;
                self.named(tokens, Ident { at, name })
            }
            TokenKind::Word(word) => self.prefix_keyword(tokens, at, *word),
            TokenKind::Op(sign) => self.prefix_operator(tokens, least, at, *sign),
            TokenKind::End => Err(Refusal::NoTree),
        }
    }
}
