//! What goes on after an operand: precedence climbing (Richards and Whitby-Strevens, 1979), with one loop for all
//! operators and suffixes.
//!
//! ```text
//! Expr = Or [ "?" Expr ":" Expr ]
//! Or   = And { "||" And }, and so on to Prod = Unary { ( "*" | "/" | "%" ) Unary }
//! Rel  = Shift { ( "<" | ">" | "<=" | ">=" ) Shift | "instanceof" Type }
//! Post = Prim { "." Ident [ "(" [ Args ] ")" ] | "[" Expr "]" }
//! ```
//!
//! Each turn makes the tree higher, so its height is tested before the turn: a chain as long as the file is refused at
//! the limit, and isn't built first.

ghost use Rattle.std.specs.Prelude.{◌≡◌, ◌≤◌, ◌<◌, ◌+◌, suc, IfOk};
ghost use Rattle.java_reading.specs.ReadExpr as spec;
ghost use Rattle.java_parse.specs.Nests.{Nests};
ghost use Rattle.token_reading.specs.Reads.{Reads};

use crate::grammar::{Grammar, Tall};
use crate::infix::{binary_level, binds, first_infix};
use crate::nodes;
use java_reading::Infix;
use java_syntax::BinaryOp;
use java_tokens::Operator;
use std::alloc::Global;
use token_reading::{Refusal, Tokens};

impl<F: Fn(Global, &mut Tokens<'_>, u32, u8) -> Result<Tall, Refusal>> Grammar<F> {
    /// What stands after an operand and a `.` (JLS 15.11, 15.12).
    #[tactic(auto, unfolding(java_reading::specs::ReadExpr::member))]
    fn member(&self, tokens: &mut Tokens<'_>, left: Tall) -> Result<Tall, Refusal>
        requires part { Nests self.now.parts (F.pre self.now.read) (F.post self.now.read) }
        requires low { self.now.parts < 200 }
        requires operand { left.1 ≤ self.now.parts }
        ensures reads { Reads (spec.member (spec.reading self.now.parts) left tokens.old) result tokens.new }
        ensures low { IfOk result (λ t. t.1 ≤ self.now.parts + 1) }
    {
        let (object, height) = left;
        let name = tokens.ident()?;
        if tokens.eat(Operator::LeftParen) {
            let (given, args_height) = self.args(tokens)?;
            let tree = nodes::method(self.alloc, object, name, given)?;
            Ok((tree, height.max(args_height) + 1))
        } else {
            Ok((nodes::field(self.alloc, object, name)?, height + 1))
        }
    }

    /// What stands after an operand and a `[` (JLS 15.10.3).
    #[tactic(auto, unfolding(java_reading::specs::ReadExpr::element))]
    fn element(&self, tokens: &mut Tokens<'_>, left: Tall) -> Result<Tall, Refusal>
        requires part { Nests self.now.parts (F.pre self.now.read) (F.post self.now.read) }
        requires low { self.now.parts < 200 }
        requires operand { left.1 ≤ self.now.parts }
        ensures reads { Reads (spec.element (spec.reading self.now.parts) left tokens.old) result tokens.new }
        ensures low { IfOk result (λ t. t.1 ≤ self.now.parts + 1) }
    {
        let (array, height) = left;
        let (index, index_height) = self.part(tokens, 1)?;
        tokens.expect(Operator::RightBracket)?;
        let tree = nodes::element(self.alloc, array, index)?;
        Ok((tree, height.max(index_height) + 1))
    }

    /// What stands after an operand and a `?` (JLS 15.25).
    #[tactic(auto, unfolding(java_reading::specs::ReadExpr::conditional))]
    fn conditional(&self, tokens: &mut Tokens<'_>, left: Tall) -> Result<Tall, Refusal>
        requires part { Nests self.now.parts (F.pre self.now.read) (F.post self.now.read) }
        requires low { self.now.parts < 200 }
        requires operand { left.1 ≤ self.now.parts }
        ensures reads { Reads (spec.conditional (spec.reading self.now.parts) left tokens.old) result tokens.new }
        ensures low { IfOk result (λ t. t.1 ≤ self.now.parts + 1) }
    {
        let (condition, height) = left;
        let (then, then_height) = self.part(tokens, 1)?;
        tokens.expect(Operator::Colon)?;
        let (other, other_height) = self.part(tokens, 1)?;
        let tree = nodes::conditional(self.alloc, condition, then, other)?;
        Ok((tree, height.max(then_height.max(other_height)) + 1))
    }

    /// What stands after an operand and `instanceof` (JLS 15.20.2).
    #[tactic(auto, unfolding(java_reading::specs::ReadExpr::instance_of))]
    fn instance_of(&self, tokens: &mut Tokens<'_>, left: Tall) -> Result<Tall, Refusal>
        requires part { Nests self.now.parts (F.pre self.now.read) (F.post self.now.read) }
        requires low { self.now.parts < 200 }
        requires operand { left.1 ≤ self.now.parts }
        ensures reads { Reads (spec.instance_of self.now.parts (spec.reading self.now.parts) left tokens.old) result tokens.new }
        ensures low { IfOk result (λ t. t.1 ≤ self.now.parts + 1) }
    {
        let (operand, height) = left;
        let ty = tokens.type_tree(self.parts)?;
        if binds(first_infix(tokens)) > 8 {
            return Err(Refusal::NoTree);
        }
        let height = ty.height().max(height) + 1;
        Ok((nodes::instance_of(self.alloc, operand, ty)?, height))
    }

    /// What stands after an operand and an operator between two (JLS 15.17 to 15.24).
    #[tactic(auto, unfolding(java_reading::specs::ReadExpr::operated))]
    fn operated(&self, tokens: &mut Tokens<'_>, left: Tall, op: BinaryOp) -> Result<Tall, Refusal>
        requires part { Nests self.now.parts (F.pre self.now.read) (F.post self.now.read) }
        requires low { self.now.parts < 200 }
        requires operand { left.1 ≤ self.now.parts }
        ensures reads { Reads (spec.operated (spec.reading self.now.parts) left op tokens.old) result tokens.new }
        ensures low { IfOk result (λ t. t.1 ≤ self.now.parts + 1) }
    {
        let (left, height) = left;
        let (right, right_height) = self.part(tokens, binary_level(op) + 1)?;
        let tree = nodes::binary(self.alloc, op, left, right)?;
        Ok((tree, height.max(right_height) + 1))
    }

    /// What stands after an operand and this token.
    fn behind(&self, tokens: &mut Tokens<'_>, left: Tall, token: Infix) -> Result<Tall, Refusal>
        requires part { Nests self.now.parts (F.pre self.now.read) (F.post self.now.read) }
        requires low { self.now.parts < 200 }
        requires operand { left.1 ≤ self.now.parts }
        ensures reads { Reads (spec.behind self.now.parts (spec.reading self.now.parts) left token tokens.old) result tokens.new }
        ensures low { IfOk result (λ t. t.1 ≤ self.now.parts + 1) }
    {
        match token {
            Infix::Binary(op) => self.operated(tokens, left, op),
            Infix::InstanceOf => self.instance_of(tokens, left),
            Infix::Question => self.conditional(tokens, left),
            Infix::Dot => self.member(tokens, left),
            Infix::Bracket => self.element(tokens, left),
            Infix::Paren | Infix::Other => Err(Refusal::NoTree),
        }
    }

    /// Goes on with what binds as tightly as `least`.
    #[tactic(auto, unfolding(java_reading::specs::ReadExpr::climb))]
    fn climb(&self, tokens: &mut Tokens<'_>, least: u8, mut left: Tall) -> Result<Tall, Refusal>
        requires part { Nests self.now.parts (F.pre self.now.read) (F.post self.now.read) }
        requires low { self.now.parts < 200 }
        requires operand { left.1 ≤ self.now.parts + 1 }
        ensures reads { Reads (spec.climb self.now.parts (spec.reading self.now.parts) least (suc self.now.parts) left tokens.old) result tokens.new }
        ensures low { IfOk result (λ t. t.1 ≤ self.now.parts + 1) }
    {
        let most = self.parts + 1;
        for _turn in 0..most {
            let token = first_infix(tokens);
            if binds(token) < least {
                return Ok(left);
            }
            if left.1 >= most {
                return Err(Refusal::TooHigh);
            }
            tokens.skip();
            left = self.behind(tokens, left, token)?;
        }
        if binds(first_infix(tokens)) < least {
            Ok(left)
        } else {
            Err(Refusal::TooHigh)
        }
    }

    /// An expression of this level of precedence or above.
    #[tactic(auto, unfolding(java_reading::specs::ReadExpr::precedence))]
    pub fn precedence(&self, tokens: &mut Tokens<'_>, least: u8) -> Result<Tall, Refusal>
        requires part { Nests self.now.parts (F.pre self.now.read) (F.post self.now.read) }
        requires low { self.now.parts < 200 }
        ensures reads { Reads (spec.precedence self.now.parts (spec.reading self.now.parts) least tokens.old) result tokens.new }
        ensures low { IfOk result (λ t. t.1 ≤ self.now.parts + 1) }
    {
        let first = self.prefix(tokens, least)?;
        self.climb(tokens, least, first)
    }
}
