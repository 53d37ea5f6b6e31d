//! Relations, by precedence climbing as in `term_climb`.
//!
//! ```text
//! Link  = Ident | ( "^" | "*" | "~" ) Link | "(" RAdd ")"
//! RAdd  = RMeet { ( "+" | "-" ) RMeet }
//! RMeet = RJoin { "&" RJoin }
//! RJoin = Link { "." Link }
//! ```
//!
//! The readers take the reader of their parts as a parameter, so that each is proved by itself.

ghost use Rattle.std.specs.Prelude.{◌≡◌, ◌≤◌, ◌<◌, ◌+◌, suc, IfOk};
ghost use Rattle.spec_reading.specs.ReadLink as spec;
ghost use Rattle.spec_syntax.specs.Nests.{NestsLinks};
ghost use Rattle.token_reading.specs.Reads.{Reads};

use crate::infix::{link_binds, link_op_at};
use crate::levels::link_op_level;
use crate::nodes;
use java_tokens::{Operator, TokenKind};
use spec_trees::{LinkOp, LinkTree, PathOp, word_of};
use std::alloc::Global;
use token_reading::{Ident, Refusal, Tokens};

/// A relation and its height.
pub type TallLink = (LinkTree, u32);

/// The reader of a relation from the readers of its parts.
#[derive(Clone, Copy)]
pub struct LinkGrammar<F> {
    pub alloc: Global,
    /// How high the parts may be; the whole may be higher by 1.
    pub parts: u32,
    /// Reads a part of at most a height and of at least a level of precedence.
    pub read: F,
}

impl<F: Fn(Global, &mut Tokens<'_>, u32, u8) -> Result<TallLink, Refusal>> LinkGrammar<F> {
    /// Takes a part of this level of precedence or above.
    fn part(&self, tokens: &mut Tokens<'_>, least: u8) -> Result<TallLink, Refusal>
        requires part { NestsLinks self.now.parts (F.pre self.now.read) (F.post self.now.read) }
        requires low { self.now.parts < 200 }
        ensures reads { Reads (spec.read_link self.now.parts least tokens.old) result tokens.new }
        ensures low { IfOk result (λ t. t.1 ≤ self.now.parts) }
    {
        (self.read)(self.alloc, tokens, self.parts, least)
    }

    /// What stands after `^`, `*` or `~`.
    #[tactic(auto, unfolding(spec_reading::specs::ReadLink::path_of))]
    fn path(&self, tokens: &mut Tokens<'_>, at: u32, op: PathOp) -> Result<TallLink, Refusal>
        requires part { NestsLinks self.now.parts (F.pre self.now.read) (F.post self.now.read) }
        requires low { self.now.parts < 200 }
        ensures reads { Reads (spec.path_of (spec.read_link self.now.parts) at op tokens.old) result tokens.new }
        ensures low { IfOk result (λ t. t.1 ≤ self.now.parts + 1) }
    {
        let (link, height) = self.part(tokens, 4)?;
        Ok((nodes::path(self.alloc, at, op, link)?, height + 1))
    }

    /// What stands after a `(`.
    #[tactic(auto, unfolding(spec_reading::specs::ReadLink::link_parens))]
    fn parens(&self, tokens: &mut Tokens<'_>, at: u32) -> Result<TallLink, Refusal>
        requires part { NestsLinks self.now.parts (F.pre self.now.read) (F.post self.now.read) }
        requires low { self.now.parts < 200 }
        ensures reads { Reads (spec.link_parens (spec.read_link self.now.parts) at tokens.old) result tokens.new }
        ensures low { IfOk result (λ t. t.1 ≤ self.now.parts + 1) }
    {
        let (link, height) = self.part(tokens, 1)?;
        tokens.expect(Operator::RightParen)?;
        Ok((nodes::link_paren(self.alloc, at, link)?, height + 1))
    }

    /// What an operator or separator begins.
    fn prefix_operator(
        &self,
        tokens: &mut Tokens<'_>,
        at: u32,
        sign: Operator,
    ) -> Result<TallLink, Refusal>
        requires part { NestsLinks self.now.parts (F.pre self.now.read) (F.post self.now.read) }
        requires low { self.now.parts < 200 }
        ensures reads { Reads (spec.link_prefix_operator (spec.read_link self.now.parts) at sign tokens.old) result tokens.new }
        ensures low { IfOk result (λ t. t.1 ≤ self.now.parts + 1) }
    {
        match sign {
            Operator::Xor => self.path(tokens, at, PathOp::Paths),
            Operator::Star => self.path(tokens, at, PathOp::PathsOrSame),
            Operator::Tilde => self.path(tokens, at, PathOp::Converse),
            Operator::LeftParen => self.parens(tokens, at),
            _ => Err(Refusal::NoTree),
        }
    }

    /// A relation that begins with a token of its own.
    #[tactic(auto, unfolding(spec_reading::specs::ReadLink::link_prefix))]
    fn prefix(&self, tokens: &mut Tokens<'_>) -> Result<TallLink, Refusal>
        requires part { NestsLinks self.now.parts (F.pre self.now.read) (F.post self.now.read) }
        requires low { self.now.parts < 200 }
        ensures reads { Reads (spec.link_prefix (spec.read_link self.now.parts) tokens.old) result tokens.new }
        ensures low { IfOk result (λ t. t.1 ≤ self.now.parts + 1) }
    {
        let at = tokens.at();
        let Some(kind) = tokens.peek() else {
            return Err(Refusal::NoTree);
        };
        tokens.skip();
        match kind {
            TokenKind::Ident(name) => match word_of(name) {
                None => {
                    let name = name.clone()?;
                    Ok((LinkTree::Field(Ident { at, name }), 1))
                }
                Some(_) => Err(Refusal::NoTree),
            },
            TokenKind::Op(sign) => self.prefix_operator(tokens, at, *sign),
            _ => Err(Refusal::NoTree),
        }
    }

    /// What stands after a relation and an operator.
    #[tactic(auto, unfolding(spec_reading::specs::ReadLink::link_operated))]
    fn operated(
        &self,
        tokens: &mut Tokens<'_>,
        left: TallLink,
        op: LinkOp,
    ) -> Result<TallLink, Refusal>
        requires part { NestsLinks self.now.parts (F.pre self.now.read) (F.post self.now.read) }
        requires low { self.now.parts < 200 }
        requires operand { left.1 ≤ self.now.parts }
        ensures reads { Reads (spec.link_operated (spec.read_link self.now.parts) left op tokens.old) result tokens.new }
        ensures low { IfOk result (λ t. t.1 ≤ self.now.parts + 1) }
    {
        let (left, height) = left;
        let (right, right_height) = self.part(tokens, link_op_level(op) + 1)?;
        let tree = nodes::link_binary(self.alloc, op, left, right)?;
        Ok((tree, height.max(right_height) + 1))
    }

    /// What stands after a relation and this operator, if it is one.
    fn behind(
        &self,
        tokens: &mut Tokens<'_>,
        left: TallLink,
        op: Option<LinkOp>,
    ) -> Result<TallLink, Refusal>
        requires part { NestsLinks self.now.parts (F.pre self.now.read) (F.post self.now.read) }
        requires low { self.now.parts < 200 }
        requires operand { left.1 ≤ self.now.parts }
        ensures reads { Reads (spec.link_behind (spec.read_link self.now.parts) left op tokens.old) result tokens.new }
        ensures low { IfOk result (λ t. t.1 ≤ self.now.parts + 1) }
    {
        match op {
            Some(op) => self.operated(tokens, left, op),
            None => Err(Refusal::NoTree),
        }
    }

    /// Goes on with what binds as tightly as `least`.
    #[tactic(auto, unfolding(spec_reading::specs::ReadLink::link_climb))]
    fn climb(
        &self,
        tokens: &mut Tokens<'_>,
        least: u8,
        mut left: TallLink,
    ) -> Result<TallLink, Refusal>
        requires part { NestsLinks self.now.parts (F.pre self.now.read) (F.post self.now.read) }
        requires low { self.now.parts < 200 }
        requires operand { left.1 ≤ self.now.parts + 1 }
        ensures reads { Reads (spec.link_climb self.now.parts (spec.read_link self.now.parts) least (suc self.now.parts) left tokens.old) result tokens.new }
        ensures low { IfOk result (λ t. t.1 ≤ self.now.parts + 1) }
    {
        let most = self.parts + 1;
        for _turn in 0..most {
            let op = link_op_at(tokens);
            if link_binds(op) < least {
                return Ok(left);
            }
            if left.1 >= most {
                return Err(Refusal::TooHigh);
            }
            tokens.skip();
            left = self.behind(tokens, left, op)?;
        }
        if link_binds(link_op_at(tokens)) < least {
            Ok(left)
        } else {
            Err(Refusal::TooHigh)
        }
    }

    /// A relation of this level of precedence or above.
    #[tactic(auto, unfolding(spec_reading::specs::ReadLink::link_precedence))]
    fn precedence(&self, tokens: &mut Tokens<'_>, least: u8) -> Result<TallLink, Refusal>
        requires part { NestsLinks self.now.parts (F.pre self.now.read) (F.post self.now.read) }
        requires low { self.now.parts < 200 }
        ensures reads { Reads (spec.link_precedence self.now.parts (spec.read_link self.now.parts) least tokens.old) result tokens.new }
        ensures low { IfOk result (λ t. t.1 ≤ self.now.parts + 1) }
    {
        let first = self.prefix(tokens)?;
        self.climb(tokens, least, first)
    }
}

/// A relation of level `least` or above and of at most this height.
pub fn read_link(
    alloc: Global,
    tokens: &mut Tokens<'_>,
    most: u32,
    least: u8,
) -> Result<TallLink, Refusal>
    requires { most ≤ 200 }
    ensures reads { Reads (spec.read_link most least tokens.old) result tokens.new }
    ensures low { IfOk result (λ t. t.1 ≤ most) }
{
    if most == 0 {
        return Err(tokens.too_high());
    }
    LinkGrammar {
        alloc,
        parts: most - 1,
        read: read_link,
    }
    .precedence(tokens, least)
}
