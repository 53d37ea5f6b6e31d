//! What goes on after a term: precedence climbing (Richards and Whitby-Strevens, 1979), with one loop for all operators
//! and the dot.
//!
//! ```text
//! TIff  = TImp { "<=>" TImp }, TImp = TOr [ "=>" TImp ], and so on to TMul = TUn { "*" TUn }
//! TCmp  = TAdd [ ( "==" | "!=" | "<" | "<=" | ">" | ">=" | "in" ) TAdd ]
//! TPost = TPrim { "." Link }
//! ```
//!
//! Each turn makes the tree higher, so its height is tested before the turn: a chain as long as the file is refused at
//! the limit, and isn't built first.

ghost use Rattle.std.specs.Prelude.{◌≡◌, ◌≤◌, ◌<◌, ◌+◌, suc, IfOk};
ghost use Rattle.spec_reading.specs.ReadLink.{read_link};
ghost use Rattle.spec_reading.specs.ReadTerm as spec;
ghost use Rattle.spec_syntax.specs.Nests.{NestsTerms};
ghost use Rattle.token_reading.specs.Reads.{Reads};

use crate::infix::{infix_at, term_binds, term_follows};
use crate::levels::{op_end, right_level};
use crate::link_grammar::read_link;
use crate::nodes;
use crate::term_grammar::{TallTerm, TermGrammar};
use spec_reading::TermInfix;
use spec_trees::TermOp;
use std::alloc::Global;
use token_reading::{Refusal, Tokens};

impl<F: Fn(Global, &mut Tokens<'_>, u32, u8) -> Result<TallTerm, Refusal>> TermGrammar<F> {
    /// What stands after a set and a `.`.
    #[tactic(auto, unfolding(spec_reading::specs::ReadTerm::image))]
    fn image(&self, tokens: &mut Tokens<'_>, left: TallTerm) -> Result<TallTerm, Refusal>
        requires part { NestsTerms self.now.parts (F.pre self.now.read) (F.post self.now.read) }
        requires low { self.now.parts < 200 }
        requires operand { left.1 ≤ self.now.parts }
        ensures reads { Reads (spec.image (read_link self.now.parts 4) left tokens.old) result tokens.new }
        ensures low { IfOk result (λ t. t.1 ≤ self.now.parts + 1) }
    {
        let (set, height) = left;
        let (link, link_height) = read_link(self.alloc, tokens, self.parts, 4)?;
        let tree = nodes::image(self.alloc, set, link)?;
        Ok((tree, height.max(link_height) + 1))
    }

    /// What stands after a term and an operator.
    #[tactic(auto, unfolding(spec_reading::specs::ReadTerm::term_operated))]
    fn operated(
        &self,
        tokens: &mut Tokens<'_>,
        left: TallTerm,
        op: TermOp,
    ) -> Result<TallTerm, Refusal>
        requires part { NestsTerms self.now.parts (F.pre self.now.read) (F.post self.now.read) }
        requires low { self.now.parts < 200 }
        requires operand { left.1 ≤ self.now.parts }
        ensures reads { Reads (spec.term_operated (spec.read_term self.now.parts) left op tokens.old) result tokens.new }
        ensures low { IfOk result (λ t. t.1 ≤ self.now.parts + 1) }
    {
        let (left, height) = left;
        let (right, right_height) = self.part(tokens, right_level(op))?;
        if term_follows(tokens) > op_end(op) {
            return Err(Refusal::NoTree);
        }
        let tree = nodes::binary(self.alloc, op, left, right)?;
        Ok((tree, height.max(right_height) + 1))
    }

    /// What stands after a term and this token.
    fn behind(
        &self,
        tokens: &mut Tokens<'_>,
        left: TallTerm,
        token: TermInfix,
    ) -> Result<TallTerm, Refusal>
        requires part { NestsTerms self.now.parts (F.pre self.now.read) (F.post self.now.read) }
        requires low { self.now.parts < 200 }
        requires operand { left.1 ≤ self.now.parts }
        ensures reads { Reads (spec.term_behind (spec.read_term self.now.parts) (read_link self.now.parts 4) left token tokens.old) result tokens.new }
        ensures low { IfOk result (λ t. t.1 ≤ self.now.parts + 1) }
    {
        match token {
            TermInfix::Binary(op) => self.operated(tokens, left, op),
            TermInfix::Dot => self.image(tokens, left),
            TermInfix::Paren | TermInfix::Colon | TermInfix::Other => Err(Refusal::NoTree),
        }
    }

    /// Goes on with what binds as tightly as `least`.
    #[tactic(auto, unfolding(spec_reading::specs::ReadTerm::term_climb))]
    fn climb(
        &self,
        tokens: &mut Tokens<'_>,
        least: u8,
        mut left: TallTerm,
    ) -> Result<TallTerm, Refusal>
        requires part { NestsTerms self.now.parts (F.pre self.now.read) (F.post self.now.read) }
        requires low { self.now.parts < 200 }
        requires operand { left.1 ≤ self.now.parts + 1 }
        ensures reads { Reads (spec.term_climb self.now.parts (spec.read_term self.now.parts) (read_link self.now.parts 4) least (suc self.now.parts) left tokens.old) result tokens.new }
        ensures low { IfOk result (λ t. t.1 ≤ self.now.parts + 1) }
    {
        let most = self.parts + 1;
        for _turn in 0..most {
            let token = infix_at(tokens);
            if term_binds(token) < least {
                return Ok(left);
            }
            if left.1 >= most {
                return Err(Refusal::TooHigh);
            }
            tokens.skip();
            left = self.behind(tokens, left, token)?;
        }
        if term_binds(infix_at(tokens)) < least {
            Ok(left)
        } else {
            Err(Refusal::TooHigh)
        }
    }

    /// A term of this level of precedence or above.
    #[tactic(auto, unfolding(spec_reading::specs::ReadTerm::term_precedence))]
    pub fn precedence(&self, tokens: &mut Tokens<'_>, least: u8) -> Result<TallTerm, Refusal>
        requires part { NestsTerms self.now.parts (F.pre self.now.read) (F.post self.now.read) }
        requires low { self.now.parts < 200 }
        ensures reads { Reads (spec.term_precedence self.now.parts (spec.read_term self.now.parts) (read_link self.now.parts 4) least tokens.old) result tokens.new }
        ensures low { IfOk result (λ t. t.1 ≤ self.now.parts + 1) }
    {
        let first = self.prefix(tokens, least)?;
        self.climb(tokens, least, first)
    }
}
