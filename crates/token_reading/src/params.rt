//! Parameters.
//!
//! ```text
//! Params = Type Ident { "," Type Ident }
//! ```

ghost use Rattle.std.specs.Prelude.{◌≡◌, [], length};
ghost use Rattle.token_reading.specs.ReadType as spec;
ghost use Rattle.token_reading.specs.Reads.{Reads};

use crate::name::ParamTree;
use crate::refusal::Refusal;
use crate::tokens::Tokens;
use java_tokens::Operator;
use sqlite_items::Items;
use std::alloc::Global;

impl Tokens<'_> {
    /// A parameter whose type has at most this height (JLS 8.4.1).
    #[tactic(auto, unfolding(crate::specs::ReadType::param))]
    fn param(&mut self, most: u32) -> Result<ParamTree, Refusal>
        ensures { Reads (spec.param most self.old) result self.new }
    {
        let ty = self.type_tree(most)?;
        let name = self.ident()?;
        Ok(ParamTree { ty, name })
    }

    /// Further parameters and the closing parenthesis.
    #[tactic(auto, unfolding(crate::specs::ReadType::more_params))]
    fn more_params(&mut self, alloc: Global, most: u32) -> Result<Items<ParamTree>, Refusal>
        ensures { Reads (spec.more_params most (length self.old) [] self.old) result self.new }
    {
        let mut found = Items::new(alloc);
        for _turn in 0..self.left() {
            let next = self.param(most)?;
            found.push(next)?;
            if !self.eat(Operator::Comma) {
                self.expect(Operator::RightParen)?;
                return Ok(found);
            }
        }
        Err(Refusal::NoTree)
    }

    /// Takes parameters in their parentheses, whose types have at most this height.
    #[tactic(auto, unfolding(crate::specs::ReadType::params))]
    pub fn params(&mut self, alloc: Global, most: u32) -> Result<Items<ParamTree>, Refusal>
        ensures { Reads (spec.params most self.old) result self.new }
    {
        self.expect(Operator::LeftParen)?;
        if self.eat(Operator::RightParen) {
            return Ok(Items::new(alloc));
        }
        self.more_params(alloc, most)
    }
}
