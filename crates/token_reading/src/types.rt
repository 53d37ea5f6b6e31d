//! Identifiers and types.
//!
//! ```text
//! Type = ( "int" | "boolean" | Ident ) { "[" "]" }
//! ```

ghost use Rattle.std.specs.Prelude.{◌≡◌, ◌≤◌, IfOk, length};
ghost use Rattle.token_reading.specs.Height.{type_height};
ghost use Rattle.token_reading.specs.Types.{castable, past_brackets};
ghost use Rattle.token_reading.specs.ReadType as spec;
ghost use Rattle.token_reading.specs.Reads.{Reads};

use crate::name::{BaseType, Ident, TypeTree};
use crate::refusal::Refusal;
use crate::tokens::Tokens;
use java_tokens::{Keyword, Operator, TokenKind};

impl Tokens<'_> {
    /// Whether an identifier comes next.
    pub fn sees_name(&self) -> bool
        ensures { result ≡ spec.sees_name self.now }
    {
        matches!(self.peek(), Some(TokenKind::Ident(_)))
    }

    /// Takes an identifier (JLS 3.8).
    #[tactic(auto, unfolding(crate::specs::ReadType::ident))]
    pub fn ident(&mut self) -> Result<Ident, Refusal>
        ensures { Reads (spec.ident self.old) result self.new }
    {
        let at = self.at();
        if let Some(TokenKind::Ident(name)) = self.peek() {
            let name = name.clone()?;
            self.skip();
            return Ok(Ident { at, name });
        }
        Err(Refusal::NoTree)
    }

    /// Whether `[` and `]` come next.
    fn sees_brackets(&self) -> bool
        ensures { result ≡ spec.sees_pair self.now }
    {
        let mut ahead = self.fork();
        ahead.eat(Operator::LeftBracket) && ahead.sees(Operator::RightBracket)
    }

    /// Goes after all pairs of brackets that come next.
    #[tactic(auto, using(crate::proofs::Pairs::pairs))]
    pub fn skip_brackets(&mut self)
        ensures { self.new ≡ past_brackets self.old }
    {
        while self.sees_brackets() {
            self.skip();
            self.skip();
        }
    }

    /// Takes all pairs of brackets that come next, and gives their number.
    #[tactic(auto, unfolding(crate::specs::ReadType::brackets))]
    fn all_brackets(&mut self) -> Result<u32, Refusal>
        ensures { Reads (spec.brackets (length self.old) 0 self.old) result self.new }
    {
        let mut found = 0;
        for _turn in 0..self.left() {
            if !self.eat(Operator::LeftBracket) {
                return Ok(found);
            }
            self.expect(Operator::RightBracket)?;
            found += 1;
        }
        Ok(found)
    }

    /// Takes all pairs of brackets that come next, and gives their number. `TooHigh` where there are more than `most`.
    #[tactic(auto, unfolding(crate::specs::ReadType::pairs))]
    pub fn brackets(&mut self, most: u32) -> Result<u32, Refusal>
        ensures reads { Reads (spec.pairs most self.old) result self.new }
        ensures low { IfOk result (λ n. n ≤ most) }
    {
        let found = self.all_brackets()?;
        if found > most {
            return Err(Refusal::TooHigh);
        }
        Ok(found)
    }

    /// Takes `int`, `boolean` or the name of a class.
    #[tactic(auto, unfolding(crate::specs::ReadType::base_type))]
    pub fn base_type(&mut self) -> Result<BaseType, Refusal>
        ensures { Reads (spec.base_type self.old) result self.new }
    {
        let at = self.at();
        let base = match self.peek() {
            Some(TokenKind::Word(Keyword::Int)) => BaseType::Int,
            Some(TokenKind::Word(Keyword::Boolean)) => BaseType::Boolean,
            Some(TokenKind::Ident(name)) => {
                let name = name.clone()?;
                BaseType::Class(Ident { at, name })
            }
            _ => return Err(Refusal::NoTree),
        };
        self.skip();
        Ok(base)
    }

    /// Takes a type of at most this height (JLS 4.2, 4.3).
    #[tactic(auto, unfolding(crate::specs::ReadType::type_tree))]
    pub fn type_tree(&mut self, most: u32) -> Result<TypeTree, Refusal>
        ensures reads { Reads (spec.type_tree most self.old) result self.new }
        ensures low { IfOk result (λ t. type_height t ≤ most) }
    {
        let base = self.base_type()?;
        let dimensions = self.brackets(most)?;
        Ok(TypeTree { base, dimensions })
    }
}

/// Whether a cast may be to this type: to all but `int` and `boolean` alone.
pub fn castable(ty: &TypeTree) -> bool
    ensures { result ≡ castable ty.now }
{
    match ty.base {
        BaseType::Class(_) => true,
        BaseType::Int | BaseType::Boolean => ty.dimensions != 0,
    }
}
