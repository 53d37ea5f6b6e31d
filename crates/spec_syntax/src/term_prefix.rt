//! What begins a term.
//!
//! ```text
//! Term  = ( "all" | "some" | "no" | "sum" ) Ident ":" TAdd "|" Term | TIff
//! TCmp  = ( "some" | "no" | "one" | "lone" ) TAdd | ..
//! TUn   = ( "-" | "#" | "!" ) TUn | TPost
//! TPrim = Number | "true" | "false" | "null" | "this" | "result" | Ident
//!       | Ident "(" [ Term { "," Term } ] ")" | "old" "(" Term ")" | "(" Term ")"
//! ```

ghost use Rattle.std.specs.Prelude.{◌≡◌, ◌≤◌, ◌<◌, ◌+◌, IfOk, List, [], length};
ghost use Rattle.spec_reading.specs.ReadTerm as spec;
ghost use Rattle.spec_syntax.specs.Nests.{NestsTerms};
ghost use Rattle.token_reading.specs.Lexeme.{Lexeme};
ghost use Rattle.token_reading.specs.Reads.{Reads};

use crate::infix::term_follows;
use crate::levels::{operand_level, prefix_end, prefix_level};
use crate::name::name;
use crate::nodes;
use crate::term_grammar::{TallTerm, TallTerms, TermGrammar};
use java_tokens::{Keyword, Operator, TokenKind};
use spec_trees::{ContractWord, NumberTree, PrefixOp, Quantifier, TermTree, word_of};
use sqlite_items::Items;
use std::alloc::Global;
use token_reading::{Ident, Refusal, Tokens};

/// Whether a name and a `:` come next, as after a quantifier.
fn sees_variable(tokens: &Tokens<'_>) -> bool
    ensures { result ≡ spec.sees_variable tokens.now }
{
    let mut behind = tokens.fork();
    behind.skip();
    tokens.sees_name() && behind.sees(Operator::Colon)
}

/// What a keyword is: a literal or `this`.
fn keyword_leaf(at: u32, word: Keyword) -> Result<TallTerm, Refusal>
    ensures reads { (xs : List Lexeme) → Reads (spec.keyword_prefix at word xs) result xs }
    ensures low { IfOk result (λ t. t.1 ≤ 1) }
{
    match word {
        Keyword::True => Ok((TermTree::Bool(at, true), 1)),
        Keyword::False => Ok((TermTree::Bool(at, false), 1)),
        Keyword::Null => Ok((TermTree::Null(at), 1)),
        Keyword::This => Ok((TermTree::This(at), 1)),
        _ => Err(Refusal::NoTree),
    }
}

impl<F: Fn(Global, &mut Tokens<'_>, u32, u8) -> Result<TallTerm, Refusal>> TermGrammar<F> {
    /// Further arguments and the closing parenthesis.
    #[tactic(auto, unfolding(spec_reading::specs::ReadTerm::more_terms))]
    fn more_terms(&self, tokens: &mut Tokens<'_>) -> Result<TallTerms, Refusal>
        requires part { NestsTerms self.now.parts (F.pre self.now.read) (F.post self.now.read) }
        requires low { self.now.parts < 200 }
        ensures reads { Reads (spec.more_terms (spec.read_term self.now.parts) (length tokens.old) [] 0 tokens.old) result tokens.new }
        ensures low { IfOk result (λ t. t.1 ≤ self.now.parts) }
    {
        let mut found = Items::new(self.alloc);
        let mut height = 0;
        for _turn in 0..tokens.left() {
            let (arg, arg_height) = self.part(tokens, 1)?;
            found.push(arg)?;
            height = height.max(arg_height);
            if !tokens.eat(Operator::Comma) {
                tokens.expect(Operator::RightParen)?;
                return Ok((found, height));
            }
        }
        Err(Refusal::NoTree)
    }

    /// The arguments after the opening parenthesis, and the greatest of their heights.
    #[tactic(auto, unfolding(spec_reading::specs::ReadTerm::terms))]
    fn terms(&self, tokens: &mut Tokens<'_>) -> Result<TallTerms, Refusal>
        requires part { NestsTerms self.now.parts (F.pre self.now.read) (F.post self.now.read) }
        requires low { self.now.parts < 200 }
        ensures reads { Reads (spec.terms (spec.read_term self.now.parts) tokens.old) result tokens.new }
        ensures low { IfOk result (λ t. t.1 ≤ self.now.parts) }
    {
        if tokens.eat(Operator::RightParen) {
            return Ok((Items::new(self.alloc), 0));
        }
        self.more_terms(tokens)
    }

    /// What stands after a name: the arguments of a call, or nothing.
    #[tactic(auto, unfolding(spec_reading::specs::ReadTerm::called))]
    fn called(&self, tokens: &mut Tokens<'_>, name: Ident) -> Result<TallTerm, Refusal>
        requires part { NestsTerms self.now.parts (F.pre self.now.read) (F.post self.now.read) }
        requires low { self.now.parts < 200 }
        ensures reads { Reads (spec.called (spec.read_term self.now.parts) name tokens.old) result tokens.new }
        ensures low { IfOk result (λ t. t.1 ≤ self.now.parts + 1) }
    {
        if tokens.eat(Operator::LeftParen) {
            let (given, height) = self.terms(tokens)?;
            Ok((TermTree::Call(name, given), height + 1))
        } else {
            Ok((TermTree::Name(name), 1))
        }
    }

    /// A term and the closing parenthesis.
    #[tactic(auto, unfolding(spec_reading::specs::ReadTerm::closed))]
    fn closed(&self, tokens: &mut Tokens<'_>) -> Result<TallTerm, Refusal>
        requires part { NestsTerms self.now.parts (F.pre self.now.read) (F.post self.now.read) }
        requires low { self.now.parts < 200 }
        ensures reads { Reads (spec.closed (spec.read_term self.now.parts) tokens.old) result tokens.new }
        ensures low { IfOk result (λ t. t.1 ≤ self.now.parts) }
    {
        let inner = self.part(tokens, 1)?;
        tokens.expect(Operator::RightParen)?;
        Ok(inner)
    }

    /// What stands after `old`.
    #[tactic(auto, unfolding(spec_reading::specs::ReadTerm::old))]
    fn old(&self, tokens: &mut Tokens<'_>, at: u32) -> Result<TallTerm, Refusal>
        requires part { NestsTerms self.now.parts (F.pre self.now.read) (F.post self.now.read) }
        requires low { self.now.parts < 200 }
        ensures reads { Reads (spec.old (spec.read_term self.now.parts) at tokens.old) result tokens.new }
        ensures low { IfOk result (λ t. t.1 ≤ self.now.parts + 1) }
    {
        tokens.expect(Operator::LeftParen)?;
        let (inner, height) = self.closed(tokens)?;
        Ok((nodes::old(self.alloc, at, inner)?, height + 1))
    }

    /// What stands after a `(`.
    #[tactic(auto, unfolding(spec_reading::specs::ReadTerm::term_parens))]
    fn parens(&self, tokens: &mut Tokens<'_>, at: u32) -> Result<TallTerm, Refusal>
        requires part { NestsTerms self.now.parts (F.pre self.now.read) (F.post self.now.read) }
        requires low { self.now.parts < 200 }
        ensures reads { Reads (spec.term_parens (spec.read_term self.now.parts) at tokens.old) result tokens.new }
        ensures low { IfOk result (λ t. t.1 ≤ self.now.parts + 1) }
    {
        let (inner, height) = self.closed(tokens)?;
        Ok((nodes::paren(self.alloc, at, inner)?, height + 1))
    }

    /// What stands after an operator before its operand.
    #[tactic(auto, unfolding(spec_reading::specs::ReadTerm::term_operand))]
    fn operand(
        &self,
        tokens: &mut Tokens<'_>,
        least: u8,
        at: u32,
        op: PrefixOp,
    ) -> Result<TallTerm, Refusal>
        requires part { NestsTerms self.now.parts (F.pre self.now.read) (F.post self.now.read) }
        requires low { self.now.parts < 200 }
        ensures reads { Reads (spec.term_operand (spec.read_term self.now.parts) least at op tokens.old) result tokens.new }
        ensures low { IfOk result (λ t. t.1 ≤ self.now.parts + 1) }
    {
        if prefix_level(op) < least {
            return Err(Refusal::NoTree);
        }
        let (operand, height) = self.part(tokens, operand_level(op))?;
        if term_follows(tokens) > prefix_end(op) {
            return Err(Refusal::NoTree);
        }
        Ok((nodes::prefix(self.alloc, at, op, operand)?, height + 1))
    }

    /// The set of a quantifier, between its `:` and its `|`.
    #[tactic(auto, unfolding(spec_reading::specs::ReadTerm::range))]
    fn range(&self, tokens: &mut Tokens<'_>) -> Result<TallTerm, Refusal>
        requires part { NestsTerms self.now.parts (F.pre self.now.read) (F.post self.now.read) }
        requires low { self.now.parts < 200 }
        ensures reads { Reads (spec.range (spec.read_term self.now.parts) tokens.old) result tokens.new }
        ensures low { IfOk result (λ t. t.1 ≤ self.now.parts) }
    {
        tokens.expect(Operator::Colon)?;
        let set = self.part(tokens, 7)?;
        tokens.expect(Operator::Or)?;
        Ok(set)
    }

    /// What stands after the word of a quantifier.
    #[tactic(auto, unfolding(spec_reading::specs::ReadTerm::quantified))]
    fn quantified(
        &self,
        tokens: &mut Tokens<'_>,
        least: u8,
        at: u32,
        quantifier: Quantifier,
    ) -> Result<TallTerm, Refusal>
        requires part { NestsTerms self.now.parts (F.pre self.now.read) (F.post self.now.read) }
        requires low { self.now.parts < 200 }
        ensures reads { Reads (spec.quantified (spec.read_term self.now.parts) least at quantifier tokens.old) result tokens.new }
        ensures low { IfOk result (λ t. t.1 ≤ self.now.parts + 1) }
    {
        if least > 1 {
            return Err(Refusal::NoTree);
        }
        let variable = name(tokens)?;
        let (set, height) = self.range(tokens)?;
        let (body, body_height) = self.part(tokens, 1)?;
        let tree = nodes::quantified(self.alloc, at, quantifier, variable, set, body)?;
        Ok((tree, height.max(body_height) + 1))
    }

    /// What `some` or `no` begins: a quantifier where a variable stands after it, else an operator.
    fn some_or_no(
        &self,
        tokens: &mut Tokens<'_>,
        least: u8,
        at: u32,
        quantifier: Quantifier,
        op: PrefixOp,
    ) -> Result<TallTerm, Refusal>
        requires part { NestsTerms self.now.parts (F.pre self.now.read) (F.post self.now.read) }
        requires low { self.now.parts < 200 }
        ensures reads { Reads (spec.some_or_no (spec.read_term self.now.parts) least at quantifier op tokens.old) result tokens.new }
        ensures low { IfOk result (λ t. t.1 ≤ self.now.parts + 1) }
    {
        if sees_variable(tokens) {
            self.quantified(tokens, least, at, quantifier)
        } else {
            self.operand(tokens, least, at, op)
        }
    }

    /// What a word of contracts begins.
    fn word_prefix(
        &self,
        tokens: &mut Tokens<'_>,
        least: u8,
        at: u32,
        word: ContractWord,
    ) -> Result<TallTerm, Refusal>
        requires part { NestsTerms self.now.parts (F.pre self.now.read) (F.post self.now.read) }
        requires low { self.now.parts < 200 }
        ensures reads { Reads (spec.word_prefix (spec.read_term self.now.parts) least at word tokens.old) result tokens.new }
        ensures low { IfOk result (λ t. t.1 ≤ self.now.parts + 1) }
    {
        match word {
            ContractWord::All => self.quantified(tokens, least, at, Quantifier::All),
            ContractWord::Sum => self.quantified(tokens, least, at, Quantifier::Sum),
            ContractWord::Exists => {
                self.some_or_no(tokens, least, at, Quantifier::Exists, PrefixOp::Exists)
            }
            ContractWord::No => self.some_or_no(tokens, least, at, Quantifier::No, PrefixOp::No),
            ContractWord::One => self.operand(tokens, least, at, PrefixOp::One),
            ContractWord::Lone => self.operand(tokens, least, at, PrefixOp::Lone),
            ContractWord::Old => self.old(tokens, at),
            ContractWord::Answer => Ok((TermTree::Answer(at), 1)),
            _ => Err(Refusal::NoTree),
        }
    }

    /// What an operator or separator begins.
    fn operator_prefix(
        &self,
        tokens: &mut Tokens<'_>,
        least: u8,
        at: u32,
        sign: Operator,
    ) -> Result<TallTerm, Refusal>
        requires part { NestsTerms self.now.parts (F.pre self.now.read) (F.post self.now.read) }
        requires low { self.now.parts < 200 }
        ensures reads { Reads (spec.operator_prefix (spec.read_term self.now.parts) least at sign tokens.old) result tokens.new }
        ensures low { IfOk result (λ t. t.1 ≤ self.now.parts + 1) }
    {
        match sign {
            Operator::LeftParen => self.parens(tokens, at),
            Operator::Minus => self.operand(tokens, least, at, PrefixOp::Negate),
            Operator::Hash => self.operand(tokens, least, at, PrefixOp::Count),
            Operator::Not => self.operand(tokens, least, at, PrefixOp::Not),
            _ => Err(Refusal::NoTree),
        }
    }

    /// A term that begins with a token of its own.
    #[tactic(auto, unfolding(spec_reading::specs::ReadTerm::term_prefix))]
    pub fn prefix(&self, tokens: &mut Tokens<'_>, least: u8) -> Result<TallTerm, Refusal>
        requires part { NestsTerms self.now.parts (F.pre self.now.read) (F.post self.now.read) }
        requires low { self.now.parts < 200 }
        ensures reads { Reads (spec.term_prefix (spec.read_term self.now.parts) least tokens.old) result tokens.new }
        ensures low { IfOk result (λ t. t.1 ≤ self.now.parts + 1) }
    {
        let at = tokens.at();
        let Some(kind) = tokens.peek() else {
            return Err(Refusal::NoTree);
        };
        tokens.skip();
        match kind {
            TokenKind::Number(value) => {
                let value = *value;
                Ok((TermTree::Number(NumberTree { at, value }), 1))
            }
            TokenKind::Ident(name) => match word_of(name) {
                Some(word) => self.word_prefix(tokens, least, at, word),
                None => {
                    let name = name.clone()?;
                    self.called(tokens, Ident { at, name })
                }
            },
            TokenKind::Word(word) => keyword_leaf(at, *word),
            TokenKind::Op(sign) => self.operator_prefix(tokens, least, at, *sign),
            TokenKind::Text(_) | TokenKind::End => Err(Refusal::NoTree),
        }
    }
}
