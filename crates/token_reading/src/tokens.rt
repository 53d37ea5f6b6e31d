//! A place in a list of tokens.

ghost use Rattle.std.specs.Prelude.{◌≡◌, ℕ, ◌+◌, ◌^◌, ◌<◌, ◌≤◌, [], ◌∷◌, length, if◌then◌else◌};
ghost use Rattle.std.specs.Option.{option_copied};
ghost use Rattle.token_reading.specs.Lexeme.{numbered, place, same_operator, same_keyword, sees, sees_word};
ghost use Rattle.token_reading.specs.ReadType as spec;
ghost use Rattle.token_reading.specs.Reads.{Reads, head, refusal_at};

use crate::refusal::Refusal;
use java_tokens::{Keyword, Operator, Token, TokenKind};
use std::marker::Model;

/// The tokens from a place on. Contracts see them with their numbers.
#[derive(Drop)]
pub struct Tokens<'a> {
    rest: &'a [Token],
    /// The number of the first of them.
    at: u32,
}

impl<'a> Model for Tokens<'a> {
    ghost use Rattle.std.specs.Prelude.{List, ◌+◌, ◌<◌, ◌^◌, length};
    ghost use Rattle.token_reading.specs.Lexeme.{Lexeme, numbered};

    ghost Value = { List Lexeme };

    ghost view = { λ t. numbered t.at t.rest.now };

    ghost invariant = { λ t. t.at + length t.rest.now < 2 ^ 32 };
}

#[tactic(auto, unfolding(crate::specs::Lexeme::same_operator))]
fn same_operator(a: Operator, b: Operator) -> bool
    ensures { result ≡ same_operator a b }
{
    a == b
}

#[tactic(auto, unfolding(crate::specs::Lexeme::same_keyword))]
fn same_keyword(a: Keyword, b: Keyword) -> bool
    ensures { result ≡ same_keyword a b }
{
    a == b
}

impl<'a> Tokens<'a> {
    /// All of these tokens, numbered from 0.
    pub fn new(rest: &'a [Token]) -> Tokens<'a>
        requires { length rest.now < 2 ^ 32 }
        ensures { result ≡ numbered 0 rest.now }
    {
        Tokens { rest, at: 0 }
    }

    /// The same place again, to look ahead from.
    pub fn fork(&self) -> Tokens<'a>
        ensures { result ≡ self.now }
    {
        Tokens {
            rest: self.rest,
            at: self.at,
        }
    }

    /// What the next token is.
    pub fn peek(&self) -> Option<&'a TokenKind>
        ensures { option_copied result ≡ head self.now }
    {
        match self.rest {
            [] => None,
            [first, ..] => Some(&first.kind),
        }
    }

    /// The number of the next token, and 0 at the end.
    pub fn at(&self) -> u32
        ensures { result ≡ place self.now }
    {
        match self.rest {
            [] => 0,
            [_, ..] => self.at,
        }
    }

    /// How many tokens there are from here on.
    #[tactic(auto, using(crate::proofs::Cursor::length_numbered))]
    pub fn left(&self) -> usize
        ensures all { result ≡ length self.now }
        ensures few { result < 2 ^ 32 }
    {
        let _ = &self.at;
        self.rest.len()
    }

    /// Goes after the next token.
    pub fn skip(&mut self)
        ensures { self.new ≡ spec.next self.old }
    {
        if let [_, rest @ ..] = self.rest {
            self.rest = rest;
            self.at += 1;
        }
    }

    /// Whether this operator or separator comes next.
    pub fn sees(&self, sign: Operator) -> bool
        ensures { result ≡ sees sign self.now }
    {
        match self.peek() {
            Some(TokenKind::Op(seen)) => same_operator(*seen, sign),
            _ => false,
        }
    }

    /// Whether this keyword comes next.
    pub fn sees_word(&self, word: Keyword) -> bool
        ensures { result ≡ sees_word word self.now }
    {
        match self.peek() {
            Some(TokenKind::Word(seen)) => same_keyword(*seen, word),
            _ => false,
        }
    }

    /// Goes after this operator or separator, where it comes next, and says whether it did.
    pub fn eat(&mut self, sign: Operator) -> bool
        ensures found { result ≡ sees sign self.old }
        ensures after { self.new ≡ (if sees sign self.old then spec.next self.old else self.old) }
    {
        let found = self.sees(sign);
        if found {
            self.skip();
        }
        found
    }

    /// Goes after this keyword, where it comes next, and says whether it did.
    pub fn eat_word(&mut self, word: Keyword) -> bool
        ensures found { result ≡ sees_word word self.old }
        ensures after { self.new ≡ (if sees_word word self.old then spec.next self.old else self.old) }
    {
        let found = self.sees_word(word);
        if found {
            self.skip();
        }
        found
    }

    /// Why nothing of height 0 is read here.
    pub fn too_high(&self) -> Refusal
        ensures { result ≡ refusal_at self.now }
    {
        match self.peek() {
            None => Refusal::NoTree,
            Some(_) => Refusal::TooHigh,
        }
    }

    /// Takes this operator or separator.
    #[tactic(auto, unfolding(crate::specs::ReadType::expect))]
    pub fn expect(&mut self, sign: Operator) -> Result<(), Refusal>
        ensures { Reads (spec.expect sign self.old) result self.new }
    {
        if self.eat(sign) {
            Ok(())
        } else {
            Err(Refusal::NoTree)
        }
    }

    /// Takes this keyword.
    #[tactic(auto, unfolding(crate::specs::ReadType::expect_word))]
    pub fn expect_word(&mut self, word: Keyword) -> Result<(), Refusal>
        ensures { Reads (spec.expect_word word self.old) result self.new }
    {
        if self.eat_word(word) {
            Ok(())
        } else {
            Err(Refusal::NoTree)
        }
    }
}
