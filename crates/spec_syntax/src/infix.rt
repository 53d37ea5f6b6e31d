//! What a token does after a term or a relation, and how tightly it binds.

ghost use Rattle.std.specs.Prelude.{◌≡◌, ◌≤◌};
ghost use Rattle.spec_reading.specs.ReadLink as links;
ghost use Rattle.spec_reading.specs.ReadTerm as terms;

use crate::levels::{link_op_level, op_level};
use java_tokens::{Operator, TokenKind};
use spec_reading::TermInfix;
use spec_trees::{ContractWord, LinkOp, TermOp, word_of};
use token_reading::Tokens;

fn term_operator(sign: Operator) -> TermInfix
    ensures { result ≡ terms.term_operator sign }
{
    match sign {
        Operator::Iff => TermInfix::Binary(TermOp::Iff),
        Operator::Implies => TermInfix::Binary(TermOp::Implies),
        Operator::OrOr => TermInfix::Binary(TermOp::Or),
        Operator::AndAnd => TermInfix::Binary(TermOp::And),
        Operator::Equal => TermInfix::Binary(TermOp::Equal),
        Operator::NotEqual => TermInfix::Binary(TermOp::NotEqual),
        Operator::Less => TermInfix::Binary(TermOp::Less),
        Operator::LessEqual => TermInfix::Binary(TermOp::LessEqual),
        Operator::Greater => TermInfix::Binary(TermOp::Greater),
        Operator::GreaterEqual => TermInfix::Binary(TermOp::GreaterEqual),
        Operator::Plus => TermInfix::Binary(TermOp::Plus),
        Operator::Minus => TermInfix::Binary(TermOp::Minus),
        Operator::And => TermInfix::Binary(TermOp::Meet),
        Operator::Star => TermInfix::Binary(TermOp::Times),
        Operator::Dot => TermInfix::Dot,
        Operator::LeftParen => TermInfix::Paren,
        Operator::Colon => TermInfix::Colon,
        _ => TermInfix::Other,
    }
}

fn word_infix(word: Option<ContractWord>) -> TermInfix
    ensures { result ≡ terms.word_infix word }
{
    match word {
        Some(ContractWord::In) => TermInfix::Binary(TermOp::In),
        _ => TermInfix::Other,
    }
}

/// What the next token does after a term.
pub fn infix_at(tokens: &Tokens<'_>) -> TermInfix
    ensures { result ≡ terms.infix_at tokens.now }
{
    match tokens.peek() {
        Some(TokenKind::Op(sign)) => term_operator(*sign),
        Some(TokenKind::Ident(name)) => word_infix(word_of(name)),
        _ => TermInfix::Other,
    }
}

/// The level of what the token makes with the term before it, and 0 where it makes nothing.
pub fn term_binds(token: TermInfix) -> u8
    ensures value { result ≡ terms.term_binds token }
    ensures small { result ≤ 13 }
{
    match token {
        TermInfix::Binary(op) => op_level(op),
        TermInfix::Dot => 11,
        TermInfix::Colon => 12,
        TermInfix::Paren => 13,
        TermInfix::Other => 0,
    }
}

/// How tightly the next token binds to a term before it.
pub fn term_follows(tokens: &Tokens<'_>) -> u8
    ensures value { result ≡ terms.term_follows tokens.now }
{
    term_binds(infix_at(tokens))
}

fn link_operator(sign: Operator) -> Option<LinkOp>
    ensures { result ≡ links.link_operator sign }
{
    match sign {
        Operator::Plus => Some(LinkOp::Union),
        Operator::Minus => Some(LinkOp::Minus),
        Operator::And => Some(LinkOp::Meet),
        Operator::Dot => Some(LinkOp::Join),
        _ => None,
    }
}

/// The operator after a relation that comes next.
pub fn link_op_at(tokens: &Tokens<'_>) -> Option<LinkOp>
    ensures { result ≡ links.link_op_at tokens.now }
{
    match tokens.peek() {
        Some(TokenKind::Op(sign)) => link_operator(*sign),
        _ => None,
    }
}

/// The level of what it makes with the relation before it, and 0 where there is none.
pub fn link_binds(op: Option<LinkOp>) -> u8
    ensures value { result ≡ links.link_binds op }
    ensures small { result ≤ 3 }
{
    match op {
        Some(op) => link_op_level(op),
        None => 0,
    }
}
