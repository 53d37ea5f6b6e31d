//! What a token does after an operand, and how tightly it binds (JLS 15).

ghost use Rattle.std.specs.Prelude.{◌≡◌, ◌≤◌};
ghost use Rattle.java_syntax.specs.Exprs as grammar;
ghost use Rattle.java_reading.specs.ReadExpr as spec;

use java_reading::Infix;
use java_syntax::{BinaryOp, UnaryOp};
use java_tokens::{Keyword, Operator, TokenKind};
use token_reading::Tokens;

/// The level of precedence of what the operator makes, from 2 for `||` to 11 for products.
pub fn binary_level(op: BinaryOp) -> u8
    ensures value { result ≡ grammar.binary_level op }
    ensures small { result ≤ 11 }
{
    match op {
        BinaryOp::Or => 2,
        BinaryOp::And => 3,
        BinaryOp::BitOr => 4,
        BinaryOp::BitXor => 5,
        BinaryOp::BitAnd => 6,
        BinaryOp::Equal | BinaryOp::NotEqual => 7,
        BinaryOp::Less | BinaryOp::Greater | BinaryOp::LessEqual | BinaryOp::GreaterEqual => 8,
        BinaryOp::ShiftLeft | BinaryOp::ShiftRight | BinaryOp::UnsignedShiftRight => 9,
        BinaryOp::Add | BinaryOp::Subtract => 10,
        BinaryOp::Multiply | BinaryOp::Divide | BinaryOp::Remainder => 11,
    }
}

/// The level of precedence of what an operator before its operand makes.
pub fn unary_level(op: UnaryOp) -> u8
    ensures { result ≡ grammar.unary_level op }
{
    match op {
        UnaryOp::Plus | UnaryOp::Minus => 12,
        UnaryOp::Not | UnaryOp::Complement => 13,
    }
}

fn infix_operator(sign: Operator) -> Infix
    ensures { result ≡ spec.infix_operator sign }
{
    match sign {
        Operator::OrOr => Infix::Binary(BinaryOp::Or),
        Operator::AndAnd => Infix::Binary(BinaryOp::And),
        Operator::Or => Infix::Binary(BinaryOp::BitOr),
        Operator::Xor => Infix::Binary(BinaryOp::BitXor),
        Operator::And => Infix::Binary(BinaryOp::BitAnd),
        Operator::Equal => Infix::Binary(BinaryOp::Equal),
        Operator::NotEqual => Infix::Binary(BinaryOp::NotEqual),
        Operator::Less => Infix::Binary(BinaryOp::Less),
        Operator::Greater => Infix::Binary(BinaryOp::Greater),
        Operator::LessEqual => Infix::Binary(BinaryOp::LessEqual),
        Operator::GreaterEqual => Infix::Binary(BinaryOp::GreaterEqual),
        Operator::ShiftLeft => Infix::Binary(BinaryOp::ShiftLeft),
        Operator::ShiftRight => Infix::Binary(BinaryOp::ShiftRight),
        Operator::UnsignedShiftRight => Infix::Binary(BinaryOp::UnsignedShiftRight),
        Operator::Plus => Infix::Binary(BinaryOp::Add),
        Operator::Minus => Infix::Binary(BinaryOp::Subtract),
        Operator::Star => Infix::Binary(BinaryOp::Multiply),
        Operator::Slash => Infix::Binary(BinaryOp::Divide),
        Operator::Percent => Infix::Binary(BinaryOp::Remainder),
        Operator::Question => Infix::Question,
        Operator::Dot => Infix::Dot,
        Operator::LeftBracket => Infix::Bracket,
        Operator::LeftParen => Infix::Paren,
        _ => Infix::Other,
    }
}

/// The level of what the token makes with the operand before it, and 0 where it makes nothing.
pub fn binds(token: Infix) -> u8
    ensures value { result ≡ spec.binds token }
    ensures small { result ≤ 15 }
{
    match token {
        Infix::Binary(op) => binary_level(op),
        Infix::InstanceOf => 8,
        Infix::Question => 1,
        Infix::Dot | Infix::Bracket => 14,
        Infix::Paren => 15,
        Infix::Other => 0,
    }
}

/// What the next token does after an operand.
pub fn first_infix(tokens: &Tokens<'_>) -> Infix
    ensures { result ≡ spec.first_infix tokens.now }
{
    match tokens.peek() {
        Some(TokenKind::Op(sign)) => infix_operator(*sign),
        Some(TokenKind::Word(Keyword::Instanceof)) => Infix::InstanceOf,
        _ => Infix::Other,
    }
}
