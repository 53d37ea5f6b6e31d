//! What the reader looks ahead for.
//!
//! A cast begins with `(`, a type, `)` and a token that can begin its operand. A declaration begins with `int` or
//! `boolean`, two names, or a name and a pair of brackets.

ghost use Rattle.std.specs.Prelude.{◌≡◌};
ghost use Rattle.java_syntax.specs.Exprs as spec;
ghost use Rattle.java_reading.specs.Lookahead.{declares, is_local};

use java_tokens::{Keyword, Operator, TokenKind};
use token_reading::Tokens;

fn begins_plain_operator(sign: Operator) -> bool
    ensures { result ≡ spec.begins_plain_operator sign }
{
    matches!(sign, Operator::LeftParen | Operator::Not | Operator::Tilde)
}

fn begins_plain_keyword(word: Keyword) -> bool
    ensures { result ≡ spec.begins_plain_keyword word }
{
    matches!(
        word,
        Keyword::True
            | Keyword::False
            | Keyword::Null
            | Keyword::This
            | Keyword::Super
            | Keyword::New
    )
}

/// Whether a cast's operand can begin with this token.
fn begins_plain(kind: &TokenKind) -> bool
    ensures { result ≡ spec.begins_plain kind.now }
{
    match kind {
        TokenKind::Ident(_) | TokenKind::Number(_) | TokenKind::Text(_) => true,
        TokenKind::Word(word) => begins_plain_keyword(*word),
        TokenKind::Op(sign) => begins_plain_operator(*sign),
        TokenKind::End => false,
    }
}

fn begins_type_keyword(word: Keyword) -> bool
    ensures { result ≡ spec.begins_type_keyword word }
{
    matches!(word, Keyword::Int | Keyword::Boolean)
}

/// Whether a type begins with this token.
fn begins_type(kind: &TokenKind) -> bool
    ensures { result ≡ spec.begins_type kind.now }
{
    match kind {
        TokenKind::Ident(_) => true,
        TokenKind::Word(word) => begins_type_keyword(*word),
        TokenKind::Number(_) | TokenKind::Text(_) | TokenKind::Op(_) | TokenKind::End => false,
    }
}

/// Whether a `)` and a token with which a cast's operand can begin come next.
fn closes_cast(tokens: &Tokens<'_>) -> bool
    ensures { result ≡ spec.closes_cast tokens.now }
{
    let mut ahead = tokens.fork();
    if !ahead.eat(Operator::RightParen) {
        return false;
    }
    match ahead.peek() {
        Some(kind) => begins_plain(kind),
        None => false,
    }
}

/// Whether what stands after a `(` makes it the beginning of a cast (JLS 15.16).
pub fn casts(tokens: &Tokens<'_>) -> bool
    ensures { result ≡ spec.casts tokens.now }
{
    let Some(kind) = tokens.peek() else {
        return false;
    };
    let mut ahead = tokens.fork();
    ahead.skip();
    ahead.skip_brackets();
    begins_type(kind) && closes_cast(&ahead)
}

/// Whether a name before it would be the type of a declaration: another name or a pair of brackets comes next.
fn declares(tokens: &Tokens<'_>) -> bool
    ensures { result ≡ declares tokens.now }
{
    let mut ahead = tokens.fork();
    ahead.skip();
    match tokens.peek() {
        Some(TokenKind::Ident(_)) => true,
        Some(TokenKind::Op(Operator::LeftBracket)) => ahead.sees(Operator::RightBracket),
        _ => false,
    }
}

/// Whether a declaration comes next, and no expression.
pub fn is_local(tokens: &Tokens<'_>) -> bool
    ensures { result ≡ is_local tokens.now }
{
    let mut ahead = tokens.fork();
    ahead.skip();
    match tokens.peek() {
        Some(TokenKind::Ident(_)) => declares(&ahead),
        Some(TokenKind::Word(word)) => begins_type_keyword(*word),
        _ => false,
    }
}
