//! What stands before the body of a member beside its parameters: modifiers and exceptions (JLS 8.3, 8.4, 8.8).
//!
//! ```text
//! Mods   = { "public" | "protected" | "private" | "static" | "final" }
//! Throws = "throws" Ident { "," Ident }
//! ```

ghost use Rattle.std.specs.Prelude.{◌≡◌, [], length};
ghost use Rattle.java_reading.specs.ReadClass as spec;
ghost use Rattle.token_reading.specs.Reads.{Reads};

use java_syntax::Modifier;
use java_tokens::{Keyword, Operator, TokenKind};
use sqlite_items::Items;
use std::alloc::Global;
use token_reading::{Ident, ParamTree, Refusal, Tokens};

fn modifier_keyword(word: Keyword) -> Option<Modifier>
    ensures { result ≡ spec.modifier_keyword word }
{
    match word {
        Keyword::Public => Some(Modifier::Public),
        Keyword::Protected => Some(Modifier::Protected),
        Keyword::Private => Some(Modifier::Private),
        Keyword::Static => Some(Modifier::Static),
        Keyword::Final => Some(Modifier::Final),
        _ => None,
    }
}

/// The modifier that comes next.
fn modifier_at(tokens: &Tokens<'_>) -> Option<Modifier>
    ensures { result ≡ spec.modifier_at tokens.now }
{
    match tokens.peek() {
        Some(TokenKind::Word(word)) => modifier_keyword(*word),
        _ => None,
    }
}

/// All modifiers that come next.
#[tactic(auto, unfolding(java_reading::specs::ReadClass::modifiers))]
pub fn modifiers(alloc: Global, tokens: &mut Tokens<'_>) -> Result<Items<Modifier>, Refusal>
    ensures { Reads (spec.modifiers (length tokens.old) [] tokens.old) result tokens.new }
{
    let mut found = Items::new(alloc);
    for _turn in 0..tokens.left() {
        let Some(next) = modifier_at(tokens) else {
            return Ok(found);
        };
        tokens.skip();
        found.push(next)?;
    }
    match modifier_at(tokens) {
        None => Ok(found),
        Some(_) => Err(Refusal::NoTree),
    }
}

/// Names with commas between them, at most that many.
#[tactic(auto, unfolding(java_reading::specs::ReadClass::names))]
fn names(alloc: Global, tokens: &mut Tokens<'_>, most: usize) -> Result<Items<Ident>, Refusal>
    ensures { Reads (spec.names most [] tokens.old) result tokens.new }
{
    let mut found = Items::new(alloc);
    for _turn in 0..most {
        let next = tokens.ident()?;
        found.push(next)?;
        if !tokens.eat(Operator::Comma) {
            return Ok(found);
        }
    }
    Err(Refusal::NoTree)
}

/// The exceptions that are declared, or nothing (JLS 8.4.6).
#[tactic(auto, unfolding(java_reading::specs::ReadClass::throws))]
pub fn throws(alloc: Global, tokens: &mut Tokens<'_>) -> Result<Items<Ident>, Refusal>
    ensures { Reads (spec.throws tokens.old) result tokens.new }
{
    let most = tokens.left();
    if !tokens.eat_word(Keyword::Throws) {
        return Ok(Items::new(alloc));
    }
    names(alloc, tokens, most)
}
