//! Classes and files (JLS 7.3, 8.1).
//!
//! ```text
//! File  = { Class } End
//! Class = [ "public" ] "class" Ident [ "extends" Ident ] "{" { Member } "}"
//! ```

ghost use Rattle.std.specs.Prelude.{◌≡◌, ◌≤◌, [], length};
ghost use Rattle.java_reading.specs.ReadClass as spec;
ghost use Rattle.token_reading.specs.Reads.{Reads};

use crate::member::member;
use java_syntax::{ClassTree, Member};
use java_tokens::{Keyword, Operator, TokenKind};
use sqlite_items::Items;
use std::alloc::Global;
use token_reading::{Ident, Refusal, Tokens};

/// The superclass, or nothing (JLS 8.1.4).
#[tactic(auto, unfolding(java_reading::specs::ReadClass::extends))]
fn extends(tokens: &mut Tokens<'_>) -> Result<Option<Ident>, Refusal>
    ensures { Reads (spec.extends tokens.old) result tokens.new }
{
    if tokens.eat_word(Keyword::Extends) {
        Ok(Some(tokens.ident()?))
    } else {
        Ok(None)
    }
}

/// Members of at most this height and the closing brace.
#[tactic(auto, unfolding(java_reading::specs::ReadClass::members))]
fn members(alloc: Global, tokens: &mut Tokens<'_>, most: u32) -> Result<Items<Member>, Refusal>
    requires { most ≤ 200 }
    ensures { Reads (spec.members (spec.member most) (length tokens.old) [] tokens.old) result tokens.new }
{
    let mut found = Items::new(alloc);
    for _turn in 0..tokens.left() {
        if tokens.eat(Operator::RightBrace) {
            return Ok(found);
        }
        let next = member(alloc, tokens, most)?;
        found.push(next)?;
    }
    Err(Refusal::NoTree)
}

/// A class whose members have at most this height.
#[tactic(auto, unfolding(java_reading::specs::ReadClass::public, java_reading::specs::ReadClass::class_node))]
fn class_node(alloc: Global, tokens: &mut Tokens<'_>, most: u32) -> Result<ClassTree, Refusal>
    requires { most ≤ 200 }
    ensures { Reads (spec.class_node (spec.member most) tokens.old) result tokens.new }
{
    let is_public = tokens.eat_word(Keyword::Public);
    tokens.expect_word(Keyword::Class)?;
    let name = tokens.ident()?;
    let parent = extends(tokens)?;
    tokens.expect(Operator::LeftBrace)?;
    let members = members(alloc, tokens, most)?;
    Ok(ClassTree {
        is_public,
        name,
        parent,
        members,
    })
}

/// A class of at most this height.
#[tactic(auto, unfolding(java_reading::specs::ReadClass::class))]
fn class(alloc: Global, tokens: &mut Tokens<'_>, most: u32) -> Result<ClassTree, Refusal>
    requires { most ≤ 200 }
    ensures { Reads (spec.class most tokens.old) result tokens.new }
{
    if most == 0 {
        return Err(tokens.too_high());
    }
    class_node(alloc, tokens, most - 1)
}

/// Whether the end of the source comes next.
fn sees_end(tokens: &Tokens<'_>) -> bool
    ensures { result ≡ spec.sees_end tokens.now }
{
    matches!(tokens.peek(), Some(TokenKind::End))
}

/// Classes of at most this height, and the end.
#[tactic(auto, unfolding(java_reading::specs::ReadClass::classes))]
fn classes(alloc: Global, tokens: &mut Tokens<'_>, most: u32) -> Result<Items<ClassTree>, Refusal>
    requires { most ≤ 200 }
    ensures { Reads (spec.classes most (length tokens.old) [] tokens.old) result tokens.new }
{
    let mut found = Items::new(alloc);
    for _turn in 0..tokens.left() {
        if sees_end(tokens) {
            tokens.skip();
            return Ok(found);
        }
        let next = class(alloc, tokens, most)?;
        found.push(next)?;
    }
    Err(Refusal::NoTree)
}

/// The classes of a file of at most this height, after which nothing stands (JLS 7.3).
#[tactic(auto, unfolding(java_reading::specs::ReadClass::file))]
pub fn file(alloc: Global, tokens: &mut Tokens<'_>, most: u32) -> Result<Items<ClassTree>, Refusal>
    requires { most ≤ 200 }
    ensures { Reads (spec.file most tokens.old) result tokens.new }
{
    let classes = classes(alloc, tokens, most)?;
    match tokens.peek() {
        None => Ok(classes),
        Some(_) => Err(Refusal::NoTree),
    }
}
