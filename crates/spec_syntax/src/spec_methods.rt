//! Spec methods.
//!
//! ```text
//! Spec = "spec" Type Ident "(" [ Params ] ")" "=" Term ";"
//! ```

ghost use Rattle.std.specs.Prelude.{◌≡◌, ◌≤◌, codes};
ghost use Rattle.spec_reading.specs.Lookahead as lookahead;
ghost use Rattle.spec_reading.specs.ReadContract as spec;
ghost use Rattle.token_reading.specs.Reads.{Reads};

use crate::clause::term_from;
use java_tokens::{Keyword, Operator, TokenKind};
use spec_trees::{SpecTree, TermTree};
use std::alloc::Global;
use token_reading::{Ident, Refusal, Tokens, TypeTree};

/// Whether the identifier `spec` comes next.
fn sees_spec(tokens: &Tokens<'_>) -> bool
    ensures { result ≡ spec.sees_text (codes "spec") tokens.now }
{
    match tokens.peek() {
        Some(TokenKind::Ident(name)) => name.characters() == ['s', 'p', 'e', 'c'].as_slice(),
        _ => false,
    }
}

/// Whether the base of a type comes next.
fn sees_base(tokens: &Tokens<'_>) -> bool
    ensures { result ≡ lookahead.sees_base tokens.now }
{
    match tokens.peek() {
        Some(TokenKind::Ident(_)) => true,
        Some(TokenKind::Word(word)) => matches!(word, Keyword::Int | Keyword::Boolean),
        _ => false,
    }
}

/// Whether `spec`, a type and an identifier come next, with which each spec method begins.
pub fn sees_spec_method(tokens: &Tokens<'_>) -> bool
    ensures { result ≡ lookahead.is_spec tokens.now }
{
    let mut ty = tokens.fork();
    ty.skip();
    let mut name = ty.fork();
    name.skip();
    name.skip_brackets();
    sees_spec(tokens) && sees_base(&ty) && name.sees_name()
}

/// Takes the identifier `spec`.
#[tactic(auto, unfolding(spec_reading::specs::ReadContract::expect_text))]
fn expect_spec(tokens: &mut Tokens<'_>) -> Result<(), Refusal>
    ensures { Reads (spec.expect_text (codes "spec") tokens.old) result tokens.new }
{
    if sees_spec(tokens) {
        tokens.skip();
        Ok(())
    } else {
        Err(Refusal::NoTree)
    }
}

/// What stands after the parameters.
#[tactic(auto, unfolding(spec_reading::specs::ReadContract::definition))]
fn definition(alloc: Global, tokens: &mut Tokens<'_>, most: u32) -> Result<TermTree, Refusal>
    requires { most ≤ 200 }
    ensures { Reads (spec.definition most tokens.old) result tokens.new }
{
    tokens.expect(Operator::Assign)?;
    let term = term_from(alloc, tokens, most, 1)?;
    tokens.expect(Operator::Semicolon)?;
    Ok(term)
}

/// What stands after the name.
#[tactic(auto, unfolding(spec_reading::specs::ReadContract::defined))]
fn defined(
    alloc: Global,
    tokens: &mut Tokens<'_>,
    most: u32,
    at: u32,
    ty: TypeTree,
    name: Ident,
) -> Result<SpecTree, Refusal>
    requires { most ≤ 200 }
    ensures { Reads (spec.defined most at ty name tokens.old) result tokens.new }
{
    let params = tokens.params(alloc, most)?;
    let term = definition(alloc, tokens, most)?;
    Ok(SpecTree {
        at,
        ty,
        name,
        params,
        term,
    })
}

/// What stands after `spec`.
#[tactic(auto, unfolding(spec_reading::specs::ReadContract::declared))]
fn declared(alloc: Global, tokens: &mut Tokens<'_>, most: u32, at: u32) -> Result<SpecTree, Refusal>
    requires { most ≤ 200 }
    ensures { Reads (spec.declared most at tokens.old) result tokens.new }
{
    let ty = tokens.type_tree(most)?;
    let name = tokens.ident()?;
    defined(alloc, tokens, most, at, ty, name)
}

/// A spec method whose parts have at most this height.
#[tactic(auto, unfolding(spec_reading::specs::ReadContract::spec_node))]
fn spec_node(alloc: Global, tokens: &mut Tokens<'_>, most: u32) -> Result<SpecTree, Refusal>
    requires { most ≤ 200 }
    ensures { Reads (spec.spec_node most tokens.old) result tokens.new }
{
    let at = tokens.at();
    expect_spec(tokens)?;
    declared(alloc, tokens, most, at)
}

/// Takes the spec method of at most this height that stands here.
///
/// `NoTree` comes only where none of any height does, `TooHigh` only where each that does is higher, and `OutOfMemory`
/// for any tokens; after a refusal some of the tokens may have been taken.
#[tactic(auto, unfolding(spec_reading::specs::ReadContract::read_spec))]
pub fn spec_method(alloc: Global, tokens: &mut Tokens<'_>, most: u32) -> Result<SpecTree, Refusal>
    requires { most ≤ 200 }
    ensures { Reads (spec.read_spec most tokens.old) result tokens.new }
{
    if most == 0 {
        return Err(tokens.too_high());
    }
    spec_node(alloc, tokens, most - 1)
}
