//! Members of a class (JLS 8.1.6).
//!
//! ```text
//! Member = Field | Method | Maker | ";"
//! Field  = Mods Type Ident [ "=" Expr ] ";"
//! Method = Mods ( "void" | Type ) Ident "(" [ Params ] ")" [ Throws ] Block
//! Maker  = Mods Ident "(" [ Params ] ")" [ Throws ] Block
//! ```

ghost use Rattle.std.specs.Prelude.{◌≡◌, ◌≤◌, ◌<◌};
ghost use Rattle.java_reading.specs.ReadClass as spec;
ghost use Rattle.java_reading.specs.ReadStmt as spec_statement;
ghost use Rattle.token_reading.specs.Reads.{Reads};

use crate::header::{modifiers, throws};
use crate::simple::initial;
use crate::statements::body;
use java_syntax::{FieldTree, MakerTree, Member, MethodTree, Mods};
use java_tokens::{Keyword, Operator};
use std::alloc::Global;
use token_reading::{Ident, Refusal, Tokens, TypeTree};

/// What stands after the name of a constructor (JLS 8.8).
#[tactic(auto, unfolding(java_reading::specs::ReadClass::maker))]
fn maker(
    alloc: Global,
    tokens: &mut Tokens<'_>,
    most: u32,
    mods: Mods,
    name: Ident,
) -> Result<MakerTree, Refusal>
    requires { most < 200 }
    ensures { Reads (spec.maker most (spec_statement.value most) (spec_statement.body most) mods name tokens.old) result tokens.new }
{
    let params = tokens.params(alloc, most)?;
    let throws = throws(alloc, tokens)?;
    tokens.expect(Operator::LeftBrace)?;
    let body = body(alloc, tokens, most)?;
    Ok(MakerTree {
        mods,
        name,
        params,
        throws,
        body,
    })
}

/// The method with this result and the parts of the other tree.
fn with_answer(answer: Option<TypeTree>, tree: MakerTree) -> MethodTree
    ensures { result ≡ spec.method_of answer tree }
{
    let MakerTree {
        mods,
        name,
        params,
        throws,
        body,
    } = tree;
    MethodTree {
        mods,
        answer,
        name,
        params,
        throws,
        body,
    }
}

/// What stands after the name of a method (JLS 8.4).
#[tactic(auto, unfolding(java_reading::specs::ReadClass::method))]
fn method(
    alloc: Global,
    tokens: &mut Tokens<'_>,
    most: u32,
    mods: Mods,
    answer: Option<TypeTree>,
    name: Ident,
) -> Result<Member, Refusal>
    requires { most < 200 }
    ensures { Reads (spec.method most (spec_statement.value most) (spec_statement.body most) mods answer name tokens.old) result tokens.new }
{
    let tree = maker(alloc, tokens, most, mods, name)?;
    Ok(Member::Method(with_answer(answer, tree)))
}

/// What stands after the name of a field (JLS 8.3).
#[tactic(auto, unfolding(java_reading::specs::ReadClass::field))]
fn field(
    alloc: Global,
    tokens: &mut Tokens<'_>,
    most: u32,
    mods: Mods,
    ty: TypeTree,
    name: Ident,
) -> Result<Member, Refusal>
    requires { most < 200 }
    ensures { Reads (spec.field most (spec_statement.value most) (spec_statement.body most) mods ty name tokens.old) result tokens.new }
{
    let value = initial(alloc, tokens, most)?;
    tokens.expect(Operator::Semicolon)?;
    Ok(Member::Field(FieldTree {
        mods,
        ty,
        name,
        value,
    }))
}

/// What stands after modifiers and `void`.
#[tactic(auto, unfolding(java_reading::specs::ReadClass::void_method))]
fn void_method(
    alloc: Global,
    tokens: &mut Tokens<'_>,
    most: u32,
    mods: Mods,
) -> Result<Member, Refusal>
    requires { most < 200 }
    ensures { Reads (spec.void_method most (spec_statement.value most) (spec_statement.body most) mods tokens.old) result tokens.new }
{
    let name = tokens.ident()?;
    method(alloc, tokens, most, mods, None, name)
}

/// What stands after the modifiers of a constructor.
#[tactic(auto, unfolding(java_reading::specs::ReadClass::constructor))]
fn constructor(
    alloc: Global,
    tokens: &mut Tokens<'_>,
    most: u32,
    mods: Mods,
) -> Result<Member, Refusal>
    requires { most < 200 }
    ensures { Reads (spec.constructor most (spec_statement.value most) (spec_statement.body most) mods tokens.old) result tokens.new }
{
    let name = tokens.ident()?;
    Ok(Member::Maker(maker(alloc, tokens, most, mods, name)?))
}

/// What stands after the modifiers of a field, or of a method with a result.
#[tactic(auto, unfolding(java_reading::specs::ReadClass::typed))]
fn typed(alloc: Global, tokens: &mut Tokens<'_>, most: u32, mods: Mods) -> Result<Member, Refusal>
    requires { most < 200 }
    ensures { Reads (spec.typed most (spec_statement.value most) (spec_statement.body most) mods tokens.old) result tokens.new }
{
    let ty = tokens.type_tree(most)?;
    let name = tokens.ident()?;
    if tokens.sees(Operator::LeftParen) {
        method(alloc, tokens, most, mods, Some(ty), name)
    } else {
        field(alloc, tokens, most, mods, ty, name)
    }
}

/// Whether a name and a `(` come next, as in a constructor.
fn is_maker(tokens: &Tokens<'_>) -> bool
    ensures { result ≡ spec.is_maker tokens.now }
{
    let mut behind = tokens.fork();
    behind.skip();
    tokens.sees_name() && behind.sees(Operator::LeftParen)
}

/// What stands after modifiers.
#[tactic(auto, unfolding(java_reading::specs::ReadClass::declared))]
fn declared(
    alloc: Global,
    tokens: &mut Tokens<'_>,
    most: u32,
    mods: Mods,
) -> Result<Member, Refusal>
    requires { most < 200 }
    ensures { Reads (spec.declared most (spec_statement.value most) (spec_statement.body most) mods tokens.old) result tokens.new }
{
    if tokens.eat_word(Keyword::Void) {
        return void_method(alloc, tokens, most, mods);
    }
    if is_maker(tokens) {
        constructor(alloc, tokens, most, mods)
    } else {
        typed(alloc, tokens, most, mods)
    }
}

/// A member whose parts have at most this height.
#[tactic(auto, unfolding(java_reading::specs::ReadClass::member_node))]
fn member_node(alloc: Global, tokens: &mut Tokens<'_>, most: u32) -> Result<Member, Refusal>
    requires { most < 200 }
    ensures { Reads (spec.member_node most (spec_statement.value most) (spec_statement.body most) tokens.old) result tokens.new }
{
    if tokens.eat(Operator::Semicolon) {
        return Ok(Member::Empty);
    }
    let words = modifiers(alloc, tokens)?;
    declared(alloc, tokens, most, Mods { words })
}

/// A member of at most this height.
#[tactic(auto, unfolding(java_reading::specs::ReadClass::member))]
pub fn member(alloc: Global, tokens: &mut Tokens<'_>, most: u32) -> Result<Member, Refusal>
    requires { most ≤ 200 }
    ensures { Reads (spec.member most tokens.old) result tokens.new }
{
    if most == 0 {
        return Err(tokens.too_high());
    }
    member_node(alloc, tokens, most - 1)
}
