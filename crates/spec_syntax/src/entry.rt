ghost use Rattle.std.specs.Prelude.{◌≡◌, ◌^◌, ◌<◌, ◌≤◌, drop, length, IfOk, IfErr, [], ◌∷◌};
ghost use Rattle.spec_trees.specs.Height.{contract_height, spec_height};
ghost use Rattle.spec_syntax.specs.Answer as answer;
ghost use Rattle.token_reading.specs.Reads.{Reads};

use crate::contracts::contract;
use crate::spec_methods::spec_method;
use java_tokens::{Operator, Token};
use spec_trees::{ContractTree, SpecTree};
use std::alloc::Global;
use token_reading::{ParseError, Refusal, Tokens};

/// The height that a tree may have, in nodes.
const MAX_HEIGHT: u32 = 200;

/// Goes after that many tokens, and to the end where there are fewer.
fn skip_all(tokens: &mut Tokens<'_>, count: u32)
    ensures { tokens.new ≡ drop count tokens.old }
{
    for _turn in 0..count {
        tokens.skip();
    }
}

/// Takes a contract that stands directly before a `{`.
#[tactic(auto, unfolding(crate::specs::Answer::read_before_body))]
fn before_body(alloc: Global, tokens: &mut Tokens<'_>) -> Result<ContractTree, Refusal>
    ensures { Reads (answer.read_before_body 200 tokens.old) result tokens.new }
{
    let tree = contract(alloc, tokens, MAX_HEIGHT)?;
    if tokens.sees(Operator::LeftBrace) {
        Ok(tree)
    } else {
        Err(Refusal::NoTree)
    }
}

/// Why there is no tree, where the reader stopped before the token of this number.
fn refused(refusal: Refusal, at: u32) -> ParseError
    ensures { result ≡ answer.refused refusal at }
{
    match refusal {
        Refusal::NoTree => ParseError::Syntax(at),
        Refusal::TooHigh => ParseError::TooDeep,
        Refusal::OutOfMemory => ParseError::OutOfMemory,
    }
}

/// The contract that begins at the token `from` and stands directly before a `{`, and the number of that `{`; tokens are
/// counted from 0.
///
/// It has a height of at most 200 nodes, and no other contract stands there. `Syntax` comes only where none does,
/// `TooDeep` only where none of that height does and there are at least 200 tokens from `from` on, and `OutOfMemory`
/// for any tokens. There are fewer than 2^32 tokens.
pub fn parse_contract(
    alloc: Global,
    tokens: &[Token],
    from: u32,
) -> Result<(ContractTree, u32), ParseError>
    requires { length tokens.now < 2 ^ 32 }
    ensures spells { IfOk result (λ t. answer.SpellsContract t.0 tokens.now from t.1) }
    ensures low { IfOk result (λ t. contract_height t.0 ≤ 200) }
    ensures only { IfOk result (λ t. answer.IsOnlyContract t.0 t.1 tokens.now from) }
    ensures cause { IfErr result (λ error. answer.HasContractCause error tokens.now from) }
{
    let mut rest = Tokens::new(tokens);
    skip_all(&mut rest, from);
    let read = before_body(alloc, &mut rest);
    let at = tokens.len().saturating_sub(rest.left()) as u32;
    match read {
        Ok(tree) => Ok((tree, at)),
        Err(refusal) => Err(refused(refusal, at)),
    }
}

/// The spec method that begins at the token `from`, and the number of the token after it; tokens are counted from 0.
///
/// It has a height of at most 200 nodes, and no other spec method begins there. `Syntax` comes only where none does,
/// `TooDeep` only where none of that height does and there are at least 200 tokens from `from` on, and `OutOfMemory`
/// for any tokens. There are fewer than 2^32 tokens.
pub fn parse_spec_method(
    alloc: Global,
    tokens: &[Token],
    from: u32,
) -> Result<(SpecTree, u32), ParseError>
    requires { length tokens.now < 2 ^ 32 }
    ensures spells { IfOk result (λ t. answer.SpellsSpec t.0 tokens.now from t.1) }
    ensures low { IfOk result (λ t. spec_height t.0 ≤ 200) }
    ensures only { IfOk result (λ t. answer.IsOnlySpec t.0 t.1 tokens.now from) }
    ensures cause { IfErr result (λ error. answer.HasSpecCause error tokens.now from) }
{
    let mut rest = Tokens::new(tokens);
    skip_all(&mut rest, from);
    let read = spec_method(alloc, &mut rest, MAX_HEIGHT);
    let at = tokens.len().saturating_sub(rest.left()) as u32;
    match read {
        Ok(tree) => Ok((tree, at)),
        Err(refusal) => Err(refused(refusal, at)),
    }
}
