ghost use Rattle.std.specs.Prelude.{◌≡◌, ◌≤◌, ◌<◌};
ghost use Rattle.spec_reading.specs.ReadContract as spec;
ghost use Rattle.token_reading.specs.Reads.{Reads};

use crate::clause::{adds, ensures_clause, ints, modifies};
use spec_trees::ContractTree;
use std::alloc::Global;
use token_reading::{Refusal, Tokens};

/// A contract whose parts have at most this height.
#[tactic(auto, unfolding(spec_reading::specs::ReadContract::contract_node))]
fn contract_node(alloc: Global, tokens: &mut Tokens<'_>, most: u32) -> Result<ContractTree, Refusal>
    requires { most ≤ 200 }
    ensures { Reads (spec.contract_node most tokens.old) result tokens.new }
{
    let ints = ints(tokens)?;
    let modifies = modifies(alloc, tokens, most)?;
    let adds = adds(alloc, tokens)?;
    let at = tokens.at();
    let ensured = ensures_clause(alloc, tokens, most)?;
    Ok(ContractTree {
        ints,
        modifies,
        adds,
        at,
        ensured,
    })
}

/// Takes the contract of at most this height that stands here, before a token that binds to no term.
///
/// `NoTree` comes only where no contract of any height does, `TooHigh` only where each that does is higher, and
/// `OutOfMemory` for any tokens; after a refusal some of the tokens may have been taken.
#[tactic(auto, unfolding(spec_reading::specs::ReadContract::read_contract))]
pub fn contract(alloc: Global, tokens: &mut Tokens<'_>, most: u32) -> Result<ContractTree, Refusal>
    requires { most ≤ 200 }
    ensures { Reads (spec.read_contract most tokens.old) result tokens.new }
{
    if most == 0 {
        return Err(tokens.too_high());
    }
    contract_node(alloc, tokens, most - 1)
}
