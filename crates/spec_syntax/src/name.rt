ghost use Rattle.std.specs.Prelude.{◌≡◌};
ghost use Rattle.spec_reading.specs.ReadLink as spec;
ghost use Rattle.token_reading.specs.Reads.{Reads};

use spec_trees::word_of;
use token_reading::{Ident, Refusal, Tokens};

/// Takes an identifier that is no word of contracts.
#[tactic(auto, unfolding(spec_reading::specs::ReadLink::name))]
pub fn name(tokens: &mut Tokens<'_>) -> Result<Ident, Refusal>
    ensures { Reads (spec.name tokens.old) result tokens.new }
{
    let name = tokens.ident()?;
    match word_of(&name.name) {
        None => Ok(name),
        Some(_) => Err(Refusal::NoTree),
    }
}
