ghost use Rattle.std.specs.Prelude.{◌≡◌, IfOk};
ghost use Rattle.token_reading.specs.Places.{place_of, places_of};

use java_tokens::Token;
use sqlite_items::Items;
use std::alloc::{AllocError, Global};

/// Where a token begins: its line and column, both from 1, the column in characters (JLS 3.4).
#[derive(Clone, Copy, Debug, PartialEq, Eq, Drop)]
pub struct TokenPlace {
    pub line: u32,
    pub column: u32,
}

impl TokenPlace {
    /// Where this token begins.
    pub fn of(token: &Token) -> TokenPlace
        ensures { result ≡ place_of token.now }
    {
        TokenPlace {
            line: token.line,
            column: token.column,
        }
    }
}

/// Where each of these tokens begins, in order. `AllocError` where memory runs out.
pub fn places(alloc: Global, tokens: &[Token]) -> Result<Items<TokenPlace>, AllocError>
    ensures { IfOk result (λ places. places ≡ places_of tokens.now) }
{
    let mut places = Items::new(alloc);
    for token in tokens {
        places.push(TokenPlace::of(token))?;
    }
    Ok(places)
}
