//! Places in the text of a source.

ghost use Rattle.std.specs.Prelude.{◌≡◌, ◌<◌, length};
ghost use Rattle.java_source.specs.Refused.{IsPlaceAmong};
ghost use Rattle.java_source.specs.Refused as spec;

use java_tokens::Token;

/// A line and a column, counted from 1, the column in characters.
#[derive(Clone, Copy, Debug, PartialEq, Eq)]
pub struct SourcePlace {
    pub line: u32,
    pub column: u32,
}

/// The place of token number `at`, counted from 0. The file's beginning where there is no such token.
pub fn place_of(tokens: &[Token], at: u32) -> SourcePlace
    ensures { result ≡ spec.place_of tokens.now at }
{
    match tokens.get(at as usize) {
        Some(token) => SourcePlace {
            line: token.line,
            column: token.column,
        },
        None => SourcePlace { line: 1, column: 1 },
    }
}

/// The place of token number `at`, counted from 0, or of the last one where there are no more than that many.
#[tactic(auto, using(crate::proofs::PlaceLemmas::place_among))]
pub fn stopped_at(tokens: &[Token], at: u32) -> SourcePlace
    requires { 0 < length tokens.now }
    ensures { IsPlaceAmong tokens.now result }
{
    let last = tokens.len() - 1;
    let stopped = &tokens[(at as usize).min(last)];
    SourcePlace {
        line: stopped.line,
        column: stopped.column,
    }
}
