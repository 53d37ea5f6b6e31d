ghost use Rattle.std.specs.Prelude.{◌≡◌, ◌^◌, ◌<◌, ◌≤◌, length, IfOk, IfErr};
ghost use Rattle.java_syntax.specs.Height.{file_height};
ghost use Rattle.java_syntax.specs.Spells.{Spells};
ghost use Rattle.java_parse.specs.Answer.{IsOnlyTree, HasCause};

use crate::class::file;
use java_syntax::FileTree;
use java_tokens::Token;
use std::alloc::Global;
use token_reading::{ParseError, Refusal, Tokens, places};

/// The height that a tree may have, in nodes.
const MAX_HEIGHT: u32 = 200;

/// The tree of a source file, from its tokens with that of the end as the last (JLS 7.3).
///
/// The tree spells the tokens, has their places and a height of at most 200 nodes, and no other tree spells them.
/// `Syntax` comes only where no tree does, `TooDeep` only where none of that height does and there are at least 200
/// tokens, and `OutOfMemory` for any tokens. There are fewer than 2^32 tokens.
pub fn parse(alloc: Global, tokens: &[Token]) -> Result<FileTree, ParseError>
    requires { length tokens.now < 2 ^ 32 }
    ensures spells { IfOk result (λ tree. Spells tree tokens.now) }
    ensures low { IfOk result (λ tree. file_height tree ≤ 200) }
    ensures only { IfOk result (λ tree. IsOnlyTree tree tokens.now) }
    ensures cause { IfErr result (λ error. HasCause error tokens.now) }
{
    let mut rest = Tokens::new(tokens);
    match file(alloc, &mut rest, MAX_HEIGHT) {
        Ok(classes) => Ok(FileTree {
            classes,
            places: places(alloc, tokens)?,
        }),
        Err(Refusal::NoTree) => {
            let taken = tokens.len().saturating_sub(rest.left());
            Err(ParseError::Syntax(taken as u32))
        }
        Err(Refusal::TooHigh) => Err(ParseError::TooDeep),
        Err(Refusal::OutOfMemory) => Err(ParseError::OutOfMemory),
    }
}
