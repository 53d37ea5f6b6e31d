//! The readers of terms take the reader of their parts as a parameter, so that each is proved by itself.

ghost use Rattle.std.specs.Prelude.{◌≡◌, ◌≤◌, ◌<◌, ◌+◌, IfOk};
ghost use Rattle.spec_reading.specs.ReadTerm as spec;
ghost use Rattle.spec_syntax.specs.Nests.{NestsTerms};
ghost use Rattle.token_reading.specs.Reads.{Reads};

use spec_trees::TermTree;
use sqlite_items::Items;
use std::alloc::Global;
use token_reading::{Refusal, Tokens};

/// A term and its height.
pub type TallTerm = (TermTree, u32);

/// Terms in order, and the greatest of their heights.
pub type TallTerms = (Items<TermTree>, u32);

/// The reader of a term from the readers of its parts.
#[derive(Clone, Copy)]
pub struct TermGrammar<F> {
    pub alloc: Global,
    /// How high the parts may be; the whole may be higher by 1.
    pub parts: u32,
    /// Reads a part of at most a height and of at least a level of precedence.
    pub read: F,
}

impl<F: Fn(Global, &mut Tokens<'_>, u32, u8) -> Result<TallTerm, Refusal>> TermGrammar<F> {
    /// Takes a part of this level of precedence or above.
    pub fn part(&self, tokens: &mut Tokens<'_>, least: u8) -> Result<TallTerm, Refusal>
        requires part { NestsTerms self.now.parts (F.pre self.now.read) (F.post self.now.read) }
        requires low { self.now.parts < 200 }
        ensures reads { Reads (spec.read_term self.now.parts least tokens.old) result tokens.new }
        ensures low { IfOk result (λ t. t.1 ≤ self.now.parts) }
    {
        (self.read)(self.alloc, tokens, self.parts, least)
    }
}

/// A term of level `least` or above and of at most this height.
pub fn read_term(
    alloc: Global,
    tokens: &mut Tokens<'_>,
    most: u32,
    least: u8,
) -> Result<TallTerm, Refusal>
    requires { most ≤ 200 }
    ensures reads { Reads (spec.read_term most least tokens.old) result tokens.new }
    ensures low { IfOk result (λ t. t.1 ≤ most) }
{
    if most == 0 {
        return Err(tokens.too_high());
    }
    TermGrammar {
        alloc,
        parts: most - 1,
        read: read_term,
    }
    .precedence(tokens, least)
}
