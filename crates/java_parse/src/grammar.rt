//! The readers of expressions take the reader of their parts as a parameter, so that each is proved by itself.

ghost use Rattle.std.specs.Prelude.{◌≡◌, ◌≤◌, ◌<◌, ◌+◌, IfOk};
ghost use Rattle.java_reading.specs.ReadExpr as spec;
ghost use Rattle.java_parse.specs.Nests.{Nests};
ghost use Rattle.token_reading.specs.Reads.{Reads};

use java_syntax::Expr;
use sqlite_items::Items;
use std::alloc::Global;
use token_reading::{Refusal, Tokens};

/// An expression and its height.
pub type Tall = (Expr, u32);

/// Expressions in order, and the greatest of their heights.
pub type Talls = (Items<Expr>, u32);

/// The reader of an expression from the readers of its parts.
#[derive(Clone, Copy)]
pub struct Grammar<F> {
    pub alloc: Global,
    /// How high the parts may be; the whole may be higher by 1.
    pub parts: u32,
    /// Reads a part of at most a height and of at least a level of precedence.
    pub read: F,
}

impl<F: Fn(Global, &mut Tokens<'_>, u32, u8) -> Result<Tall, Refusal>> Grammar<F> {
    /// Takes a part of this level of precedence or above.
    pub fn part(&self, tokens: &mut Tokens<'_>, least: u8) -> Result<Tall, Refusal>
        requires part { Nests self.now.parts (F.pre self.now.read) (F.post self.now.read) }
        requires low { self.now.parts < 200 }
        ensures reads { Reads (spec.reading self.now.parts least tokens.old) result tokens.new }
        ensures low { IfOk result (λ t. t.1 ≤ self.now.parts) }
    {
        (self.read)(self.alloc, tokens, self.parts, least)
    }
}

/// An expression of level `least` or above and of at most this height.
pub fn reading(
    alloc: Global,
    tokens: &mut Tokens<'_>,
    most: u32,
    least: u8,
) -> Result<Tall, Refusal>
    requires { most ≤ 200 }
    ensures reads { Reads (spec.reading most least tokens.old) result tokens.new }
    ensures low { IfOk result (λ t. t.1 ≤ most) }
{
    if most == 0 {
        return Err(tokens.too_high());
    }
    Grammar {
        alloc,
        parts: most - 1,
        read: reading,
    }
    .precedence(tokens, least)
}
