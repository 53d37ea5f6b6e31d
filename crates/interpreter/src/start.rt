ghost use Rattle.std.specs.Prelude.{◌≡◌, ◌+◌};

use core_tree::Expr;

/// A field initialiser, the place of its field, and the place after that.
#[derive(Clone, Copy, Drop)]
pub struct Start<'p> {
    pub at: usize,
    pub next: usize,
    pub value: &'p Expr,
    ghost follows: { next ≡ at + 1 },
}
