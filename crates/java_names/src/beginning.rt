//! How a constructor's body begins (JLS 8.8.7).

ghost use Rattle.std.specs.Prelude.{◌≡◌};
ghost use Rattle.java_names.specs.Beginnings as spec;

use java_syntax::{Expr, Stmt};

/// How a constructor's body begins.
#[derive(Clone, Copy, Drop)]
pub struct MakerBody<'a> {
    /// The token at which the superclass's constructor is called: the word `super`, or else the constructor's name.
    pub at: u32,
    /// The arguments.
    pub given: &'a [Expr],
    /// The statements after the call.
    pub rest: &'a [Stmt],
}

/// How a body begins whose constructor has its name at token number `at`: where it has no `super(..)`, the superclass's
/// constructor without parameters is called there.
#[tactic(auto, using(crate::proofs::BeginningLemmas::beginnings))]
pub fn beginning_of(at: u32, body: &[Stmt]) -> MakerBody<'_>
    ensures at { result.at ≡ (spec.beginning at body.now).at }
    ensures given { result.given.now ≡ (spec.beginning at body.now).given }
    ensures rest { result.rest.now ≡ (spec.beginning at body.now).rest }
{
    if let [first, rest @ ..] = body {
        if let Stmt::Super(word, given) = first {
            return MakerBody {
                at: *word,
                given: given.as_slice(),
                rest,
            };
        }
    }
    MakerBody {
        at,
        given: &[],
        rest: body,
    }
}
