ghost use Rattle.std.specs.Prelude.{◌≡◌, ◌↔◌, pos, IsErr, IfOk, int_div, int_rem};
ghost use Rattle.pb_int.specs.Int32.{wrap};

use thiserror::Error;

/// The divisor is 0.
#[derive(Clone, Copy, Debug, PartialEq, Eq, Error)]
#[error("division by zero")]
pub struct Zero;

/// `a / b`, truncated toward zero and wrapped to 32 bits: the least number divided by -1 is itself.
/// An error comes exactly where `b` is 0 (JLS 15.17.2).
#[tactic(auto, using(std::proofs::lemmas::Int::wraps, crate::proofs::Quotients::quotient_is))]
pub fn div(a: i32, b: i32) -> Result<i32, Zero>
    ensures zero { IsErr result ↔ (b ≡ pos 0) }
    ensures quotient { IfOk result (λ q. q ≡ wrap (int_div a b)) }
{
    if b == 0 {
        return Err(Zero);
    }
    Ok(a.wrapping_div(b))
}

/// `a % b`, the remainder of the truncated quotient, with the sign of `a` where it isn't 0.
/// An error comes exactly where `b` is 0 (JLS 15.17.3).
pub fn rem(a: i32, b: i32) -> Result<i32, Zero>
    ensures zero { IsErr result ↔ (b ≡ pos 0) }
    ensures remainder { IfOk result (λ r. r ≡ wrap (int_rem a b)) }
{
    if b == 0 {
        return Err(Zero);
    }
    Ok(a.wrapping_rem(b))
}
