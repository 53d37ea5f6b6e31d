ghost use Rattle.std.specs.Prelude.{◌≡◌, ◌-◌, ◌-ℤ◌, neg_ℤ, pos};
ghost use Rattle.pb_int.specs.Int32.{wrap, digit, digitwise, from_digits, and_digit, or_digit, xor_digit};

/// `a & b`, digit by digit in two's complement (JLS 15.22.1).
#[tactic(auto, using(crate::proofs::TwosComplement::and_is))]
pub fn and(a: i32, b: i32) -> i32
    ensures { result ≡ digitwise and_digit a b }
{
    a & b
}

/// `a | b`, digit by digit in two's complement (JLS 15.22.1).
#[tactic(auto, using(crate::proofs::TwosComplement::or_is))]
pub fn or(a: i32, b: i32) -> i32
    ensures { result ≡ digitwise or_digit a b }
{
    a | b
}

/// `a ^ b`, digit by digit in two's complement (JLS 15.22.1).
#[tactic(auto, using(crate::proofs::TwosComplement::xor_is))]
pub fn xor(a: i32, b: i32) -> i32
    ensures { result ≡ digitwise xor_digit a b }
{
    a ^ b
}

/// `~a`: each digit in two's complement is the other one, which is `-a - 1` (JLS 15.15.5).
#[tactic(auto, using(crate::proofs::TwosComplement::not_is))]
pub fn not(a: i32) -> i32
    ensures digits { result ≡ from_digits (λ k. 1 - digit a k) }
    ensures value { result ≡ wrap (neg_ℤ a -ℤ pos 1) }
{
    !a
}
