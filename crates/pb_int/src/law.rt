ghost use Rattle.std.specs.Prelude.{◌≡◌, ◌≢◌, ℕ, ℤ, pos, ◌<◌};
ghost use Rattle.pb_int.specs.Int32.{wrap, digit, from_digits};
ghost use Rattle.pb_int.specs.Laws.{IsWrapped, IsTruncated, IsRoundedDown};

/// `wrap n` is an `int` that is congruent to `n` modulo 2^32, and it is the only one.
pub fn wrapping()
    ensures wraps { (n : ℤ) → IsWrapped n (wrap n) }
    ensures only { (n r : ℤ) → IsWrapped n r → r ≡ wrap n }
{}

/// The quotient and remainder of a division are truncated toward zero; those of a shift are rounded down.
pub fn rounding()
    ensures truncated { (a d : ℤ) → d ≢ pos 0 → IsTruncated a d }
    ensures rounded_down { (n : ℤ) (d : ℕ) → 0 < d → IsRoundedDown n d }
{}

/// A number made from digits has these digits, and a number is made from its own ones, up to wrapping.
pub fn digits_of_a_number()
    ensures digits { (digits : ℕ → ℕ) → ((k : ℕ) → digits k < 2) →
        (k : ℕ) → k < 32 → digit (from_digits digits) k ≡ digits k }
    ensures number { (n : ℤ) → from_digits (digit n) ≡ wrap n }
{}
