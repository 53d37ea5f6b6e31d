ghost use Rattle.std.specs.Prelude.{◌≡◌, ◌+ℤ◌, ◌-ℤ◌, ◌*ℤ◌, neg_ℤ};
ghost use Rattle.pb_int.specs.Int32.{wrap};

/// `a + b`, wrapped to 32 bits (JLS 15.18.2).
#[tactic(auto, using(std::proofs::lemmas::Int::wraps))]
pub fn add(a: i32, b: i32) -> i32
    ensures { result ≡ wrap (a +ℤ b) }
{
    a.wrapping_add(b)
}

/// `a - b`, wrapped to 32 bits (JLS 15.18.2).
#[tactic(auto, using(std::proofs::lemmas::Int::wraps))]
pub fn sub(a: i32, b: i32) -> i32
    ensures { result ≡ wrap (a -ℤ b) }
{
    a.wrapping_sub(b)
}

/// `a * b`, wrapped to 32 bits (JLS 15.17.1).
pub fn mul(a: i32, b: i32) -> i32
    ensures { result ≡ wrap (a *ℤ b) }
{
    a.wrapping_mul(b)
}

/// `-a`, wrapped to 32 bits: the least number is its own negation (JLS 15.15.4).
#[tactic(auto, using(std::proofs::lemmas::Int::wraps))]
pub fn neg(a: i32) -> i32
    ensures { result ≡ wrap (neg_ℤ a) }
{
    a.wrapping_neg()
}
