ghost use Rattle.std.specs.Prelude.{◌≡◌, ◌*ℤ◌, ◌/◌, ◌^◌, pos};
ghost use Rattle.pb_int.specs.Int32.{wrap, modulo, floor_quotient, distance};

/// `a << b`: `a` times 2^d, wrapped to 32 bits, where the distance d is `b` modulo 32, from 0 to 31 (JLS 15.19).
#[tactic(auto, using(std::proofs::lemmas::Int::wraps, crate::proofs::Shifts::shl_is))]
pub fn shl(a: i32, b: i32) -> i32
    ensures { result ≡ wrap (a *ℤ pos (2 ^ distance b)) }
{
    a.wrapping_shl(b.cast_unsigned())
}

/// `a >> b`: `a` divided by 2^d and rounded down, where the distance d is `b` modulo 32, from 0 to 31 (JLS 15.19).
pub fn shr(a: i32, b: i32) -> i32
    ensures { result ≡ wrap (floor_quotient a (2 ^ distance b)) }
{
    a.wrapping_shr(b.cast_unsigned())
}

/// `a >>> b`: `a` modulo 2^32, divided by 2^d, rounded down and wrapped to 32 bits, where the distance d is `b`
/// modulo 32, from 0 to 31 (JLS 15.19).
#[tactic(auto, using(std::proofs::lemmas::Int::wraps, crate::proofs::Shifts::ushr_is))]
pub fn ushr(a: i32, b: i32) -> i32
    ensures { result ≡ wrap (pos (modulo a (2 ^ 32) / 2 ^ distance b)) }
{
    let word = a.cast_unsigned();
    word.wrapping_shr(b.cast_unsigned()).cast_signed()
}
