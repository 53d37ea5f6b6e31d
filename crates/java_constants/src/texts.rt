//! Texts of constants (JLS 5.1.11, 15.18.1).

ghost use Rattle.std.specs.Prelude.{◌≡◌, IfOk};
ghost use Rattle.primitive_operators.specs.Texts.{concatenated};
ghost use Rattle.java_exprs.specs.Operators.{text_folded};

use java_exprs::Folded;
use java_exprs::literals::text_of;
use primitive_operators::{Scalar, concatenated};
use std::alloc::{AllocError, Global};

/// The most code units of a constant's text.
const MOST_UNITS: u32 = 65_535;

/// A text, or the failure of one that is too long for a constant (JLS 15.29).
///
/// # Errors
/// `AllocError` where memory runs out, and for 2^31 characters or more.
pub fn text(alloc: Global, characters: &[char]) -> Result<Folded, AllocError>
    ensures { IfOk result (λ f. f ≡ text_folded characters.now) }
{
    let Ok(text) = text_of(alloc, characters) else {
        return Err(AllocError);
    };
    if text.units() > MOST_UNITS {
        return Ok(Folded::Fails);
    }
    Ok(Folded::Gives(Scalar::Text(text)))
}

/// The texts of two values, one after the other (JLS 15.18.1); more code units than a constant may have fail before a
/// text is made.
///
/// # Errors
/// `AllocError` where memory runs out.
pub fn joined(alloc: Global, a: &Scalar, b: &Scalar) -> Result<Folded, AllocError>
    ensures { IfOk result (λ f. f ≡ text_folded (concatenated a.now b.now)) }
{
    match concatenated(alloc, a.by_ref(), b.by_ref(), MOST_UNITS) {
        Ok(Some(text)) => Ok(Folded::Gives(Scalar::Text(text))),
        Ok(None) => Ok(Folded::Fails),
        Err(_) => Err(AllocError),
    }
}
