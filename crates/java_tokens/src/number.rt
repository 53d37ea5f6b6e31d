ghost use Rattle.std.specs.Prelude.{◌≡◌, IfSome, IfNone};
ghost use Rattle.java_tokens.specs.Spelling.{IsNumber, number_of};

use crate::characters::is_digit;

/// A number has this many digits at most.
const MAX_DIGITS: usize = 10;

/// The value of a decimal number without a leading zero, of at most 10 digits (JLS 3.10.1), or `None` where the text
/// is no such number.
pub(crate) fn number_of(text: &[char]) -> Option<u64>
    ensures some { IfSome result (λ number. (number ≡ number_of text.now) × IsNumber text.now) }
    ensures none { IfNone result (IsNumber text.now → ⊥) }
{
    if text.is_empty() || text.len() > MAX_DIGITS || text.len() > 1 && text[0] == '0' {
        return None;
    }
    let mut number = 0;
    for digit in text {
        if !is_digit(*digit) {
            return None;
        }
        number = number * 10 + u64::from(u32::from(*digit) - u32::from('0'));
    }
    Some(number)
}
