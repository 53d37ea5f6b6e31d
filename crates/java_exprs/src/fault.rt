ghost use Rattle.std.specs.Prelude.{◌≡◌};

use java_syntax::{CheckError, Fault};

/// The error of a broken rule.
pub fn fault(rule: u8, at: u32) -> CheckError
    ensures { result ≡ CheckError.Fault (record { rule = rule; at = at }) }
{
    CheckError::Fault(Fault { rule, at })
}
