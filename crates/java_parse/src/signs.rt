//! The signs of assignment, `++` and `--` (JLS 15.14, 15.15, 15.26).

ghost use Rattle.std.specs.Prelude.{◌≡◌};
ghost use Rattle.java_reading.specs.ReadStmt as spec;

use java_syntax::{AssignOp, StepOp};
use java_tokens::{Operator, TokenKind};
use token_reading::Tokens;

fn assign_operator(sign: Operator) -> Option<AssignOp>
    ensures { result ≡ spec.assign_operator sign }
{
    match sign {
        Operator::Assign => Some(AssignOp::Assign),
        Operator::PlusAssign => Some(AssignOp::Add),
        Operator::MinusAssign => Some(AssignOp::Subtract),
        Operator::StarAssign => Some(AssignOp::Multiply),
        Operator::SlashAssign => Some(AssignOp::Divide),
        Operator::PercentAssign => Some(AssignOp::Remainder),
        Operator::AndAssign => Some(AssignOp::BitAnd),
        Operator::OrAssign => Some(AssignOp::BitOr),
        Operator::XorAssign => Some(AssignOp::BitXor),
        Operator::ShiftLeftAssign => Some(AssignOp::ShiftLeft),
        Operator::ShiftRightAssign => Some(AssignOp::ShiftRight),
        Operator::UnsignedShiftRightAssign => Some(AssignOp::UnsignedShiftRight),
        _ => None,
    }
}

fn step_operator(sign: Operator) -> Option<StepOp>
    ensures { result ≡ spec.step_operator sign }
{
    match sign {
        Operator::Increment => Some(StepOp::Increment),
        Operator::Decrement => Some(StepOp::Decrement),
        _ => None,
    }
}

/// The sign of assignment that comes next.
pub fn assign_at(tokens: &Tokens<'_>) -> Option<AssignOp>
    ensures { result ≡ spec.assign_at tokens.now }
{
    match tokens.peek() {
        Some(TokenKind::Op(sign)) => assign_operator(*sign),
        _ => None,
    }
}

/// The `++` or `--` that comes next.
pub fn step_at(tokens: &Tokens<'_>) -> Option<StepOp>
    ensures { result ≡ spec.step_at tokens.now }
{
    match tokens.peek() {
        Some(TokenKind::Op(sign)) => step_operator(*sign),
        _ => None,
    }
}
