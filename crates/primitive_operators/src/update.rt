ghost use Rattle.std.specs.Prelude.{◌≡◌};
ghost use Rattle.primitive_operators.specs.Operators.{binary_op};

use core_tree::{BinOp, UpOp};

/// The operator that a compound assignment applies (JLS 15.26.2); `None` for `+=` on a String, which joins texts.
pub fn binary_op(op: UpOp) -> Option<BinOp>
    ensures { result ≡ binary_op op }
{
    match op {
        UpOp::Add => Some(BinOp::Add),
        UpOp::Sub => Some(BinOp::Sub),
        UpOp::Mul => Some(BinOp::Mul),
        UpOp::Div => Some(BinOp::Div),
        UpOp::Rem => Some(BinOp::Rem),
        UpOp::Shl => Some(BinOp::Shl),
        UpOp::Shr => Some(BinOp::Shr),
        UpOp::Ushr => Some(BinOp::Ushr),
        UpOp::BitAnd => Some(BinOp::BitAnd),
        UpOp::BitOr => Some(BinOp::BitOr),
        UpOp::BitXor => Some(BinOp::BitXor),
        UpOp::Concat => None,
    }
}
