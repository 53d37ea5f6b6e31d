//! Levels of precedence, from 1 for quantifiers and for sums of relations.

ghost use Rattle.std.specs.Prelude.{◌≡◌, ◌≤◌};
ghost use Rattle.spec_trees.specs.Links as links;
ghost use Rattle.spec_trees.specs.Terms as terms;
ghost use Rattle.spec_reading.specs.ReadTerm as spec;

use spec_trees::{LinkOp, PrefixOp, TermOp};

/// The level of what the operator makes.
pub fn op_level(op: TermOp) -> u8
    ensures value { result ≡ terms.op_level op }
    ensures small { result ≤ 9 }
{
    match op {
        TermOp::Iff => 2,
        TermOp::Implies => 3,
        TermOp::Or => 4,
        TermOp::And => 5,
        TermOp::Equal
        | TermOp::NotEqual
        | TermOp::Less
        | TermOp::LessEqual
        | TermOp::Greater
        | TermOp::GreaterEqual
        | TermOp::In => 6,
        TermOp::Plus | TermOp::Minus => 7,
        TermOp::Meet => 8,
        TermOp::Times => 9,
    }
}

/// The least level of its right operand: `=>` alone associates to the right.
pub fn right_level(op: TermOp) -> u8
    ensures { result ≡ terms.right_level op }
{
    match op {
        TermOp::Iff | TermOp::Implies => 3,
        TermOp::Or => 5,
        TermOp::And => 6,
        TermOp::Equal
        | TermOp::NotEqual
        | TermOp::Less
        | TermOp::LessEqual
        | TermOp::Greater
        | TermOp::GreaterEqual
        | TermOp::In => 7,
        TermOp::Plus | TermOp::Minus => 8,
        TermOp::Meet => 9,
        TermOp::Times => 10,
    }
}

/// How tightly the token after what it makes may bind: no comparison is an operand of a comparison.
pub fn op_end(op: TermOp) -> u8
    ensures { result ≡ spec.op_end op }
{
    match op {
        TermOp::Iff | TermOp::Implies => 2,
        TermOp::Or => 4,
        TermOp::And
        | TermOp::Equal
        | TermOp::NotEqual
        | TermOp::Less
        | TermOp::LessEqual
        | TermOp::Greater
        | TermOp::GreaterEqual
        | TermOp::In => 5,
        TermOp::Plus | TermOp::Minus => 7,
        TermOp::Meet => 8,
        TermOp::Times => 9,
    }
}

/// The level of what an operator before its operand makes.
pub fn prefix_level(op: PrefixOp) -> u8
    ensures { result ≡ terms.prefix_level op }
{
    match op {
        PrefixOp::Negate | PrefixOp::Count | PrefixOp::Not => 10,
        PrefixOp::Exists | PrefixOp::No | PrefixOp::One | PrefixOp::Lone => 6,
    }
}

/// The least level of its operand.
pub fn operand_level(op: PrefixOp) -> u8
    ensures { result ≡ terms.operand_level op }
{
    match op {
        PrefixOp::Negate | PrefixOp::Count | PrefixOp::Not => 10,
        PrefixOp::Exists | PrefixOp::No | PrefixOp::One | PrefixOp::Lone => 7,
    }
}

/// How tightly the token after what it makes may bind.
pub fn prefix_end(op: PrefixOp) -> u8
    ensures { result ≡ spec.prefix_end op }
{
    match op {
        PrefixOp::Negate | PrefixOp::Count | PrefixOp::Not => 9,
        PrefixOp::Exists | PrefixOp::No | PrefixOp::One | PrefixOp::Lone => 5,
    }
}

/// The level of what an operator between relations makes.
pub fn link_op_level(op: LinkOp) -> u8
    ensures value { result ≡ links.link_op_level op }
    ensures small { result ≤ 3 }
{
    match op {
        LinkOp::Union | LinkOp::Minus => 1,
        LinkOp::Meet => 2,
        LinkOp::Join => 3,
    }
}
