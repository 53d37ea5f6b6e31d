use crate::contract::NumberTree;
use crate::link::LinkTree;
use crate::operator::{PrefixOp, Quantifier, TermOp};
use sqlite_items::{Boxed, Items};
use token_reading::Ident;

/// A term of a contract: a formula, a set of objects or an integer. A number in front is that of the first token, where
/// no part begins with it.
#[derive(Drop)]
pub enum TermTree {
    Number(NumberTree),
    Bool(u32, bool),
    Null(u32),
    This(u32),
    /// `result`
    Answer(u32),
    /// A variable, a parameter or a class.
    Name(Ident),
    /// `p(a, b)`
    Call(Ident, Items<TermTree>),
    /// `old(t)`
    Old(u32, Boxed<TermTree>),
    /// `(t)`
    Paren(u32, Boxed<TermTree>),
    /// `S.r`
    Image(Boxed<TermTree>, LinkTree),
    Prefix(u32, PrefixOp, Boxed<TermTree>),
    Binary(TermOp, Boxed<TermTree>, Boxed<TermTree>),
    /// `all x : S | F`: the variable, the set and the body.
    Quantified(u32, Quantifier, Ident, Boxed<TermTree>, Boxed<TermTree>),
}
