use crate::operator::{LinkOp, PathOp};
use sqlite_items::Boxed;
use token_reading::Ident;

/// A relation between objects, as it stands after a dot. A number in front is that of the first token.
#[derive(Drop)]
pub enum LinkTree {
    Field(Ident),
    /// `^r`, `*r`, `~r`
    Path(u32, PathOp, Boxed<LinkTree>),
    /// `(r)`
    Paren(u32, Boxed<LinkTree>),
    Binary(LinkOp, Boxed<LinkTree>, Boxed<LinkTree>),
}
