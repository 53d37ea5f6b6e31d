use crate::expression::Expr;
use crate::statement::Stmt;
use sqlite_items::Items;
use token_reading::{Ident, ParamTree, TokenPlace, TypeTree};

/// A source file: its classes in order (JLS 7.3).
#[derive(Drop)]
pub struct FileTree {
    pub classes: Items<ClassTree>,
    /// Where each token begins, in order, that of the end included: token number `at` begins at `places[at]`.
    pub places: Items<TokenPlace>,
}

/// A class (JLS 8.1).
#[derive(Drop)]
pub struct ClassTree {
    pub is_public: bool,
    pub name: Ident,
    pub parent: Option<Ident>,
    pub members: Items<Member>,
}

/// A member of a class (JLS 8.1.6).
#[derive(Drop)]
pub enum Member {
    Field(FieldTree),
    Method(MethodTree),
    Maker(MakerTree),
    /// `;`
    Empty,
}

/// The modifiers of a member in order, repeated ones included (JLS 8.3.1, 8.4.3, 8.8.3).
#[derive(Drop)]
pub struct Mods {
    pub words: Items<Modifier>,
}

/// A modifier.
#[derive(Clone, Copy, Debug, Drop, PartialEq, Eq)]
pub enum Modifier {
    Public,
    Protected,
    Private,
    Static,
    Final,
}

/// A field or a constant (JLS 8.3).
#[derive(Drop)]
pub struct FieldTree {
    pub mods: Mods,
    pub ty: TypeTree,
    pub name: Ident,
    pub value: Option<Expr>,
}

/// A method (JLS 8.4).
#[derive(Drop)]
pub struct MethodTree {
    pub mods: Mods,
    /// The type of its result; `None` for `void`.
    pub answer: Option<TypeTree>,
    pub name: Ident,
    pub params: Items<ParamTree>,
    pub throws: Items<Ident>,
    pub body: Items<Stmt>,
}

/// A constructor (JLS 8.8).
#[derive(Drop)]
pub struct MakerTree {
    pub mods: Mods,
    pub name: Ident,
    pub params: Items<ParamTree>,
    pub throws: Items<Ident>,
    pub body: Items<Stmt>,
}
