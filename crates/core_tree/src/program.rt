ghost use Rattle.std.specs.Prelude.{◌≡◌, IfOk};

use crate::{Contract, Expr, OutOfMemory, Shared, Stmt, Text, Ty};
use sqlite_items::{Boxed, Items};
use std::alloc::Global;

/// A resolved program. The built-in classes come first, then those of the file in text order; methods and constructors
/// are numbered in text order, and constructors that no source writes come last.
#[derive(Drop)]
pub struct Program {
    pub classes: Items<Class>,
    pub methods: Items<Method>,
    pub makers: Items<Maker>,
    /// The number of the method that runs.
    pub main: u32,
}

/// A class.
#[derive(Drop)]
pub struct Class {
    pub name: Text,
    /// The number of the superclass; Object alone has none.
    pub parent: Option<u32>,
    /// The instance fields, the inherited ones first. A constant is none of them.
    pub fields: Items<Field>,
    /// At each selector the method that it picks in this class, declared here or inherited. Selector 0 is `getMessage`
    /// without parameters.
    pub chosen: Items<Option<u32>>,
}

/// An instance field.
#[derive(Drop)]
pub struct Field {
    pub name: Text,
    pub ty: Ty,
    /// Its initialiser, which each class that inherits the field shares.
    pub start: Option<Shared<Expr>>,
    /// The class that declares it.
    pub owner: u32,
}

impl Field {
    /// The same field, as a subclass inherits it: its name and initialiser are shared, its type is copied.
    pub fn share(&self, alloc: Global) -> Result<Field, OutOfMemory>
        ensures { IfOk result (λ field. field ≡ self.now) }
    {
        let start = match &self.start {
            Some(e) => Some(e.share()?),
            None => None,
        };
        Ok(Field {
            name: self.name.share()?,
            ty: self.ty.copy(alloc)?,
            start,
            owner: self.owner,
        })
    }
}

/// A method of the file.
#[derive(Drop)]
pub struct Method {
    pub name: Text,
    /// The class that declares it.
    pub owner: u32,
    /// Whether it is called on an object, which is its `this`; a static method isn't.
    pub on_object: bool,
    pub params: Items<Ty>,
    /// The type of its result, or `Void`.
    pub answer: Ty,
    /// The types of its other locals, declared ones and `catch` parameters, in text order. A local's number is its
    /// place among the parameters and these.
    pub locals: Items<Ty>,
    pub body: Items<Stmt>,
    /// The contract that its declaration states. An overriding method has only its own.
    pub contract: Option<Boxed<Contract>>,
}

/// A constructor of a class of the file.
#[derive(Drop)]
pub struct Maker {
    /// Its class.
    pub owner: u32,
    pub params: Items<Ty>,
    /// What runs before the field initialisers.
    pub parent: Parent,
    /// The types of its other locals, as those of a method.
    pub locals: Items<Ty>,
    pub body: Items<Stmt>,
}

/// What a constructor does with the superclass.
#[derive(Drop)]
pub enum Parent {
    /// Object's constructor, which does nothing.
    Plain,
    /// A constructor of another built-in class, which sets the message; the one without parameters sets none.
    Message(Option<Boxed<Expr>>),
    /// The constructor with this number, of a class of the file.
    Maker(u32, Items<Expr>),
}
