//! What a file declares, with numbers and resolved types.

use crate::numbering::Numbering;
use core_tree::{Shared, Ty};
use java_tokens::Name;
use sqlite_items::Items;

/// What a method is called by: its name and its number of parameters (JLS 8.4.2, without the types).
#[derive(PartialEq, Eq, Hash, Drop)]
pub struct Selector {
    pub name: Name,
    pub arity: usize,
}

/// A field or a constant (JLS 8.3).
#[derive(Drop)]
pub struct FieldSymbol {
    /// The number of the class that declares it.
    pub owner: u32,
    pub name: Name,
    /// Its type; `Void` where that has an unknown name.
    pub ty: Shared<Ty>,
    /// Its place among the instance fields of an object, from 0; `None` for a constant.
    pub place: Option<u32>,
    pub is_private: bool,
    /// The number of the name's token, 0 for what is built in.
    pub at: u32,
}

/// A method (JLS 8.4).
#[derive(Drop)]
pub struct MethodSymbol {
    /// Its number among the methods of the file, in text order from 0; `None` for `getMessage` of `Throwable`.
    pub number: Option<u32>,
    /// The number of the class that declares it.
    pub owner: u32,
    pub name: Name,
    /// The types of its parameters in order; `Void` where one has an unknown name.
    pub params: Items<Shared<Ty>>,
    /// The type of its result; `Void` where it has none.
    pub answer: Shared<Ty>,
    /// The numbers of the known classes after `throws`, in order.
    pub throws: Items<u32>,
    pub is_static: bool,
    pub is_private: bool,
    /// The number of its selector; `None` for a static method.
    pub selector: Option<u32>,
    /// The number of the name's token, 0 for what is built in.
    pub at: u32,
}

/// A constructor (JLS 8.8).
#[derive(Drop)]
pub struct MakerSymbol {
    /// Its number among the constructors of the file: those that are written in text order from 0, then those that are
    /// made for classes without one, in the order of the classes. `None` for one of a built-in class.
    pub number: Option<u32>,
    /// The number of its class.
    pub owner: u32,
    /// The types of its parameters in order; `Void` where one has an unknown name.
    pub params: Items<Shared<Ty>>,
    /// The numbers of the known classes after `throws`, in order.
    pub throws: Items<u32>,
    pub is_private: bool,
    /// Whether it is made for a class without a constructor (JLS 8.8.9).
    pub is_made: bool,
    /// The number of its name's token, or of the class's where it is made; 0 for what is built in.
    pub at: u32,
}

/// The fields and constants that a class declares itself, in text order.
#[derive(Drop)]
pub struct Fields {
    pub symbols: Items<FieldSymbol>,
    /// Their names in the same order.
    pub names: Numbering<Name>,
}

/// The methods that a class declares itself, in text order.
#[derive(Drop)]
pub struct Methods {
    pub symbols: Items<MethodSymbol>,
    /// What they are called by, in the same order.
    pub selectors: Numbering<Selector>,
    /// Their names in the same order.
    pub names: Numbering<Name>,
}

/// The constructors that a class declares itself, in text order, or the one that is made for it.
#[derive(Drop)]
pub struct Makers {
    pub symbols: Items<MakerSymbol>,
    /// How many parameters they have, in the same order.
    pub arities: Numbering<usize>,
}

/// A class (JLS 8.1).
#[derive(Drop)]
pub struct ClassSymbol {
    /// The number of its superclass; `None` for `Object` alone.
    pub parent: Option<u32>,
    /// The numbers of the class itself, its superclass, and so on to `Object`.
    pub line: Items<u32>,
    pub fields: Fields,
    pub methods: Methods,
    pub makers: Makers,
    /// The number of the name's token, 0 for what is built in.
    pub at: u32,
}

/// What the classes of a program declare.
#[derive(Drop)]
pub struct Symbols {
    /// The names of the classes by their numbers.
    pub names: Numbering<Name>,
    /// The classes by their numbers: the built-in ones, then those of the file in text order.
    pub classes: Items<ClassSymbol>,
    /// The selectors by their numbers: `getMessage` without parameters, then the further ones of the instance methods
    /// in the order of their first declaration.
    pub selectors: Numbering<Selector>,
}
