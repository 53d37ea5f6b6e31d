//! The rows of the class table.

ghost use Rattle.std.specs.Prelude.{◌≡◌, ◌≤◌, flat_map, length, map};
ghost use Rattle.class_table.specs.Names.{number_of};
ghost use Rattle.class_table.specs.TableFacts.{IsTable};

use crate::keys::Keys;
use core_tree::Shared;
use java_syntax::{Mods, TypeTree};
use java_tokens::Name;
use sqlite_items::Items;
use std::marker::Model;

/// A field or a constant of a class (JLS 8.3).
#[derive(Drop)]
pub struct FieldRow {
    /// Its name; that of the message of a throwable, `#message`, no source can spell.
    pub name: Name,
    /// Its type as it is spelled.
    pub ty: TypeTree,
    /// The number of the class that declares it.
    pub owner: u32,
    /// Its modifiers in order; a constant is `static`.
    pub mods: Mods,
    /// Its place among the instance fields of an object, from 0; `None` for a constant.
    pub place: Option<u32>,
    /// The number of the name's token, 0 for what is built in.
    pub at: u32,
}

/// A method of a class (JLS 8.4).
#[derive(Drop)]
pub struct MethodRow {
    /// Its name.
    pub name: Name,
    /// The types of the parameters in order, as they are spelled.
    pub params: Items<TypeTree>,
    /// The names of the parameters in order.
    pub names: Items<Name>,
    /// The type of its result; `None` for `void`.
    pub answer: Option<TypeTree>,
    /// The names after `throws` in order.
    pub throws: Items<Name>,
    /// The modifiers in order.
    pub mods: Mods,
    /// The number of the name's token, 0 for what is built in.
    pub at: u32,
}

/// A constructor of a class (JLS 8.8).
#[derive(Drop)]
pub struct MakerRow {
    /// The types of the parameters in order.
    pub params: Items<TypeTree>,
    /// The names after `throws` in order.
    pub throws: Items<Name>,
    /// The modifiers in order.
    pub mods: Mods,
    /// The number of the name's token, 0 for what is built in.
    pub at: u32,
}

/// The fields of a class, those of its superclasses first. The lists of the superclasses are shared with them.
/// Contracts see one list.
#[derive(Drop)]
pub struct Fields {
    parts: Items<Shared<Items<FieldRow>>>,
}

impl Model for Fields {
    ghost use Rattle.std.specs.Prelude.{List};
    ghost use Rattle.std.specs.Prelude.{flat_map};
    ghost use Rattle.class_table.specs.declared.row.FieldRow.{FieldRow};

    ghost Value = { List FieldRow };

    ghost view = { λ fields. flat_map (λ part. part) fields.parts };
}

impl Fields {
    /// The fields of these lists, in order.
    pub(crate) fn new(parts: Items<Shared<Items<FieldRow>>>) -> Fields
        ensures { result ≡ flat_map (λ part. part) parts }
    {
        Fields { parts }
    }

    /// The lists of the classes on the line, that of the highest class first.
    pub fn parts(&self) -> &[Shared<Items<FieldRow>>]
        ensures { self.now ≡ flat_map (λ part. part) result.now }
    {
        self.parts.as_slice()
    }
}

/// What a method is called by: its name and its number of parameters (JLS 8.4.2, without the types).
#[derive(PartialEq, Eq, Hash, Drop)]
pub struct Signature {
    pub name: Name,
    pub arity: usize,
}

/// A class (JLS 8.1).
#[derive(Drop)]
pub struct ClassRow {
    /// Its name.
    pub name: Name,
    /// The number of its superclass; `None` for `Object` alone (JLS 8.1.4).
    pub parent: Option<u32>,
    /// The numbers of the class itself, its superclass, and so on to `Object`.
    pub line: Items<u32>,
    /// Its fields and constants, the inherited ones first (JLS 8.2).
    pub fields: Fields,
    /// The methods that it declares itself, in text order.
    pub methods: Shared<Items<MethodRow>>,
    /// The constructors that it declares itself, in text order.
    pub makers: Shared<Items<MakerRow>>,
    /// The number of the name's token, 0 for what is built in.
    pub at: u32,
}

/// The classes of a program: the built-in ones by their numbers, then those of the file in text order.
#[derive(Drop)]
pub struct ClassTable {
    /// The rows of the classes by their numbers, counted from 0.
    pub classes: Items<ClassRow>,
    /// The names of the classes by their numbers.
    pub(crate) names: Keys<Name>,
}

impl ClassTable {
    /// The number of the class of that name, counted from 0, or `None` where no class has it (JLS 6.3). It takes no
    /// memory. What is promised is promised of every table that `table` gives.
    pub fn find(&self, name: &Name) -> Option<u32>
        ensures { IsTable self.now → result ≡ number_of (map (λ row. row.name) self.now.classes) name.now }
    {
        match self.names.number(name) {
            Some(number) => u32::try_from(number).ok(),
            None => None,
        }
    }
}
