//! The locals in scope at a place of a body, and what a name means there.

ghost use Rattle.std.specs.Prelude.{◌≡◌, [], ◌∷◌, ◌++◌, IfOk, OnOk, None, length, take};
ghost use Rattle.std.specs.Map.{lookup};
ghost use Rattle.class_table.specs.Names.{same_name};
ghost use Rattle.java_names.specs.Scope as spec;

use crate::symbol::{FieldSymbol, Symbols};
use core_tree::{Shared, Ty};
use indexmap::IndexMap;
use java_tokens::Name;
use sqlite_items::Items;
use std::alloc::{AllocError, Global};
use std::marker::Model;

/// The locals in scope, the outermost first, each with its number. Contracts see a list of pairs of a name and a
/// number.
#[derive(Drop)]
pub struct Locals {
    numbers: IndexMap<Name, u32>,
}

impl Model for Locals {
    ghost use Rattle.std.specs.Prelude.{List, ℕ};

    ghost Value = { List (List ℕ × ℕ) };

    ghost view = { λ locals. locals.numbers.entries };
}

impl Locals {
    /// No locals.
    pub fn new(alloc: Global) -> Locals
        ensures { result ≡ [] }
    {
        Locals {
            numbers: IndexMap::new(alloc),
        }
    }

    /// How many locals are in scope.
    pub fn len(&self) -> usize
        ensures { result ≡ length self.now }
    {
        self.numbers.len()
    }

    /// The number of the local of that name. It takes no memory.
    pub fn find(&self, name: &Name) -> Option<u32>
        ensures { result ≡ lookup (same_name name.now) self.now }
    {
        self.numbers.get(name).copied()
    }

    /// Adds a local, of whose name there is none yet. After an `Err` the locals are as before.
    #[tactic(auto, using(crate::proofs::ScopeLemmas::new_local))]
    pub fn push(&mut self, name: Name, number: u32) -> Result<(), AllocError>
        requires fresh { lookup (same_name name) self.old ≡ None }
        ensures { OnOk result (self.new ≡ self.old ++ (name, number) ∷ []) }
    {
        self.numbers.insert(name, number)?;
        Ok(())
    }

    /// Keeps the first `count` locals.
    pub fn truncate(&mut self, count: usize)
        ensures { self.new ≡ take count self.old }
    {
        self.numbers.truncate(count);
    }
}

/// No number is as large as this one.
const NO_NUMBER: usize = 4_294_967_295;

/// Where a block begins.
#[derive(Clone, Copy, Drop)]
pub struct Mark {
    /// How many locals are in scope there.
    pub locals: usize,
    /// Whether it stands in a loop.
    pub in_loop: bool,
}

/// What a name means at a place (JLS 6.5).
#[derive(Drop)]
pub enum Meaning<'a> {
    /// The local with this number.
    Local(u32),
    /// A field or constant of the class or its superclasses.
    Field(&'a FieldSymbol),
    /// The class with this number, which a name may mean before a dot.
    Class(u32),
    /// Nothing.
    Unknown,
}

/// What is known at a place of a body.
#[derive(Drop)]
pub struct Scope {
    /// The number of the class that it stands in.
    pub class: u32,
    /// Whether it stands in a static method or in a constant's initialiser, where there is no `this`.
    pub is_static: bool,
    /// The type of the method's result; `Void` where it has none, and in a constructor or an initialiser.
    pub answer: Shared<Ty>,
    /// Whether it stands in a loop.
    pub in_loop: bool,
    /// The locals in scope.
    pub locals: Locals,
    /// The types of all locals that were declared in this body so far, by their numbers.
    pub slots: Items<Shared<Ty>>,
}

impl Scope {
    /// The scope at the beginning of a body of class number `class`, before its parameters. `answer` is the type of the
    /// method's result.
    pub fn new(alloc: Global, class: u32, is_static: bool, answer: Shared<Ty>) -> Scope
        ensures { result ≡ spec.first_scope class is_static answer }
    {
        Scope {
            class,
            is_static,
            answer,
            in_loop: false,
            locals: Locals::new(alloc),
            slots: Items::new(alloc),
        }
    }

    /// The number of the local of that name in scope; `None` where there is none. It takes no memory.
    pub fn local(&self, name: &Name) -> Option<u32>
        ensures { result ≡ spec.local_of self.now name.now }
    {
        self.locals.find(name)
    }

    /// Declares a local of a name that no local in scope has, and gives its number: that of the locals that were
    /// declared before (JLS 14.4). `AllocError` where memory runs out, or no number; then the scope serves no more.
    #[tactic(auto, unfolding(crate::specs::Scope::declared))]
    pub fn declare(&mut self, name: Name, ty: Shared<Ty>) -> Result<u32, AllocError>
        requires fresh { spec.local_of self.old name ≡ None }
        ensures number { IfOk result (λ number. number ≡ length self.old.slots) }
        ensures declared { OnOk result (self.new ≡ spec.declared self.old name ty) }
    {
        let count = self.slots.len();
        if count >= NO_NUMBER {
            return Err(AllocError);
        }
        let number = count as u32;
        self.locals.push(name, number)?;
        self.slots.push(ty)?;
        Ok(number)
    }

    /// Where a block begins, to come back to after it.
    pub fn mark(&self) -> Mark
        ensures { result ≡ spec.mark_of self.now }
    {
        Mark {
            locals: self.locals.len(),
            in_loop: self.in_loop,
        }
    }

    /// Leaves a block that began at `mark`: its locals are gone, and their numbers are never used again (JLS 6.3).
    #[tactic(auto, unfolding(crate::specs::Scope::back_at))]
    pub fn back(&mut self, mark: Mark)
        ensures { self.new ≡ spec.back_at mark self.old }
    {
        self.locals.truncate(mark.locals);
        self.in_loop = mark.in_loop;
    }

    /// What a name means: a local, else a field or constant of the class or its superclasses, else a class (JLS 6.4.2,
    /// 6.5.2).
    pub fn meaning<'a>(&self, symbols: &'a Symbols, name: &Name) -> Meaning<'a>
        ensures { spec.seen result ≡ spec.meaning_of symbols.now self.now name.now }
    {
        if let Some(number) = self.local(name) {
            return Meaning::Local(number);
        }
        if let Some(field) = symbols.field(self.class, name) {
            return Meaning::Field(field);
        }
        match symbols.class_number(name) {
            Some(class) => Meaning::Class(class),
            None => Meaning::Unknown,
        }
    }
}
