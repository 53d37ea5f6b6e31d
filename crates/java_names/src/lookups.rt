//! What a name of a member or a class means.

ghost use Rattle.std.specs.Prelude.{◌≡◌, option_and_then, position, slice_get, nat_eq};
ghost use Rattle.std.specs.List.{list_any};
ghost use Rattle.std.specs.Option.{option_copied};
ghost use Rattle.java_names.specs.Lookups as spec;

use crate::symbol::{ClassSymbol, FieldSymbol, MakerSymbol, MethodSymbol, Selector, Symbols};
use java_tokens::Name;
use sqlite_items::at;

/// Whether a member that class number `owner` declares may be named in class number `class`: it isn't private, or it is
/// that class (JLS 6.6.1).
pub fn is_accessible(class: u32, owner: u32, is_private: bool) -> bool
    ensures { result ≡ spec.is_accessible class owner is_private }
{
    !is_private || class == owner
}

impl ClassSymbol {
    /// The field or constant that the class declares by that name.
    fn field(&self, name: &Name) -> Option<&FieldSymbol>
        ensures { option_copied result ≡ spec.field_in self.now name.now }
    {
        match self.fields.names.number(name) {
            Some(number) => at(self.fields.symbols.as_slice(), number as usize),
            None => None,
        }
    }

    /// The method that the class declares by that name and number of parameters.
    fn method(&self, selector: &Selector) -> Option<&MethodSymbol>
        ensures { option_copied result ≡ spec.method_in self.now selector.now }
    {
        match self.methods.selectors.number(selector) {
            Some(number) => at(self.methods.symbols.as_slice(), number as usize),
            None => None,
        }
    }

    /// The constructor of the class with that number of parameters.
    fn maker(&self, arity: usize) -> Option<&MakerSymbol>
        ensures { option_copied result ≡ spec.maker_in self.now arity }
    {
        match self.makers.arities.number(&arity) {
            Some(number) => at(self.makers.symbols.as_slice(), number as usize),
            None => None,
        }
    }
}

impl Symbols {
    /// The number of the class of that name, counted from 0; `None` where no class has it (JLS 6.3). It takes no
    /// memory.
    pub fn class_number(&self, name: &Name) -> Option<u32>
        ensures { result ≡ spec.class_number self.now name.now }
    {
        self.names.number(name)
    }

    /// The class with that number; `None` where there is none.
    pub fn class(&self, class: u32) -> Option<&ClassSymbol>
        ensures { option_copied result ≡ spec.class_at self.now class }
    {
        at(self.classes.as_slice(), class as usize)
    }

    /// The number of the superclass of class number `class`; `None` of `Object`, and where there is no such class (JLS
    /// 8.1.4).
    pub fn superclass(&self, class: u32) -> Option<u32>
        ensures { result ≡ spec.parent_of self.now class }
    {
        match self.class(class) {
            Some(symbol) => symbol.parent,
            None => None,
        }
    }

    /// The numbers of a class, its superclass, and so on to `Object`; none where there is no such class (JLS 8.1.4).
    pub fn line(&self, class: u32) -> &[u32]
        ensures { result.now ≡ spec.line_of self.now class }
    {
        match self.class(class) {
            Some(symbol) => symbol.line.as_slice(),
            None => &[],
        }
    }

    /// Whether class number `class` is class number `other` or below it.
    pub fn is_below(&self, class: u32, other: u32) -> bool
        ensures { result ≡ spec.is_below self.now class other }
    {
        self.line(class).contains(&other)
    }

    /// The field or constant that class number `class` declares by that name.
    fn field_at(&self, name: &Name, class: u32) -> Option<&FieldSymbol>
        ensures { option_copied result ≡ spec.field_at self.now name.now class }
    {
        match self.class(class) {
            Some(symbol) => symbol.field(name),
            None => None,
        }
    }

    /// The first field or constant of that name along a line of classes.
    fn field_along(&self, name: &Name, mut line: &[u32]) -> Option<&FieldSymbol>
        ensures { option_copied result ≡ spec.nearest (spec.field_at self.now name.now) line.entry.now }
    {
        while let [class, more @ ..] = line {
            if let Some(found) = self.field_at(name, *class) {
                return Some(found);
            }
            line = more;
        }
        None
    }

    /// The field or constant of that name in class number `class`, its own or an inherited one, the nearest; `None`
    /// where it has none (JLS 8.2, 8.3). It may be private to another class.
    pub fn field(&self, class: u32, name: &Name) -> Option<&FieldSymbol>
        ensures { option_copied result ≡ spec.field_of self.now class name.now }
    {
        self.field_along(name, self.line(class))
    }

    /// The method that class number `class` declares by that name and number of parameters.
    fn method_at(&self, selector: &Selector, class: u32) -> Option<&MethodSymbol>
        ensures { option_copied result ≡ spec.method_at self.now selector.now class }
    {
        match self.class(class) {
            Some(symbol) => symbol.method(selector),
            None => None,
        }
    }

    /// The first method of that name and number of parameters along a line of classes.
    fn method_along(&self, selector: &Selector, mut line: &[u32]) -> Option<&MethodSymbol>
        ensures { option_copied result ≡ spec.nearest (spec.method_at self.now selector.now) line.entry.now }
    {
        while let [class, more @ ..] = line {
            if let Some(found) = self.method_at(selector, *class) {
                return Some(found);
            }
            line = more;
        }
        None
    }

    /// The method of that name and number of parameters in class number `class`, its own or one of its superclasses',
    /// the nearest; `None` where there is none (JLS 15.12.2). It may be static, and private to another class.
    pub fn method(&self, class: u32, selector: &Selector) -> Option<&MethodSymbol>
        ensures { option_copied result ≡ spec.method_of self.now class selector.now }
    {
        self.method_along(selector, self.line(class))
    }

    /// Whether class number `class` declares a method of that name.
    fn declares_method(&self, name: &Name, class: u32) -> bool
        ensures { result ≡ spec.declares_method self.now name.now class }
    {
        match self.class(class) {
            Some(symbol) => symbol.methods.names.contains(name),
            None => false,
        }
    }

    /// Whether class number `class` or one of its superclasses declares a method of that name, with any number of
    /// parameters.
    pub fn has_method(&self, class: u32, name: &Name) -> bool
        ensures { result ≡ spec.has_method self.now class name.now }
    {
        self.line(class)
            .iter()
            .any(|class| self.declares_method(name, *class))
    }

    /// The constructor of class number `class` with that number of parameters, written or made; `None` where it has
    /// none (JLS 8.8). It may be private to another class.
    pub fn maker(&self, class: u32, arity: usize) -> Option<&MakerSymbol>
        ensures { option_copied result ≡ spec.maker_of self.now class arity }
    {
        match self.class(class) {
            Some(symbol) => symbol.maker(arity),
            None => None,
        }
    }
}
