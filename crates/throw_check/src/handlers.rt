//! What handles an exception at a place.

ghost use Rattle.std.specs.Prelude.{◌≡◌, [], ◌∷◌, ◌++◌, IfOk, OnOk};
ghost use Rattle.std.specs.List.{list_any};
ghost use Rattle.throw_check.specs.Classes as spec;
ghost use Rattle.throw_check.specs.Points.{points_at};
ghost use Rattle.java_names.specs.Refusals.{Allows};
ghost use Rattle.throw_check.specs.Walks.{faults_left, inside_try, outside_try, is_broken, is_handled};

use core_tree::BuiltIn;
use java_names::{Numbering, Symbols};
use java_syntax::{CheckError, Fault};
use sqlite_items::Items;
use std::alloc::{AllocError, Global};

/// What handles an exception at a place.
#[derive(Drop)]
pub struct Handlers {
    /// What the methods or constructors declare that run the place, a list of classes for each; each of them must
    /// declare it.
    pub declared: Items<Numbering<u32>>,
    /// The classes of the catch clauses around it, a list for each `try`; one of them must catch it.
    pub caught: Items<Numbering<u32>>,
}

// Whether class number `class` is checked: `Throwable` or below it, and neither `RuntimeException` nor `Error` nor
// below these (JLS 11.1.1).
fn is_checked(symbols: &Symbols, class: u32) -> bool
    ensures { result ≡ spec.is_checked symbols.now class }
{
    symbols.is_below(class, BuiltIn::Throwable.number())
        && !symbols.is_below(class, BuiltIn::RuntimeException.number())
        && !symbols.is_below(class, BuiltIn::Error.number())
}

// Whether class number `class` or one of its superclasses is among these.
fn is_covered(symbols: &Symbols, classes: &Numbering<u32>, class: u32) -> bool
    ensures { result ≡ spec.is_covered symbols.now classes.now class }
{
    symbols
        .line(class)
        .iter()
        .any(|above| classes.contains(above))
}

impl Handlers {
    /// Where nothing is caught, and each of these is what a method or constructor declares that runs the place.
    pub fn new(alloc: Global, declared: Items<Numbering<u32>>) -> Handlers
        ensures { result ≡ record { declared = declared; caught = [] } }
    {
        Handlers {
            declared,
            caught: Items::new(alloc),
        }
    }

    // Whether a catch clause around the place takes an exception of class number `class`.
    fn is_caught(&self, symbols: &Symbols, class: u32) -> bool
        ensures { result ≡ list_any (λ classes. spec.is_covered symbols.now classes class) self.now.caught }
    {
        self.caught
            .as_slice()
            .iter()
            .any(|classes| is_covered(symbols, classes, class))
    }

    // Whether each method or constructor that runs the place declares an exception of class number `class`.
    fn is_declared(&self, symbols: &Symbols, class: u32) -> bool
        ensures { result ≡ spec.is_declared symbols.now self.now.declared class }
    {
        self.declared
            .as_slice()
            .iter()
            .all(|classes| is_covered(symbols, classes, class))
    }

    // Whether an exception of class number `class` breaks the rule.
    fn is_broken(&self, symbols: &Symbols, class: u32) -> bool
        ensures { result ≡ is_broken symbols.now self.now class }
    {
        is_checked(symbols, class)
            && !(self.is_caught(symbols, class) || self.is_declared(symbols, class))
    }

    // Whether an exception of one of these classes breaks the rule.
    fn is_broken_by(&self, symbols: &Symbols, classes: &[u32]) -> bool
        ensures { result ≡ list_any (is_broken symbols.now self.now) classes.now }
    {
        classes.iter().any(|class| self.is_broken(symbols, *class))
    }

    /// Checks that exceptions of these classes are handled, which may be thrown at token `at`. It takes time in
    /// proportion to their number, the number of `try` around the place, and the depth of inheritance.
    ///
    /// # Errors
    /// `Fault` of rule 23 at the token, where one of them is checked and neither caught nor declared.
    #[tactic(auto, using(crate::proofs::LeftLemmas::left_at))]
    pub fn check(&self, symbols: &Symbols, classes: &[u32], at: u32) -> Result<(), CheckError>
        ensures { Allows (faults_left symbols.now self.now (points_at at classes.now)) result }
    {
        if self.is_broken_by(symbols, classes) {
            return Err(CheckError::Fault(Fault { rule: 23, at }));
        }
        Ok(())
    }

    /// Goes into the block of a `try` whose catch clauses have these classes. `AllocError` where memory runs out.
    pub fn enter(&mut self, classes: Numbering<u32>) -> Result<(), AllocError>
        ensures { OnOk result (self.new ≡ inside_try self.old classes) }
    {
        self.caught.push(classes)
    }

    /// Leaves the block of a `try`.
    pub fn leave(&mut self)
        ensures { self.new ≡ outside_try self.old }
    {
        self.caught.pop();
    }
}
