//! What is asked of objects.

ghost use Rattle.std.specs.Prelude.{◌≡◌, IfOk, OnErr, option_map, pos};
ghost use Rattle.evaluation.specs.Objects.{array_length, cast, elements_count, is_instance};
ghost use Rattle.evaluation.specs.Execute.{throw};
ghost use Rattle.interpreter.specs.Setting.{point, HasFields};
ghost use Rattle.interpreter.specs.Moves.{Goes, Leaves, FailsIn};

use crate::frame::Focus;
use crate::running::Running;
use core_tree::{BuiltIn, OutOfMemory, Ty};
use evaluation::Outcome;
use heap_arena::{Cell, Store};
use object_cells::{elements_count, object_fits};

impl<'p, S: Store + Drop> Running<'p, S> {
    /// The number of elements of an array (JLS 10.7).
    pub fn array_length(&mut self, array: Cell<u32>) -> Result<Focus<'p>, OutOfMemory>
        requires fields { HasFields (point S.state self.old) }
        ensures ok { IfOk result (Goes S.state (λ p part. array_length p array) self.old self.new) }
        ensures light { IfOk result (Leaves S.state 0 self.old self.new) }
        ensures err { OnErr result (FailsIn S.state self.old self.new) }
    {
        match array {
            Cell::Null => self.trap(BuiltIn::NullPointerException),
            Cell::Ref(o) => match self.count(o) {
                Some(count) => self.end(Outcome::Value(Cell::Int(count))),
                None => self.end(Outcome::Stuck),
            },
            Cell::Int(_) | Cell::Bool(_) | Cell::Text(_) => self.end(Outcome::Stuck),
        }
    }

    // The number of elements of the array at a position.
    fn count(&self, o: u32) -> Option<i32>
        ensures { result ≡ option_map pos (elements_count (S.state self.now.store).now o) }
    {
        Some(elements_count(&self.store, o)? as i32)
    }

    /// A cast (JLS 15.16).
    pub fn cast(&mut self, to: &Ty, v: Cell<u32>) -> Result<Focus<'p>, OutOfMemory>
        requires fields { HasFields (point S.state self.old) }
        ensures ok { IfOk result (Goes S.state (λ p part. cast p to.now v) self.old self.new) }
        ensures light { IfOk result (Leaves S.state 0 self.old self.new) }
        ensures err { OnErr result (FailsIn S.state self.old self.new) }
    {
        match v {
            Cell::Null => self.end(Outcome::Value(Cell::Null)),
            Cell::Ref(o) => {
                if object_fits(self.program, &self.store, o, to) {
                    self.end(Outcome::Value(Cell::Ref(o)))
                } else {
                    self.trap(BuiltIn::ClassCastException)
                }
            }
            Cell::Int(_) | Cell::Bool(_) | Cell::Text(_) => self.end(Outcome::Stuck),
        }
    }

    /// `instanceof` (JLS 15.20.2).
    pub fn is_instance(&mut self, of: &Ty, v: Cell<u32>) -> Result<Focus<'p>, OutOfMemory>
        ensures ok { IfOk result (Goes S.state (λ p part. is_instance p of.now v) self.old self.new) }
        ensures light { IfOk result (Leaves S.state 0 self.old self.new) }
        ensures err { OnErr result (FailsIn S.state self.old self.new) }
    {
        match v {
            Cell::Null => self.end(Outcome::Value(Cell::Bool(false))),
            Cell::Ref(o) => {
                let fits = object_fits(self.program, &self.store, o, of);
                self.end(Outcome::Value(Cell::Bool(fits)))
            }
            Cell::Int(_) | Cell::Bool(_) | Cell::Text(_) => self.end(Outcome::Stuck),
        }
    }

    /// `throw` (JLS 14.18).
    pub fn throw(&mut self, v: Cell<u32>) -> Result<Focus<'p>, OutOfMemory>
        requires fields { HasFields (point S.state self.old) }
        ensures ok { IfOk result (Goes S.state (λ p part. throw p v) self.old self.new) }
        ensures light { IfOk result (Leaves S.state 0 self.old self.new) }
        ensures err { OnErr result (FailsIn S.state self.old self.new) }
    {
        match v {
            Cell::Null => self.trap(BuiltIn::NullPointerException),
            Cell::Ref(o) => self.end(Outcome::Throw(o)),
            Cell::Int(_) | Cell::Bool(_) | Cell::Text(_) => self.end(Outcome::Stuck),
        }
    }
}
