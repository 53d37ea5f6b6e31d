//! Fields and elements as places.

ghost use Rattle.std.specs.Prelude.{IfOk, OnErr};
ghost use Rattle.evaluation.specs.Objects.{at_index, with_element, with_field, within_array};
ghost use Rattle.interpreter.specs.Frames.{at_place};
ghost use Rattle.interpreter.specs.Setting.{point, HasFields};
ghost use Rattle.interpreter.specs.Moves.{Goes, Leaves, FailsIn};

use crate::frame::{Focus, PlaceUse};
use crate::running::Running;
use core_tree::{BuiltIn, OutOfMemory};
use evaluation::{Outcome, Place};
use heap_arena::{Cell, Store};
use object_cells::elements_count;

impl<'p, S: Store + Drop> Running<'p, S> {
    /// Goes on with a place.
    pub fn at_place(&mut self, place: Place, then: PlaceUse<'p>) -> Result<Focus<'p>, OutOfMemory>
        requires fields { HasFields (point S.state self.old) }
        ensures ok { IfOk result (Goes S.state (λ p part. at_place p part then.entry place) self.old self.new) }
        ensures light { IfOk result (Leaves S.state 0 self.old self.new) }
        ensures err { OnErr result (FailsIn S.state self.old self.new) }
    {
        match then {
            PlaceUse::Read => self.read_place(place),
            PlaceUse::Write(v) => self.write_place(place, v),
            PlaceUse::Update(op, operand) => self.update_place(op, operand, place),
        }
    }

    /// Goes on with the place of a field; null throws (JLS 15.11.1).
    pub fn with_field(
        &mut self,
        object: Cell<u32>,
        at: u32,
        then: PlaceUse<'p>,
    ) -> Result<Focus<'p>, OutOfMemory>
        requires fields { HasFields (point S.state self.old) }
        ensures ok { IfOk result (Goes S.state
            (λ p part. with_field p object at (at_place p part then.entry)) self.old self.new) }
        ensures light { IfOk result (Leaves S.state 0 self.old self.new) }
        ensures err { OnErr result (FailsIn S.state self.old self.new) }
    {
        match object {
            Cell::Null => self.trap(BuiltIn::NullPointerException),
            Cell::Ref(o) => self.at_place(Place::Cell(o, at), then),
            Cell::Int(_) | Cell::Bool(_) | Cell::Text(_) => self.end(Outcome::Stuck),
        }
    }

    /// Goes on with the place of an element; null throws before the index is looked at (JLS 15.10.4).
    pub fn with_element(
        &mut self,
        array: Cell<u32>,
        index: Cell<u32>,
        then: PlaceUse<'p>,
    ) -> Result<Focus<'p>, OutOfMemory>
        requires fields { HasFields (point S.state self.old) }
        ensures ok { IfOk result (Goes S.state
            (λ p part. with_element p array index (at_place p part then.entry)) self.old self.new) }
        ensures light { IfOk result (Leaves S.state 0 self.old self.new) }
        ensures err { OnErr result (FailsIn S.state self.old self.new) }
    {
        match array {
            Cell::Null => self.trap(BuiltIn::NullPointerException),
            Cell::Ref(o) => self.at_index(o, index, then),
            Cell::Int(_) | Cell::Bool(_) | Cell::Text(_) => self.end(Outcome::Stuck),
        }
    }

    // Goes on with the place of an element of the array at a position.
    fn at_index(
        &mut self,
        o: u32,
        index: Cell<u32>,
        then: PlaceUse<'p>,
    ) -> Result<Focus<'p>, OutOfMemory>
        requires fields { HasFields (point S.state self.old) }
        ensures ok { IfOk result (Goes S.state
            (λ p part. at_index p o index (at_place p part then.entry)) self.old self.new) }
        ensures light { IfOk result (Leaves S.state 0 self.old self.new) }
        ensures err { OnErr result (FailsIn S.state self.old self.new) }
    {
        match index {
            Cell::Int(index) => match elements_count(&self.store, o) {
                Some(count) => self.within_array(o, index, count, then),
                None => self.end(Outcome::Stuck),
            },
            Cell::Bool(_) | Cell::Null | Cell::Ref(_) | Cell::Text(_) => self.end(Outcome::Stuck),
        }
    }

    // Goes on with the place of an element of the array with that many elements.
    fn within_array(
        &mut self,
        o: u32,
        index: i32,
        count: u32,
        then: PlaceUse<'p>,
    ) -> Result<Focus<'p>, OutOfMemory>
        requires fields { HasFields (point S.state self.old) }
        ensures ok { IfOk result (Goes S.state
            (λ p part. within_array p o index (at_place p part then.entry) count) self.old self.new) }
        ensures light { IfOk result (Leaves S.state 0 self.old self.new) }
        ensures err { OnErr result (FailsIn S.state self.old self.new) }
    {
        match u32::try_from(index) {
            Ok(at) => {
                if at < count {
                    self.at_place(Place::Cell(o, at), then)
                } else {
                    self.trap(BuiltIn::ArrayIndexOutOfBoundsException)
                }
            }
            Err(_) => self.trap(BuiltIn::ArrayIndexOutOfBoundsException),
        }
    }
}
