//! Making and throwing objects, and what computations come to.

ghost use Rattle.std.specs.Prelude.{IfOk, OnErr};
ghost use Rattle.heap_arena.specs.declared.cell.Cell.TheVariants as value;
ghost use Rattle.heap_arena.specs.declared.kind.Kind.TheVariants as kind;
ghost use Rattle.heap_arena.specs.Heap.{FitsKind};
ghost use Rattle.evaluation.specs.declared.outcome.Outcome.TheVariants as outcome;
ghost use Rattle.evaluation.specs.World.{gives};
ghost use Rattle.evaluation.specs.Objects.{computed, make, make_instance, new_array, trap};
ghost use Rattle.interpreter.specs.Setting.{point, HasFields};
ghost use Rattle.interpreter.specs.Moves.{Goes, Leaves, FailsIn, Makes};

use crate::frame::{Focus, Made};
use crate::running::Running;
use core_tree::{BuiltIn, OutOfMemory, Ty, What};
use evaluation::{Computed, Outcome};
use heap_arena::{Cell, Kind, MakeError, Store};

impl<'p, S: Store + Drop> Running<'p, S> {
    /// Makes an object of a kind, where its cells have room.
    pub fn make(&mut self, kind: Kind, cells: u32) -> Result<Made, OutOfMemory>
        requires fields { HasFields (point S.state self.old) }
        requires kind { FitsKind (S.state self.old.store).field_types kind cells }
        ensures ok { IfOk result (Makes (make self.old.program.now kind cells)
            (point S.state self.old) (point S.state self.new)) }
        ensures err { OnErr result (FailsIn S.state self.old self.new) }
    {
        match object_cells::make(&mut self.store, kind, cells) {
            Ok(position) => Ok(Made::Object(position)),
            Err(MakeError::Full) => Ok(Made::Ended(Outcome::Full(What::Cells))),
            Err(MakeError::OutOfMemory) => Err(OutOfMemory),
        }
    }

    /// Makes an instance of a class, each field with its default.
    pub fn make_instance(&mut self, class: u32) -> Result<Made, OutOfMemory>
        requires fields { HasFields (point S.state self.old) }
        ensures ok { IfOk result (Makes (make_instance self.old.program.now class)
            (point S.state self.old) (point S.state self.new)) }
        ensures err { OnErr result (FailsIn S.state self.old self.new) }
    {
        match self.program.classes.get(class as usize) {
            Some(row) => match u32::try_from(row.fields.len()) {
                Ok(cells) => self.make(Kind::Instance(class), cells),
                Err(_) => Ok(Made::Ended(Outcome::Full(What::Cells))),
            },
            None => Ok(Made::Ended(Outcome::Stuck)),
        }
    }

    /// Makes an exception of a built-in class and throws it.
    pub fn trap(&mut self, class: BuiltIn) -> Result<Focus<'p>, OutOfMemory>
        requires fields { HasFields (point S.state self.old) }
        ensures ok { IfOk result (Goes S.state (λ p part. trap p class) self.old self.new) }
        ensures light { IfOk result (Leaves S.state 0 self.old self.new) }
        ensures err { OnErr result (FailsIn S.state self.old self.new) }
    {
        match self.make_instance(class.number())? {
            Made::Object(o) => Ok(Focus::Answer(Outcome::Throw(o))),
            Made::Ended(o) => Ok(Focus::Answer(o)),
        }
    }

    /// Goes on as a computation came out.
    pub fn come_to(&mut self, came: Computed) -> Result<Focus<'p>, OutOfMemory>
        requires fields { HasFields (point S.state self.old) }
        ensures ok { IfOk result (Goes S.state (λ p part. computed p came) self.old self.new) }
        ensures light { IfOk result (Leaves S.state 0 self.old self.new) }
        ensures err { OnErr result (FailsIn S.state self.old self.new) }
    {
        match came {
            Computed::Gives(v) => self.end(Outcome::Value(v)),
            Computed::Traps(class) => self.trap(class),
            Computed::TooLong => self.end(Outcome::Full(What::Text)),
            Computed::NoMeaning => self.end(Outcome::Stuck),
        }
    }

    /// Makes an array (JLS 15.10.1).
    pub fn new_array(&mut self, elements: &Ty, count: Cell<u32>) -> Result<Focus<'p>, OutOfMemory>
        requires fields { HasFields (point S.state self.old) }
        ensures ok { IfOk result (Goes S.state (λ p part. new_array p elements.now count) self.old self.new) }
        ensures light { IfOk result (Leaves S.state 0 self.old self.new) }
        ensures err { OnErr result (FailsIn S.state self.old self.new) }
    {
        match count {
            Cell::Int(count) => match u32::try_from(count) {
                Ok(count) => self.make_array(elements, count),
                Err(_) => self.trap(BuiltIn::NegativeArraySizeException),
            },
            Cell::Bool(_) | Cell::Null | Cell::Ref(_) | Cell::Text(_) => self.end(Outcome::Stuck),
        }
    }

    // Makes an array with that many elements.
    fn make_array(&mut self, elements: &Ty, count: u32) -> Result<Focus<'p>, OutOfMemory>
        requires fields { HasFields (point S.state self.old) }
        ensures ok { IfOk result (Goes S.state
            (λ p part. make p (kind.Array elements.now) count (λ o. gives (outcome.Value (value.Ref o))))
            self.old self.new) }
        ensures light { IfOk result (Leaves S.state 0 self.old self.new) }
        ensures err { OnErr result (FailsIn S.state self.old self.new) }
    {
        let kind = Kind::Array(elements.copy(self.alloc)?);
        match self.make(kind, count)? {
            Made::Object(o) => Ok(Focus::Answer(Outcome::Value(Cell::Ref(o)))),
            Made::Ended(o) => Ok(Focus::Answer(o)),
        }
    }
}
