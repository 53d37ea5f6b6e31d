//! Reading and writing what assignments write to.

ghost use Rattle.std.specs.Prelude.{◌≡◌, IfOk, OnErr, Some};
ghost use Rattle.evaluation.specs.Values.{update_value};
ghost use Rattle.evaluation.specs.Objects.{computed, read_cell, read_place, store, write_cell, write_place};
ghost use Rattle.evaluation.specs.Execute.{update_place};
ghost use Rattle.interpreter.specs.Setting.{point, HasFields};
ghost use Rattle.interpreter.specs.Moves.{Goes, Leaves, FailsIn};
ghost use Rattle.interpreter.specs.Functions.{may_store, place_value, updated, updated_with};

use crate::frame::{Focus, ValueFrame};
use crate::running::Running;
use core_tree::{BuiltIn, Expr, OutOfMemory, UpOp, What};
use evaluation::{Computed, Outcome, Place};
use heap_arena::{Cell, Store};
use object_cells::{cell, elements_at, object_fits, write};
use sqlite_items::Boxed;
use value_operators::update_value;

impl<'p, S: Store + Drop> Running<'p, S> {
    /// The value at a place, or `None` where there is no such place.
    pub fn value_at(&self, place: Place) -> Result<Option<Cell<u32>>, OutOfMemory>
        ensures { IfOk result (λ v. v ≡ place_value self.now.locals (S.state self.now.store).now place) }
    {
        match place {
            Place::Local(at) => match self.locals.get(at as usize) {
                Some(v) => Ok(Some(v.copy()?)),
                None => Ok(None),
            },
            Place::Cell(o, at) => cell(&self.store, o, at),
        }
    }

    /// The value at a place.
    pub fn read_place(&mut self, place: Place) -> Result<Focus<'p>, OutOfMemory>
        ensures ok { IfOk result (Goes S.state (λ p part. read_place place) self.old self.new) }
        ensures light { IfOk result (Leaves S.state 0 self.old self.new) }
        ensures err { OnErr result (FailsIn S.state self.old self.new) }
    {
        match self.value_at(place)? {
            Some(v) => Ok(Focus::Answer(Outcome::Value(v))),
            None => Ok(Focus::Answer(Outcome::Stuck)),
        }
    }

    /// Gives a cell of an object a value.
    pub fn write_cell(&mut self, o: u32, at: u32, v: Cell<u32>) -> Result<Focus<'p>, OutOfMemory>
        ensures ok { IfOk result (Goes S.state (λ p part. write_cell o at v) self.old self.new) }
        ensures light { IfOk result (Leaves S.state 0 self.old self.new) }
        ensures err { OnErr result (FailsIn S.state self.old self.new) }
    {
        if write(&mut self.store, o, at, v)? {
            Ok(Focus::Answer(Outcome::Normal))
        } else {
            Ok(Focus::Answer(Outcome::Stuck))
        }
    }

    /// The same, where the place may be any number.
    pub fn write_at(&mut self, o: u32, at: usize, v: Cell<u32>) -> Result<Focus<'p>, OutOfMemory>
        ensures ok { IfOk result (Goes S.state (λ p part. write_cell o at v) self.old self.new) }
        ensures light { IfOk result (Leaves S.state 0 self.old self.new) }
        ensures err { OnErr result (FailsIn S.state self.old self.new) }
    {
        match u32::try_from(at) {
            Ok(at) => self.write_cell(o, at, v),
            Err(_) => self.end(Outcome::Stuck),
        }
    }

    // Whether a value may be a cell of an object: an array takes what fits its elements (JLS 10.5).
    fn may_store(&self, o: u32, v: &Cell<u32>) -> bool
        ensures { result ≡ may_store self.now.program.now (S.state self.now.store).now o v.now }
    {
        match elements_at(&self.store, o) {
            Some(elements) => match v {
                Cell::Ref(position) => object_fits(self.program, &self.store, *position, elements),
                Cell::Int(_) | Cell::Bool(_) | Cell::Null | Cell::Text(_) => true,
            },
            None => true,
        }
    }

    // Gives a field or an element a value (JLS 10.5).
    fn store_cell(&mut self, o: u32, at: u32, v: Cell<u32>) -> Result<Focus<'p>, OutOfMemory>
        requires fields { HasFields (point S.state self.old) }
        ensures ok { IfOk result (Goes S.state (λ p part. store p o at v) self.old self.new) }
        ensures light { IfOk result (Leaves S.state 0 self.old self.new) }
        ensures err { OnErr result (FailsIn S.state self.old self.new) }
    {
        if self.may_store(o, &v) {
            self.write_cell(o, at, v)
        } else {
            self.trap(BuiltIn::ArrayStoreException)
        }
    }

    /// Gives what an assignment writes to a value.
    pub fn write_place(&mut self, place: Place, v: Cell<u32>) -> Result<Focus<'p>, OutOfMemory>
        requires fields { HasFields (point S.state self.old) }
        ensures ok { IfOk result (Goes S.state (λ p part. write_place p place v) self.old self.new) }
        ensures light { IfOk result (Leaves S.state 0 self.old self.new) }
        ensures err { OnErr result (FailsIn S.state self.old self.new) }
    {
        match place {
            Place::Local(at) => self.write_local(at, v),
            Place::Cell(o, at) => self.store_cell(o, at, v),
        }
    }

    /// A compound assignment to a place: its old value is read before the other operand is evaluated (JLS 15.26.2).
    pub fn update_place(
        &mut self,
        op: UpOp,
        operand: &'p Option<Boxed<Expr>>,
        place: Place,
    ) -> Result<Focus<'p>, OutOfMemory>
        requires fields { HasFields (point S.state self.old) }
        ensures ok { IfOk result (Goes S.state
            (λ p part. update_place p part op operand.entry.now place) self.old self.new) }
        ensures light { IfOk result (Leaves S.state 0 self.old self.new) }
        ensures err { OnErr result (FailsIn S.state self.old self.new) }
    {
        match self.value_at(place)? {
            Some(old) => self.update_with(op, old, place, operand),
            None => self.end(Outcome::Stuck),
        }
    }

    // Goes on with the other operand of a compound assignment, or with 1.
    fn update_with(
        &mut self,
        op: UpOp,
        old: Cell<u32>,
        place: Place,
        operand: &'p Option<Boxed<Expr>>,
    ) -> Result<Focus<'p>, OutOfMemory>
        requires fields { HasFields (point S.state self.old) }
        ensures ok { IfOk result (Goes S.state
            (λ p part. updated_with p part op old place operand.entry.now) self.old self.new) }
        ensures light { IfOk result (Leaves S.state 0 self.old self.new) }
        ensures err { OnErr result (FailsIn S.state self.old self.new) }
    {
        match operand {
            Some(e) => self.update_by(op, old, place, e),
            None => self.update(op, old, place, Cell::Int(1)),
        }
    }

    // Goes on with the other operand of a compound assignment.
    fn update_by(
        &mut self,
        op: UpOp,
        old: Cell<u32>,
        place: Place,
        operand: &'p Boxed<Expr>,
    ) -> Result<Focus<'p>, OutOfMemory>
        ensures ok { IfOk result (Goes S.state
            (λ p part. updated_with p part op old place (Some operand.entry.now)) self.old self.new) }
        ensures light { IfOk result (Leaves S.state 0 self.old self.new) }
        ensures err { OnErr result (FailsIn S.state self.old self.new) }
    {
        self.value_of(operand, ValueFrame::Update(op, old, place))
    }

    /// Gives a place what the operator makes of its old value and the other operand.
    pub fn update(
        &mut self,
        op: UpOp,
        old: Cell<u32>,
        place: Place,
        v: Cell<u32>,
    ) -> Result<Focus<'p>, OutOfMemory>
        requires fields { HasFields (point S.state self.old) }
        ensures ok { IfOk result (Goes S.state (λ p part. updated p op old place v) self.old self.new) }
        ensures light { IfOk result (Leaves S.state 0 self.old self.new) }
        ensures err { OnErr result (FailsIn S.state self.old self.new) }
    {
        match update_value(self.alloc, op, &old, &v)? {
            Computed::Gives(v) => self.write_place(place, v),
            Computed::Traps(class) => self.trap(class),
            Computed::TooLong => self.end(Outcome::Full(What::Text)),
            Computed::NoMeaning => self.end(Outcome::Stuck),
        }
    }
}
