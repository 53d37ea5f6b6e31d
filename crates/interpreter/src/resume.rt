//! What frames make of the outcome of the part above them.

ghost use Rattle.std.specs.Prelude.{IfOk, OnErr, length};
ghost use Rattle.evaluation.specs.Values.{concatenated};
ghost use Rattle.evaluation.specs.Objects.{computed};
ghost use Rattle.evaluation.specs.Calls.{leave};
ghost use Rattle.evaluation.specs.World.{gives, normal_then, value_then};
ghost use Rattle.interpreter.specs.Frames.{ended, followed, passed, plainly, used};
ghost use Rattle.interpreter.specs.Setting.{point, HasFields};
ghost use Rattle.interpreter.specs.Weights.{frame_calling};
ghost use Rattle.interpreter.specs.Moves.{Goes, Leaves, FailsIn};

use crate::frame::{
    CallEnd, CallFrame, Callee, Focus, NormalFrame, PlaceUse, PlainFrame, ValueFrame,
};
use crate::running::Running;
use core_tree::OutOfMemory;
use evaluation::Outcome;
use heap_arena::{Cell, Store};
use sqlite_items::Items;
use value_operators::{binary_value, concatenated, text_equals, text_length, unary_value};

impl<'p, S: Store + Drop> Running<'p, S> {
    /// Goes on with a value.
    pub fn use_value(
        &mut self,
        frame: ValueFrame<'p>,
        v: Cell<u32>,
    ) -> Result<Focus<'p>, OutOfMemory>
        requires fields { HasFields (point S.state self.old) }
        ensures ok { IfOk result (Goes S.state (λ p part. used p part frame.entry v) self.old self.new) }
        ensures light { IfOk result (Leaves S.state 0 self.old self.new) }
        ensures err { OnErr result (FailsIn S.state self.old self.new) }
    {
        match frame {
            ValueFrame::Field(at) => self.with_field(v, at, PlaceUse::Read),
            ValueFrame::Length => self.array_length(v),
            ValueFrame::ElementIndex(e) => self.value_of(e, ValueFrame::Element(v)),
            ValueFrame::Element(a) => self.with_element(a, v, PlaceUse::Read),
            ValueFrame::TextLength => self.come_to(text_length(&v)),
            ValueFrame::EqualsRight(e) => self.value_of(e, ValueFrame::Equals(v)),
            ValueFrame::Equals(s) => self.come_to(text_equals(&s, &v)),
            ValueFrame::NewArray(elements) => self.new_array(elements, v),
            ValueFrame::Unary(op) => self.come_to(unary_value(op, &v)),
            ValueFrame::BinaryRight(op, e) => self.value_of(e, ValueFrame::Binary(op, v)),
            ValueFrame::Binary(op, x) => self.come_to(binary_value(op, &x, &v)),
            ValueFrame::AndRight(e) => self.and_then(v, e),
            ValueFrame::OrRight(e) => self.or_else(v, e),
            ValueFrame::Cond(e, f) => self.choose_value(v, e, f),
            ValueFrame::Cast(to) => self.cast(to, v),
            ValueFrame::Is(of) => self.is_instance(of, v),
            ValueFrame::ConcatRight(e) => self.value_of(e, ValueFrame::Concat(v)),
            ValueFrame::Concat(x) => self.concat(&x, &v),
            ValueFrame::WriteLocal(at) => self.write_local(at, v),
            ValueFrame::AssignField(at, e) => self.value_of(e, ValueFrame::WriteField(v, at)),
            ValueFrame::WriteField(o, at) => self.with_field(o, at, PlaceUse::Write(v)),
            ValueFrame::AssignIndex(i, e) => self.value_of(i, ValueFrame::AssignElement(v, e)),
            ValueFrame::AssignElement(a, e) => { self.value_of(e, ValueFrame::WriteElement(a, v)) }
            ValueFrame::WriteElement(a, i) => self.with_element(a, i, PlaceUse::Write(v)),
            ValueFrame::UpdateField(at, op, e) => self.with_field(v, at, PlaceUse::Update(op, e)),
            ValueFrame::UpdateIndex(i, op, e) => {
                self.value_of(i, ValueFrame::UpdateElement(v, op, e))
            }
            ValueFrame::UpdateElement(a, op, e) => {
                self.with_element(a, v, PlaceUse::Update(op, e))
            }
            ValueFrame::Update(op, x, place) => self.update(op, x, place, v),
            ValueFrame::Discard => self.end(Outcome::Normal),
            ValueFrame::Print(line) => self.print(line, v),
            ValueFrame::If(body, other) => self.choose(v, body, other),
            ValueFrame::LoopTest(parts) => self.tested(parts, v),
            ValueFrame::Return => self.end(Outcome::Return(Some(v))),
            ValueFrame::Throw => self.throw(v),
            ValueFrame::WriteCell(o, at) => self.write_at(o, at, v),
        }
    }

    // The texts of two values, one after the other (JLS 15.18.1).
    fn concat(&mut self, x: &Cell<u32>, y: &Cell<u32>) -> Result<Focus<'p>, OutOfMemory>
        requires fields { HasFields (point S.state self.old) }
        ensures ok { IfOk result (Goes S.state (λ p part. computed p (concatenated x.now y.now)) self.old self.new) }
        ensures light { IfOk result (Leaves S.state 0 self.old self.new) }
        ensures err { OnErr result (FailsIn S.state self.old self.new) }
    {
        let came = concatenated(self.alloc, x, y)?;
        self.come_to(came)
    }

    /// Goes on with a value on the way to a call.
    pub fn pass_value(
        &mut self,
        frame: CallFrame<'p>,
        v: Cell<u32>,
    ) -> Result<Focus<'p>, OutOfMemory>
        requires fields { HasFields (point S.state self.old) }
        ensures ok { IfOk result (Goes S.state (λ p part. passed p part frame.entry v) self.old self.new) }
        ensures light { IfOk result (Leaves S.state
            (frame_calling (length self.old.program.now.classes) frame.entry) self.old self.new) }
        ensures err { OnErr result (FailsIn S.state self.old self.new) }
    {
        match frame {
            CallFrame::Receiver(selector, given) => {
                self.arguments(Callee::Chosen(selector, v), given, Items::new(self.alloc))
            }
            CallFrame::Argument(callee, given, got) => {
                let mut got = got;
                got.push(v)?;
                self.arguments(callee, given, got)
            }
        }
    }

    /// Goes on with an outcome where a value is wanted: every other outcome stands.
    pub fn resume_value(
        &mut self,
        frame: ValueFrame<'p>,
        o: Outcome,
    ) -> Result<Focus<'p>, OutOfMemory>
        requires fields { HasFields (point S.state self.old) }
        ensures ok { IfOk result (Goes S.state
            (λ p part w. value_then (used p part frame.entry) (gives o w)) self.old self.new) }
        ensures light { IfOk result (Leaves S.state 0 self.old self.new) }
        ensures err { OnErr result (FailsIn S.state self.old self.new) }
    {
        match o {
            Outcome::Value(v) => self.use_value(frame, v),
            Outcome::Normal
            | Outcome::Return(_)
            | Outcome::Break
            | Outcome::Continue
            | Outcome::Throw(_)
            | Outcome::Spent
            | Outcome::Full(_)
            | Outcome::Stuck => self.end(o),
        }
    }

    /// Goes on with an outcome where a value is wanted on the way to a call.
    pub fn resume_call(
        &mut self,
        frame: CallFrame<'p>,
        o: Outcome,
    ) -> Result<Focus<'p>, OutOfMemory>
        requires fields { HasFields (point S.state self.old) }
        ensures ok { IfOk result (Goes S.state
            (λ p part w. value_then (passed p part frame.entry) (gives o w)) self.old self.new) }
        ensures light { IfOk result (Leaves S.state
            (frame_calling (length self.old.program.now.classes) frame.entry) self.old self.new) }
        ensures err { OnErr result (FailsIn S.state self.old self.new) }
    {
        match o {
            Outcome::Value(v) => self.pass_value(frame, v),
            Outcome::Normal
            | Outcome::Return(_)
            | Outcome::Break
            | Outcome::Continue
            | Outcome::Throw(_)
            | Outcome::Spent
            | Outcome::Full(_)
            | Outcome::Stuck => self.end(o),
        }
    }

    /// Goes on with an outcome where a part has to end normally: every other outcome stands.
    pub fn resume_normal(
        &mut self,
        frame: NormalFrame<'p>,
        o: Outcome,
    ) -> Result<Focus<'p>, OutOfMemory>
        ensures ok { IfOk result (Goes S.state
            (λ p part w. normal_then (followed p part frame.entry) (gives o w)) self.old self.new) }
        ensures light { IfOk result (Leaves S.state 0 self.old self.new) }
        ensures err { OnErr result (FailsIn S.state self.old self.new) }
    {
        match o {
            Outcome::Normal => self.follow(frame),
            Outcome::Value(_)
            | Outcome::Return(_)
            | Outcome::Break
            | Outcome::Continue
            | Outcome::Throw(_)
            | Outcome::Spent
            | Outcome::Full(_)
            | Outcome::Stuck => self.end(o),
        }
    }

    // Goes on after a part that ended normally.
    fn follow(&mut self, frame: NormalFrame<'p>) -> Result<Focus<'p>, OutOfMemory>
        ensures ok { IfOk result (Goes S.state (λ p part. followed p part frame.entry) self.old self.new) }
        ensures light { IfOk result (Leaves S.state 0 self.old self.new) }
        ensures err { OnErr result (FailsIn S.state self.old self.new) }
    {
        match frame {
            NormalFrame::Rest(statements) => self.block(statements),
            NormalFrame::FirstTurn(parts) => self.turn(parts),
            NormalFrame::New(o) => self.end(Outcome::Value(Cell::Ref(o))),
            NormalFrame::Parent(o, maker) => self.built(o, maker),
            NormalFrame::Fields(o, class, next, fields) => self.initialise(o, class, next, fields),
        }
    }

    /// Goes on with any outcome of a part.
    pub fn resume_plain(
        &mut self,
        frame: PlainFrame<'p>,
        o: Outcome,
    ) -> Result<Focus<'p>, OutOfMemory>
        ensures ok { IfOk result (Goes S.state (λ p part w. plainly p part frame.entry (gives o w)) self.old self.new) }
        ensures light { IfOk result (Leaves S.state 0 self.old self.new) }
        ensures err { OnErr result (FailsIn S.state self.old self.new) }
    {
        match frame {
            PlainFrame::Leave(end, this, locals) => self.leave(end, this, locals, o),
            PlainFrame::Catching(catches) => self.catch(catches, o),
            PlainFrame::Finally(last) => self.finish(last, o),
            PlainFrame::Finished(earlier) => self.keep(earlier, o),
        }
    }

    // The caller's `this` and locals again, with what the call gives.
    fn leave(
        &mut self,
        end: CallEnd<'p>,
        this: Option<u32>,
        locals: Items<Cell<u32>>,
        o: Outcome,
    ) -> Result<Focus<'p>, OutOfMemory>
        ensures ok { IfOk result (Goes S.state
            (λ p part w. leave (ended end.entry) this locals (gives o w)) self.old self.new) }
        ensures light { IfOk result (Leaves S.state 0 self.old self.new) }
        ensures err { OnErr result (FailsIn S.state self.old self.new) }
    {
        self.this = this;
        self.locals = locals;
        self.live = self.live.saturating_sub(1);
        Ok(Focus::Answer(end.outcome(o)))
    }
}
