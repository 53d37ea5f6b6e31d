//! Calls of methods.

ghost use Rattle.std.specs.Prelude.{◌≡◌, ◌+◌, ◌*◌, ◌<◌, ◌++◌, [], IfOk, None, OnOk, OnErr, length, map};
ghost use Rattle.heap_arena.specs.Heap.{default_of};
ghost use Rattle.evaluation.specs.Calls.{arguments, built_in_message, construct, dispatch, invoke, most_live, run_method};
ghost use Rattle.evaluation.specs.World.{value_then};
ghost use Rattle.core_tree.specs.Typing.{chosen_number};
ghost use Rattle.interpreter.specs.declared.frame.Callee.TheVariants as callee;
ghost use Rattle.interpreter.specs.Frames.{called_with};
ghost use Rattle.interpreter.specs.Setting.{point, HasFields};
ghost use Rattle.interpreter.specs.Weights.{call_weight};
ghost use Rattle.interpreter.specs.Moves.{Begins, Goes, Leaves, FailsIn};
ghost use Rattle.interpreter.specs.Functions.{dispatch_at};

use crate::frame::{CallEnd, CallFrame, Callee, Focus, Frame, NormalFrame, PlainFrame};
use crate::running::Running;
use core_tree::{BuiltIn, Expr, Method, OutOfMemory, Ty};
use evaluation::{Outcome, Place};
use heap_arena::{Cell, Store};
use object_cells::class_at;
use sqlite_items::{Boxed, Items};

/// A run has at most that many live calls.
pub const MOST_LIVE: u32 = 65_536;

/// The selector of `getMessage`.
const MESSAGE_SELECTOR: u32 = 0;

/// The place of a Throwable's message.
pub const MESSAGE_PLACE: u32 = 0;

impl<'p, S: Store + Drop> Running<'p, S> {
    /// Goes on with the object of a call, whose arguments come next.
    pub fn receiver(
        &mut self,
        object: &'p Boxed<Expr>,
        selector: u32,
        given: &'p Items<Expr>,
    ) -> Result<Focus<'p>, OutOfMemory>
        ensures ok { IfOk result (Goes S.state
            (λ p part w.
            value_then (λ o. arguments p part given.entry.now [] (dispatch p part selector o))
            (part.expr object.entry.now w))
            self.old self.new) }
        ensures light { IfOk result (Leaves S.state 0 self.old self.new) }
        ensures err { OnErr result (FailsIn S.state self.old self.new) }
    {
        self.push(Frame::Call(CallFrame::Receiver(selector, given.as_slice())))?;
        Ok(Focus::Expr(object.get()))
    }

    /// A call of a static method.
    pub fn static_call(&mut self, m: u32, given: &'p Items<Expr>) -> Result<Focus<'p>, OutOfMemory>
        requires fields { HasFields (point S.state self.old) }
        ensures ok { IfOk result (Goes S.state
            (λ p part. arguments p part given.entry.now [] (invoke p part m None)) self.old self.new) }
        ensures light { IfOk result (Leaves S.state 2 self.old self.new) }
        ensures err { OnErr result (FailsIn S.state self.old self.new) }
    {
        self.arguments(Callee::Static(m), given.as_slice(), Items::new(self.alloc))
    }

    /// A call of a method on `this`, whatever the run-time class of `this` is (JLS 15.12.4.4).
    pub fn super_call(&mut self, m: u32, given: &'p Items<Expr>) -> Result<Focus<'p>, OutOfMemory>
        requires fields { HasFields (point S.state self.old) }
        ensures ok { IfOk result (Goes S.state
            (λ p part w. arguments p part given.entry.now [] (invoke p part m w.this) w) self.old self.new) }
        ensures light { IfOk result (Leaves S.state 2 self.old self.new) }
        ensures err { OnErr result (FailsIn S.state self.old self.new) }
    {
        self.arguments(
            Callee::Super(m, self.this),
            given.as_slice(),
            Items::new(self.alloc),
        )
    }

    /// The run of a superclass's constructor for an object, for which that many superclasses may come.
    pub fn parent_call(
        &mut self,
        k: u32,
        o: u32,
        given: &'p Items<Expr>,
        levels: usize,
    ) -> Result<Focus<'p>, OutOfMemory>
        requires fields { HasFields (point S.state self.old) }
        ensures ok { IfOk result (Goes S.state
            (λ p part. arguments p part given.entry.now [] (construct p part levels k o)) self.old self.new) }
        ensures light { IfOk result (Leaves S.state (6 * (levels + 1) + 2) self.old self.new) }
        ensures err { OnErr result (FailsIn S.state self.old self.new) }
    {
        self.arguments(
            Callee::Parent(k, o, levels),
            given.as_slice(),
            Items::new(self.alloc),
        )
    }

    /// Arguments from left to right after those that are there, and then the call (JLS 15.7.4).
    pub fn arguments(
        &mut self,
        callee: Callee,
        given: &'p [Expr],
        got: Items<Cell<u32>>,
    ) -> Result<Focus<'p>, OutOfMemory>
        requires fields { HasFields (point S.state self.old) }
        ensures ok { IfOk result (Goes S.state
            (λ p part. arguments p part given.entry.now got (called_with p part callee)) self.old self.new) }
        ensures light { IfOk result (Leaves S.state
            (call_weight (length self.old.program.now.classes) callee) self.old self.new) }
        ensures err { OnErr result (FailsIn S.state self.old self.new) }
    {
        match given {
            [] => self.call(callee, got),
            [first, others @ ..] => {
                self.push(Frame::Call(CallFrame::Argument(callee, others, got)))?;
                Ok(Focus::Expr(first))
            }
        }
    }

    // A call whose arguments are there.
    fn call(&mut self, callee: Callee, got: Items<Cell<u32>>) -> Result<Focus<'p>, OutOfMemory>
        requires fields { HasFields (point S.state self.old) }
        ensures ok { IfOk result (Goes S.state (λ p part. called_with p part callee got) self.old self.new) }
        ensures light { IfOk result (Leaves S.state
            (call_weight (length self.old.program.now.classes) callee) self.old self.new) }
        ensures err { OnErr result (FailsIn S.state self.old self.new) }
    {
        match callee {
            Callee::Static(m) => self.invoke(m, None, got),
            Callee::Chosen(selector, object) => self.dispatch(selector, object, got),
            Callee::Super(m, this) => self.invoke(m, this, got),
            Callee::New(k, o) => self.construct_new(k, o, got),
            Callee::Parent(k, o, levels) => self.construct_parent(k, o, got, levels),
        }
    }

    // The run of the constructor for an object of a subclass.
    fn construct_parent(
        &mut self,
        k: u32,
        o: u32,
        got: Items<Cell<u32>>,
        levels: usize,
    ) -> Result<Focus<'p>, OutOfMemory>
        ensures ok { IfOk result (Goes S.state (λ p part. construct p part levels k o got) self.old self.new) }
        ensures light { IfOk result (Leaves S.state
            (call_weight (length self.old.program.now.classes) (callee.Parent k o levels)) self.old self.new) }
        ensures err { OnErr result (FailsIn S.state self.old self.new) }
    {
        Ok(Focus::Construct(k, o, got, levels))
    }

    // The run of the constructor for a new object, which is then the value.
    fn construct_new(
        &mut self,
        k: u32,
        o: u32,
        got: Items<Cell<u32>>,
    ) -> Result<Focus<'p>, OutOfMemory>
        ensures ok { IfOk result (Goes S.state (λ p part. called_with p part (callee.New k o) got) self.old self.new) }
        ensures light { IfOk result (Leaves S.state
            (call_weight (length self.old.program.now.classes) (callee.New k o)) self.old self.new) }
        ensures err { OnErr result (FailsIn S.state self.old self.new) }
    {
        let levels = self.program.classes.len();
        self.push(Frame::Normal(NormalFrame::New(o)))?;
        Ok(Focus::Construct(k, o, got, levels))
    }

    /// A call of the method that the selector picks in the run-time class of the object (JLS 15.12.4.4).
    pub fn dispatch(
        &mut self,
        selector: u32,
        object: Cell<u32>,
        got: Items<Cell<u32>>,
    ) -> Result<Focus<'p>, OutOfMemory>
        requires fields { HasFields (point S.state self.old) }
        ensures ok { IfOk result (Goes S.state (λ p part. dispatch p part selector object got) self.old self.new) }
        ensures light { IfOk result (Leaves S.state 2 self.old self.new) }
        ensures err { OnErr result (FailsIn S.state self.old self.new) }
    {
        match object {
            Cell::Null => self.trap(BuiltIn::NullPointerException),
            Cell::Ref(o) => self.dispatch_at(selector, o, got),
            Cell::Int(_) | Cell::Bool(_) | Cell::Text(_) => self.end(Outcome::Stuck),
        }
    }

    // The same on the object at a position.
    fn dispatch_at(
        &mut self,
        selector: u32,
        o: u32,
        got: Items<Cell<u32>>,
    ) -> Result<Focus<'p>, OutOfMemory>
        requires fields { HasFields (point S.state self.old) }
        ensures ok { IfOk result (Goes S.state (λ p part. dispatch_at p part selector o got) self.old self.new) }
        ensures light { IfOk result (Leaves S.state 2 self.old self.new) }
        ensures err { OnErr result (FailsIn S.state self.old self.new) }
    {
        match class_at(&self.store, o) {
            Some(class) => match self.chosen(class, selector) {
                Some(m) => self.invoke(m, Some(o), got),
                None => self.built_in_message(selector, o),
            },
            None => self.end(Outcome::Stuck),
        }
    }

    // The number of the method that a selector picks in a class.
    fn chosen(&self, class: u32, selector: u32) -> Option<u32>
        ensures { result ≡ chosen_number self.now.program.now class selector }
    {
        *self
            .program
            .classes
            .get(class as usize)?
            .chosen
            .get(selector as usize)?
    }

    // A selector that picks no method: `getMessage` reads the message.
    fn built_in_message(&mut self, selector: u32, o: u32) -> Result<Focus<'p>, OutOfMemory>
        ensures ok { IfOk result (Goes S.state (λ p part. built_in_message p part selector o) self.old self.new) }
        ensures light { IfOk result (Leaves S.state 0 self.old self.new) }
        ensures err { OnErr result (FailsIn S.state self.old self.new) }
    {
        if selector == MESSAGE_SELECTOR {
            self.read_place(Place::Cell(o, MESSAGE_PLACE))
        } else {
            self.end(Outcome::Stuck)
        }
    }

    /// A call of the method with this number.
    pub fn invoke(
        &mut self,
        m: u32,
        this: Option<u32>,
        got: Items<Cell<u32>>,
    ) -> Result<Focus<'p>, OutOfMemory>
        requires fields { HasFields (point S.state self.old) }
        ensures ok { IfOk result (Goes S.state (λ p part. invoke p part m this got) self.old self.new) }
        ensures light { IfOk result (Leaves S.state 2 self.old self.new) }
        ensures err { OnErr result (FailsIn S.state self.old self.new) }
    {
        match self.program.methods.get(m as usize) {
            Some(method) => self.run_method(method, this, got),
            None => self.end(Outcome::Stuck),
        }
    }

    // The body of a method, or StackOverflowError where too many calls are live.
    fn run_method(
        &mut self,
        method: &'p Method,
        this: Option<u32>,
        got: Items<Cell<u32>>,
    ) -> Result<Focus<'p>, OutOfMemory>
        requires fields { HasFields (point S.state self.old) }
        ensures ok { IfOk result (Goes S.state
            (λ p part. run_method p part method.entry.now this got) self.old self.new) }
        ensures light { IfOk result (Leaves S.state 2 self.old self.new) }
        ensures err { OnErr result (FailsIn S.state self.old self.new) }
    {
        if self.live < MOST_LIVE {
            self.begin(CallEnd::Method(&method.answer), this, got, &method.locals)?;
            self.block(method.body.as_slice())
        } else {
            self.trap(BuiltIn::StackOverflowError)
        }
    }

    /// Begins a body with its own `this` and locals: the arguments first, then defaults.
    pub fn begin(
        &mut self,
        end: CallEnd<'p>,
        this: Option<u32>,
        got: Items<Cell<u32>>,
        locals: &Items<Ty>,
    ) -> Result<(), OutOfMemory>
        requires { self.old.live < most_live }
        ensures ok { OnOk result (Begins end.entry this (got ++ map default_of locals.now)
            (point S.state self.old) (point S.state self.new)) }
        ensures err { OnErr result (FailsIn S.state self.old self.new) }
    {
        let locals = with_defaults(got, locals.as_slice())?;
        let callers = std::mem::replace(&mut self.locals, locals);
        self.push(Frame::Plain(PlainFrame::Leave(end, self.this, callers)))?;
        self.this = this;
        self.live += 1;
        Ok(())
    }
}

/// The arguments, followed by the defaults of these types.
pub fn with_defaults(got: Items<Cell<u32>>, types: &[Ty]) -> Result<Items<Cell<u32>>, OutOfMemory>
    ensures { IfOk result (λ locals. locals ≡ got ++ map default_of types.now) }
{
    let mut locals = got;
    for ty in types {
        locals.push(default_of(ty))?;
    }
    Ok(locals)
}

/// The value with which a field, an element or a local of a type begins (JLS 4.12.5).
pub fn default_of(ty: &Ty) -> Cell<u32>
    ensures { result ≡ default_of ty.now }
{
    match ty {
        Ty::Int => Cell::Int(0),
        Ty::Bool => Cell::Bool(false),
        _ => Cell::Null,
    }
}
