//! New objects and their constructors (JLS 12.5, 15.9.4).

ghost use Rattle.std.specs.Prelude.{◌≡◌, ◌+◌, ◌*◌, IfOk, OnErr, Some, drop, length, option_map};
ghost use Rattle.evaluation.specs.Calls.{build, build_parent, construct, initialise};
ghost use Rattle.evaluation.specs.Objects.{make_instance};
ghost use Rattle.evaluation.specs.Evaluate.{new_object, new_built_in};
ghost use Rattle.interpreter.specs.Frames.{built};
ghost use Rattle.interpreter.specs.Setting.{point, HasFields};
ghost use Rattle.interpreter.specs.Weights.{entry_weight};
ghost use Rattle.interpreter.specs.Moves.{Goes, Leaves, FailsIn, Adds};
ghost use Rattle.interpreter.specs.Functions.{messaged, new_from, run_maker};
ghost use Rattle.interpreter.specs.Starts.{initialised_then, next_start, start_of, started};

use crate::calls::{MESSAGE_PLACE, MOST_LIVE};
use crate::frame::{CallEnd, Callee, Focus, Frame, Made, NormalFrame, ValueFrame};
use crate::running::Running;
use crate::start::Start;
use core_tree::{BuiltIn, Expr, Field, Maker, OutOfMemory, Parent, Stmt};
use evaluation::Outcome;
use heap_arena::{Cell, Store};
use sqlite_items::{Boxed, Items};

impl<'p, S: Store + Drop> Running<'p, S> {
    /// A new object of a class of the file: it is made before its arguments are evaluated.
    pub fn new_object(&mut self, k: u32, given: &'p Items<Expr>) -> Result<Focus<'p>, OutOfMemory>
        requires fields { HasFields (point S.state self.old) }
        ensures ok { IfOk result (Goes S.state (λ p part. new_object p part k given.entry.now) self.old self.new) }
        ensures light { IfOk result (Leaves S.state
            (entry_weight (length self.old.program.now.classes)) self.old self.new) }
        ensures err { OnErr result (FailsIn S.state self.old self.new) }
    {
        match self.program.makers.get(k as usize) {
            Some(maker) => self.new_instance(k, maker.owner, given),
            None => self.end(Outcome::Stuck),
        }
    }

    // A new instance of a class, by the constructor with this number.
    fn new_instance(
        &mut self,
        k: u32,
        class: u32,
        given: &'p Items<Expr>,
    ) -> Result<Focus<'p>, OutOfMemory>
        requires fields { HasFields (point S.state self.old) }
        ensures ok { IfOk result (Goes S.state
            (λ p part. make_instance p class (new_from p part k given.entry.now)) self.old self.new) }
        ensures light { IfOk result (Leaves S.state
            (entry_weight (length self.old.program.now.classes)) self.old self.new) }
        ensures err { OnErr result (FailsIn S.state self.old self.new) }
    {
        match self.make_instance(class)? {
            Made::Object(o) => {
                let got = Items::new(self.alloc);
                self.arguments(Callee::New(k, o), given.as_slice(), got)
            }
            Made::Ended(o) => Ok(Focus::Answer(o)),
        }
    }

    /// A new object of a built-in class.
    pub fn new_built_in(
        &mut self,
        class: u32,
        message: &'p Option<Boxed<Expr>>,
    ) -> Result<Focus<'p>, OutOfMemory>
        requires fields { HasFields (point S.state self.old) }
        ensures ok { IfOk result (Goes S.state
            (λ p part. new_built_in p part class message.entry.now) self.old self.new) }
        ensures light { IfOk result (Leaves S.state 0 self.old self.new) }
        ensures err { OnErr result (FailsIn S.state self.old self.new) }
    {
        match self.make_instance(class)? {
            Made::Object(o) => self.with_message(o, message),
            Made::Ended(o) => Ok(Focus::Answer(o)),
        }
    }

    // The message of a new object, which is then the value.
    fn with_message(
        &mut self,
        o: u32,
        message: &'p Option<Boxed<Expr>>,
    ) -> Result<Focus<'p>, OutOfMemory>
        ensures ok { IfOk result (Goes S.state (λ p part. messaged part o message.entry.now) self.old self.new) }
        ensures light { IfOk result (Leaves S.state 0 self.old self.new) }
        ensures err { OnErr result (FailsIn S.state self.old self.new) }
    {
        match message {
            Some(e) => self.with_text(o, e),
            None => self.end(Outcome::Value(Cell::Ref(o))),
        }
    }

    // The same with a message.
    fn with_text(&mut self, o: u32, e: &'p Boxed<Expr>) -> Result<Focus<'p>, OutOfMemory>
        ensures ok { IfOk result (Goes S.state (λ p part. messaged part o (Some e.entry.now)) self.old self.new) }
        ensures light { IfOk result (Leaves S.state 0 self.old self.new) }
        ensures err { OnErr result (FailsIn S.state self.old self.new) }
    {
        self.push(Frame::Normal(NormalFrame::New(o)))?;
        self.value_of(e, ValueFrame::WriteCell(o, MESSAGE_PLACE as usize))
    }

    /// The run of the constructor with this number.
    pub fn construct(
        &mut self,
        k: u32,
        o: u32,
        got: Items<Cell<u32>>,
        levels: usize,
    ) -> Result<Focus<'p>, OutOfMemory>
        requires fields { HasFields (point S.state self.old) }
        ensures ok { IfOk result (Goes S.state (λ p part. construct p part levels k o got) self.old self.new) }
        ensures light { IfOk result (Leaves S.state (6 * (levels + 1)) self.old self.new) }
        ensures err { OnErr result (FailsIn S.state self.old self.new) }
    {
        if levels == 0 {
            return self.end(Outcome::Stuck);
        }
        match self.program.makers.get(k as usize) {
            Some(maker) => self.run_maker(maker, o, got, levels - 1),
            None => self.end(Outcome::Stuck),
        }
    }

    // The body of a constructor for which that many superclasses may come.
    fn run_maker(
        &mut self,
        maker: &'p Maker,
        o: u32,
        got: Items<Cell<u32>>,
        levels: usize,
    ) -> Result<Focus<'p>, OutOfMemory>
        requires fields { HasFields (point S.state self.old) }
        ensures ok { IfOk result (Goes S.state
            (λ p part. run_maker p part levels maker.entry.now o got) self.old self.new) }
        ensures light { IfOk result (Leaves S.state (6 * (levels + 1) + 6) self.old self.new) }
        ensures err { OnErr result (FailsIn S.state self.old self.new) }
    {
        if self.live < MOST_LIVE {
            self.begin(CallEnd::Constructor, Some(o), got, &maker.locals)?;
            self.build(o, maker, levels)
        } else {
            self.trap(BuiltIn::StackOverflowError)
        }
    }

    // The superclass of a constructor, and what comes after it.
    fn build(&mut self, o: u32, maker: &'p Maker, levels: usize) -> Result<Focus<'p>, OutOfMemory>
        requires fields { HasFields (point S.state self.old) }
        ensures ok { IfOk result (Goes S.state
            (λ p part. build p part (construct p part levels) o maker.entry.now) self.old self.new) }
        ensures light { IfOk result (Leaves S.state (6 * (levels + 1) + 4) self.old self.new) }
        ensures err { OnErr result (FailsIn S.state self.old self.new) }
    {
        self.push(Frame::Normal(NormalFrame::Parent(o, maker)))?;
        self.build_parent(o, &maker.parent, levels)
    }

    // What a constructor does with the superclass.
    fn build_parent(
        &mut self,
        o: u32,
        parent: &'p Parent,
        levels: usize,
    ) -> Result<Focus<'p>, OutOfMemory>
        requires fields { HasFields (point S.state self.old) }
        ensures ok { IfOk result (Goes S.state
            (λ p part. build_parent p part (construct p part levels) o parent.entry.now) self.old self.new) }
        ensures light { IfOk result (Leaves S.state (6 * (levels + 1) + 2) self.old self.new) }
        ensures err { OnErr result (FailsIn S.state self.old self.new) }
    {
        match parent {
            Parent::Plain => self.end(Outcome::Normal),
            Parent::Message(message) => match message {
                Some(e) => { self.value_of(e, ValueFrame::WriteCell(o, MESSAGE_PLACE as usize)) }
                None => self.end(Outcome::Normal),
            },
            Parent::Maker(k, given) => self.parent_call(*k, o, given, levels),
        }
    }

    /// What is left of a constructor after its superclass: the field initialisers and the body.
    pub fn built(&mut self, o: u32, maker: &'p Maker) -> Result<Focus<'p>, OutOfMemory>
        ensures ok { IfOk result (Goes S.state (λ p part. built p part o maker.entry.now) self.old self.new) }
        ensures light { IfOk result (Leaves S.state 0 self.old self.new) }
        ensures err { OnErr result (FailsIn S.state self.old self.new) }
    {
        match self.program.classes.get(maker.owner as usize) {
            Some(class) => self.initialise_then(o, maker.owner, &class.fields, &maker.body),
            None => self.end(Outcome::Stuck),
        }
    }

    // The initialisers of the fields that a class declares, and then these statements.
    fn initialise_then(
        &mut self,
        o: u32,
        class: u32,
        fields: &'p Items<Field>,
        body: &'p Items<Stmt>,
    ) -> Result<Focus<'p>, OutOfMemory>
        ensures ok { IfOk result (Goes S.state
            (λ p part. initialised_then p part o class fields.entry.now body.entry.now) self.old self.new) }
        ensures light { IfOk result (Leaves S.state 0 self.old self.new) }
        ensures err { OnErr result (FailsIn S.state self.old self.new) }
    {
        match next_start(class, 0, fields.as_slice()) {
            Some(start) => {
                self.push(Frame::Normal(NormalFrame::Rest(body.as_slice())))?;
                self.start_field(o, class, start, fields)
            }
            None => self.block(body.as_slice()),
        }
    }

    /// The initialisers of the fields that a class declares, from a place on, in order.
    pub fn initialise(
        &mut self,
        o: u32,
        class: u32,
        from: usize,
        fields: &'p Items<Field>,
    ) -> Result<Focus<'p>, OutOfMemory>
        ensures ok { IfOk result (Goes S.state
            (λ p part. initialise p part o class from (drop from fields.entry.now)) self.old self.new) }
        ensures light { IfOk result (Leaves S.state 0 self.old self.new) }
        ensures err { OnErr result (FailsIn S.state self.old self.new) }
    {
        match next_start(class, from, fields.as_slice()) {
            Some(start) => self.start_field(o, class, start, fields),
            None => self.end(Outcome::Normal),
        }
    }

    // An initialiser, and those after it.
    fn start_field(
        &mut self,
        o: u32,
        class: u32,
        start: Start<'p>,
        fields: &'p Items<Field>,
    ) -> Result<Focus<'p>, OutOfMemory>
        ensures ok { IfOk result (Goes S.state
            (λ p part. started p part o class start.entry.at start.entry.value.now fields.entry.now)
            self.old self.new) }
        ensures light { IfOk result (Adds S.state 4 self.old self.new) }
        ensures err { OnErr result (FailsIn S.state self.old self.new) }
    {
        self.push(Frame::Normal(NormalFrame::Fields(o, class, start.next, fields)))?;
        self.push(Frame::Value(ValueFrame::WriteCell(o, start.at)))?;
        Ok(Focus::Expr(start.value))
    }
}

// The first initialiser of a field that a class declares, from a place on.
fn next_start(class: u32, from: usize, fields: &[Field]) -> Option<Start<'_>>
    ensures { option_map start_of result ≡ next_start class from (drop from fields.now) }
{
    let mut at = from;
    while at < fields.len() {
        let field = &fields[at];
        if field.owner == class {
            if let Some(value) = &field.start {
                return Some(Start {
                    at,
                    next: at + 1,
                    value: value.get(),
                });
            }
        }
        at += 1;
    }
    None
}
