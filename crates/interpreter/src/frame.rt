//! What the machine keeps between its steps. Callers of the machine don't see it.

ghost use Rattle.std.specs.Prelude.{◌≡◌};
ghost use Rattle.interpreter.specs.Frames.{ended};

use crate::calls::default_of;
use core_tree::{BinOp, Catch, Expr, Field, Maker, OutOfMemory, Stmt, Ty, UnOp, UpOp};
use evaluation::{Outcome, Place};
use heap_arena::Cell;
use pb_io::PutError;
use sqlite_items::{Boxed, Items};

/// What is done with the value of an expression. The values that came before it are here.
#[derive(Drop)]
pub enum ValueFrame<'p> {
    /// It is the object whose field at this place is read.
    Field(u32),
    /// It is the array whose elements are counted.
    Length,
    /// It is the array, and the index comes next.
    ElementIndex(&'p Boxed<Expr>),
    /// It is the index into this array.
    Element(Cell<u32>),
    TextLength,
    /// It is the first text, and the other comes next.
    EqualsRight(&'p Boxed<Expr>),
    /// It is the text to compare with this one.
    Equals(Cell<u32>),
    /// It is the number of elements of a new array.
    NewArray(&'p Ty),
    Unary(UnOp),
    /// It is the left operand, and the right one comes next.
    BinaryRight(BinOp, &'p Boxed<Expr>),
    /// It is the right operand.
    Binary(BinOp, Cell<u32>),
    AndRight(&'p Boxed<Expr>),
    OrRight(&'p Boxed<Expr>),
    /// It chooses one of two expressions.
    Cond(&'p Boxed<Expr>, &'p Boxed<Expr>),
    Cast(&'p Ty),
    Is(&'p Ty),
    /// It is the first part of a text, and the other comes next.
    ConcatRight(&'p Boxed<Expr>),
    Concat(Cell<u32>),
    /// The local with this number gets it.
    WriteLocal(u32),
    /// It is the object whose field gets the value of the expression.
    AssignField(u32, &'p Boxed<Expr>),
    /// The field at this place of the object gets it.
    WriteField(Cell<u32>, u32),
    /// It is the array: the index comes next, then the value.
    AssignIndex(&'p Boxed<Expr>, &'p Boxed<Expr>),
    /// It is the index into this array, and the value comes next.
    AssignElement(Cell<u32>, &'p Boxed<Expr>),
    /// The element of the array at the index gets it.
    WriteElement(Cell<u32>, Cell<u32>),
    /// It is the object whose field is updated.
    UpdateField(u32, UpOp, &'p Option<Boxed<Expr>>),
    /// It is the array an element of which is updated, and the index comes next.
    UpdateIndex(&'p Boxed<Expr>, UpOp, &'p Option<Boxed<Expr>>),
    /// It is the index into this array.
    UpdateElement(Cell<u32>, UpOp, &'p Option<Boxed<Expr>>),
    /// It is the other operand of an update: the old value and the place are here.
    Update(UpOp, Cell<u32>, Place),
    Discard,
    /// It is printed, with a line feed after it where the flag is true.
    Print(bool),
    /// It chooses between two statements.
    If(&'p Boxed<Stmt>, &'p Option<Boxed<Stmt>>),
    /// It says whether a loop has another turn.
    LoopTest(LoopParts<'p>),
    Return,
    Throw,
    /// The cell of the object at this position, at this place, gets it.
    WriteCell(u32, usize),
}

/// What is done with a place.
#[derive(Drop)]
pub enum PlaceUse<'p> {
    Read,
    Write(Cell<u32>),
    /// It gets what the operator makes of its old value and of the expression's, or of 1.
    Update(UpOp, &'p Option<Boxed<Expr>>),
}

/// What comes of an object that is to be made.
#[derive(Drop)]
pub enum Made {
    /// It is at this position.
    Object(u32),
    /// It wasn't made, and the part ends so.
    Ended(Outcome),
}

/// What is called once its arguments are there.
#[derive(Drop)]
pub enum Callee {
    /// The static method with this number.
    Static(u32),
    /// The method that the selector picks in the class of the object.
    Chosen(u32, Cell<u32>),
    /// The method with this number, on this object.
    Super(u32, Option<u32>),
    /// The constructor with this number, for the new object at this position.
    New(u32, u32),
    /// The constructor with this number, for the object at this position, as a superclass's. That many superclasses may
    /// come, itself among them.
    Parent(u32, u32, usize),
}

/// What is done with the value of an expression on the way to a call.
#[derive(Drop)]
pub enum CallFrame<'p> {
    /// It is the object of a call with this selector, and the arguments come next.
    Receiver(u32, &'p [Expr]),
    /// It is an argument: those that come next, and those before it.
    Argument(Callee, &'p [Expr], Items<Cell<u32>>),
}

/// A loop.
#[derive(Clone, Copy, Drop)]
pub enum LoopParts<'p> {
    /// A condition and a body.
    While(&'p Boxed<Expr>, &'p Boxed<Stmt>),
    /// A condition, where there is one, what is executed after each turn, and a body.
    For(&'p Option<Boxed<Expr>>, &'p Items<Stmt>, &'p Boxed<Stmt>),
}

/// What a loop does with the outcome of a part.
#[derive(Drop)]
pub enum LoopFrame<'p> {
    /// It is the outcome of the body.
    Body(LoopParts<'p>),
    /// It is the outcome of the updates.
    Updates(LoopParts<'p>),
}

/// How a call ends where its body ends.
#[derive(Drop)]
pub enum CallEnd<'p> {
    /// A method whose result has this type.
    Method(&'p Ty),
    Constructor,
}

/// What is done after a part that ended normally.
#[derive(Drop)]
pub enum NormalFrame<'p> {
    /// These statements.
    Rest(&'p [Stmt]),
    /// The first turn of a loop.
    FirstTurn(LoopParts<'p>),
    /// The value is the new object at this position.
    New(u32),
    /// The object's field initialisers and the constructor's body.
    Parent(u32, &'p Maker),
    /// The initialisers of the object's fields that the class declares, from this place on.
    Fields(u32, u32, usize, &'p Items<Field>),
}

/// What is done with any outcome of a part.
#[derive(Drop)]
pub enum PlainFrame<'p> {
    /// The caller's `this` and locals are there again.
    Leave(CallEnd<'p>, Option<u32>, Items<Cell<u32>>),
    Catching(&'p Items<Catch>),
    Finally(&'p Boxed<Stmt>),
    /// After Normal this outcome.
    Finished(Outcome),
}

/// What is done with the outcome of the part that is being run.
#[derive(Drop)]
pub enum Frame<'p> {
    /// With a value this; every other outcome stands.
    Value(ValueFrame<'p>),
    /// With a value this; every other outcome stands.
    Call(CallFrame<'p>),
    Loop(LoopFrame<'p>),
    /// With Normal this; every other outcome stands.
    Normal(NormalFrame<'p>),
    Plain(PlainFrame<'p>),
}

/// Where the machine stands.
#[derive(Drop)]
pub enum Focus<'p> {
    /// Before an expression.
    Expr(&'p Expr),
    /// Before a statement.
    Stmt(&'p Stmt),
    /// Before a further turn of a loop.
    Loop(LoopParts<'p>),
    /// Before the run of the constructor with this number, for the object at this position, with these arguments. That
    /// many superclasses may come, itself among them.
    Construct(u32, u32, Items<Cell<u32>>, usize),
    /// Before these bytes are printed.
    Print(Vec<u8>),
    /// With the outcome of a part.
    Answer(Outcome),
}

/// What follows a step of the machine: another one, or the run's outcome.
#[derive(Drop)]
pub enum Next<'p> {
    On(Focus<'p>),
    End(Outcome),
}

/// Why the machine stopped before the run's end.
#[derive(Clone, Copy, Drop)]
pub enum EarlyEnd {
    /// The machine had no memory.
    OutOfMemory,
    /// The sink refused a call.
    Refused(PutError),
}

impl CallEnd<'_> {
    /// What a call gives where its body ends so: a body that falls off its end gives the default of the result's type.
    pub fn outcome(&self, o: Outcome) -> Outcome
        ensures { result ≡ ended self.entry.now o }
    {
        match self {
            CallEnd::Method(answer) => match o {
                Outcome::Normal | Outcome::Return(None) => Outcome::Value(default_of(answer)),
                Outcome::Return(Some(v)) => Outcome::Value(v),
                Outcome::Value(_)
                | Outcome::Break
                | Outcome::Continue
                | Outcome::Throw(_)
                | Outcome::Spent
                | Outcome::Full(_)
                | Outcome::Stuck => o,
            },
            CallEnd::Constructor => match o {
                Outcome::Return(_) => Outcome::Normal,
                Outcome::Value(_)
                | Outcome::Normal
                | Outcome::Break
                | Outcome::Continue
                | Outcome::Throw(_)
                | Outcome::Spent
                | Outcome::Full(_)
                | Outcome::Stuck => o,
            },
        }
    }
}

impl From<OutOfMemory> for EarlyEnd {
    ghost use Rattle.std.specs.Prelude.{◌≡◌};
    ghost use Rattle.interpreter.specs.declared.frame.EarlyEnd.TheVariants as early;

    ghost from_gives = { λ _ end. end ≡ early.OutOfMemory };

    fn from(_: OutOfMemory) -> Self {
        EarlyEnd::OutOfMemory
    }
}

impl From<PutError> for EarlyEnd {
    ghost use Rattle.std.specs.Prelude.{◌≡◌};
    ghost use Rattle.interpreter.specs.declared.frame.EarlyEnd.TheVariants as early;

    ghost from_gives = { λ error end. end ≡ early.Refused error };

    fn from(error: PutError) -> Self {
        EarlyEnd::Refused(error)
    }
}
