use crate::{Clauses, Line};

/// The variables whose values give one cell, lowest digit first: those of an `int` in two's complement, that of a
/// `boolean`, or those of a reference, read as a whole number.
#[derive(Debug, Drop)]
pub enum CellBits {
    Int([u32; 32]),
    Bool(u32),
    Ref(Vec<u32>),
}

/// What shows that no values satisfy a condition, or that a solver's limit is spent: clauses that stand for the
/// condition, the variables of each cell, and a derivation.
#[derive(Debug, Drop)]
pub struct Certificate {
    pub clauses: Clauses,
    pub cells: Vec<CellBits>,
    pub log: Vec<Line>,
}
