/// One resolution step: the clause so far loses the literal `pivot`, and gains the clause with the number `with`
/// but for the pivot's negation. Clauses are numbered from 1, those of the lines after the given ones.
#[derive(Clone, Copy, Debug)]
pub struct Cut {
    pub pivot: i32,
    pub with: u32,
}

/// A chain of resolution steps that begins with the clause with the number `first`.
#[derive(Debug, Drop)]
pub struct Line {
    pub first: u32,
    pub cuts: Vec<Cut>,
}
