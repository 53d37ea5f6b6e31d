use clause_form::Line;

/// What is found out about clauses.
#[derive(Debug, Drop)]
pub enum Solved {
    /// An assignment that satisfies them: a value for each variable, that of variable 1 first.
    Sat(Vec<bool>),
    /// A derivation of the empty clause, so that no assignment satisfies them.
    Unsat(Vec<Line>),
    /// A derivation as long as the limit, each of whose clauses adds to what unit propagation finds.
    Spent(Vec<Line>),
}
