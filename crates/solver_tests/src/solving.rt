use clause_form::{Clause, Clauses};
use clause_solver::{Solved, solve};
use std::process::Abort;
use std::test::Fail;

#[derive(Clone, Copy, Debug, PartialEq, Eq)]
enum Expected {
    Sat,
    Unsat,
    // with that many lines
    Spent(usize),
}

const FOUR: &[&[i32]] = &[&[1, 2], &[-1, 2], &[1, -2], &[-1, -2]];

// The number of variables, clauses over them, the limit, and each answer that may come.
const ROWS: [(u32, &[&[i32]], u32, &[Expected]); 7] = [
    (0, &[], 1, &[Expected::Sat]),
    (3, &[], 1, &[Expected::Sat]),
    (3, &[&[1], &[-1]], 2, &[Expected::Unsat]),
    (3, FOUR, 100, &[Expected::Unsat]),
    (3, FOUR, 1, &[Expected::Unsat, Expected::Spent(1)]),
    (3, &[&[1, 2], &[-1, 2], &[1, -2]], 100, &[Expected::Sat]),
    (
        3,
        &[&[1, 2], &[-2, 3], &[-3, 1]],
        1,
        &[Expected::Sat, Expected::Spent(1)],
    ),
];

#[test]
fn solves(rt: HostRuntime) -> Result<(), Fail> {
    for (row, (variables, clauses, limit, answers)) in ROWS.into_iter().enumerate() {
        assert!(rt; limit >= 1 && limit <= 100);
        let clauses = clauses_of(&rt, variables, clauses)?;
        let answer = match solve(rt.alloc(), &clauses, limit)? {
            Solved::Sat(values) => {
                assert_eq!(rt; values.len(), variables as usize, "row {row}");
                assert!(rt; clauses.satisfied(values.as_slice()), "row {row}");
                Expected::Sat
            }
            Solved::Unsat(log) => {
                assert!(rt; log.len() <= limit as usize + 1, "row {row}");
                Expected::Unsat
            }
            Solved::Spent(log) => Expected::Spent(log.len()),
        };
        assert!(rt; answers.contains(&answer), "row {row}: {answer:?}");
    }
    Ok(())
}

// Whether there are variables or none.
#[test]
fn an_empty_clause_is_its_own_derivation(rt: HostRuntime) -> Result<(), Fail> {
    for variables in [0, 3] {
        let clauses = clauses_of(&rt, variables, &[&[]])?;
        match solve(rt.alloc(), &clauses, 1)? {
            Solved::Unsat(log) => {
                assert_eq!(rt; log.len(), 1, "{variables} variables");
                assert_eq!(rt; log[0].first, 1, "{variables} variables");
                assert_eq!(rt; log[0].cuts.len(), 0, "{variables} variables");
            }
            _ => assert!(rt; false, "{variables} variables"),
        }
    }
    Ok(())
}

// Clauses over that many variables.
fn clauses_of(
    rt: &(impl Abort + AllocGlobal),
    variables: u32,
    rows: &[&[i32]],
) -> Result<Clauses, Fail> {
    assert!(rt; variables < 100);
    let mut clauses = Clauses::new(rt.alloc(), variables);
    for row in rows {
        let clause = clause_of(rt, row)?;
        assert!(rt; clauses.names(&clause) && clauses.clauses.len() < 100);
        clauses.push(clause)?;
    }
    Ok(clauses)
}

fn clause_of(rt: &(impl Abort + AllocGlobal), literals: &[i32]) -> Result<Clause, Fail> {
    let mut clause = Clause::empty(rt.alloc());
    for literal in literals {
        assert!(rt; *literal != 0 && *literal != i32::MIN);
        clause.insert(*literal)?;
    }
    Ok(clause)
}
