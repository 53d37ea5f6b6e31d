use crate::{CheckLogError, check};
use clause_form::{Clause, Clauses, Cut, Line};
use std::process::Abort;
use std::test::Fail;

const FOUR: [&[i32]; 4] = [&[1, 2], &[-1, 2], &[1, -2], &[-1, -2]];

// A log as the lines of a certificate: the first clause, and a pivot and a clause for each cut.
#[derive(Clone, Copy)]
struct Case {
    clauses: &'static [&'static [i32]],
    log: &'static [(u32, &'static [(i32, u32)])],
    made: Result<&'static [&'static [i32]], CheckLogError>,
}

const ROWS: [Case; 7] = [
    Case {
        clauses: &FOUR,
        log: &[(1, &[(1, 2)]), (3, &[(1, 4)]), (5, &[(2, 6)])],
        made: Ok(&[&[2], &[-2], &[]]),
    },
    Case {
        clauses: &FOUR,
        log: &[(1, &[(2, 2)]), (3, &[(1, 4)]), (5, &[(2, 6)])],
        made: Err(CheckLogError::Bad(1)),
    },
    Case {
        clauses: &FOUR,
        log: &[(5, &[])],
        made: Err(CheckLogError::Bad(1)),
    },
    Case {
        clauses: &FOUR,
        log: &[(1, &[(1, 2)]), (5, &[]), (7, &[])],
        made: Err(CheckLogError::Bad(3)),
    },
    Case {
        clauses: &FOUR,
        log: &[(1, &[(i32::MIN, 2)])],
        made: Err(CheckLogError::Bad(1)),
    },
    // The pivot alone leaves the first clause, and its negation alone the second.
    Case {
        clauses: &[&[1, -1], &[-1]],
        log: &[(1, &[(1, 2)])],
        made: Ok(&[&[-1]]),
    },
    Case {
        clauses: &[],
        log: &[],
        made: Ok(&[]),
    },
];

#[test]
fn replays_logs(rt: HostRuntime) -> Result<(), Fail> {
    let alloc = rt.alloc();
    for (number, row) in ROWS.iter().enumerate() {
        let clauses = clauses_of(&rt, row.clauses)?;
        let mut log = Vec::new(alloc);
        for (first, cuts) in row.log {
            let mut line = Line {
                first: *first,
                cuts: Vec::new(alloc),
            };
            for (pivot, with) in *cuts {
                line.cuts.push(Cut {
                    pivot: *pivot,
                    with: *with,
                })?;
            }
            log.push(line)?;
        }
        assert!(rt; clauses.clauses.len() < 100 && log.len() < 100);
        match (check(alloc, &clauses, log.as_slice()), row.made) {
            (Ok(made), Ok(expected)) => {
                assert_eq!(rt; made.len(), expected.len(), "row {number}");
                for (clause, literals) in made.iter().zip(expected) {
                    assert_eq!(rt; clause.literals(), *literals, "row {number}");
                }
            }
            (Err(error), Err(expected)) => assert_eq!(rt; error, expected, "row {number}"),
            _ => assert!(rt; false, "row {number}"),
        }
    }
    Ok(())
}

// Clauses over two variables.
fn clauses_of(rt: &(impl Abort + AllocGlobal), rows: &[&[i32]]) -> Result<Clauses, Fail> {
    let mut clauses = Clauses::new(rt.alloc(), 2);
    for row in rows {
        let mut clause = Clause::empty(rt.alloc());
        for literal in *row {
            assert!(rt; *literal != 0 && *literal != i32::MIN);
            clause.insert(*literal)?;
        }
        assert!(rt; clauses.names(&clause) && clauses.clauses.len() < 100);
        clauses.push(clause)?;
    }
    Ok(clauses)
}
