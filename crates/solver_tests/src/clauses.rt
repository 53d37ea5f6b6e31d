use clause_form::{Clause, Clauses, negated, write_dimacs};
use pb_io::{MemSink, PutError};
use std::process::Abort;
use std::test::Fail;

const FOUR: [[i32; 2]; 4] = [[1, 2], [-1, 2], [1, -2], [-1, -2]];

// The first of the four clauses over two variables.
fn four_clauses(rt: &(impl Abort + AllocGlobal), count: usize) -> Result<Clauses, Fail> {
    let alloc = rt.alloc();
    let mut clauses = Clauses::new(alloc, 2);
    for row in FOUR.iter().take(count) {
        let clause = clause_of(rt, row)?;
        assert!(rt; clauses.names(&clause) && clauses.clauses.len() < 4);
        clauses.push(clause)?;
    }
    Ok(clauses)
}

fn clause_of(rt: &(impl Abort + AllocGlobal), literals: &[i32]) -> Result<Clause, Fail> {
    let mut clause = Clause::empty(rt.alloc());
    for literal in literals {
        assert!(rt; *literal != 0 && *literal != i32::MIN);
        clause.insert(*literal)?;
    }
    Ok(clause)
}

#[test]
fn four_clauses_leave_no_assignment(rt: HostRuntime) -> Result<(), Fail> {
    // For each number of clauses, which of the four assignments satisfy them.
    let rows = [
        (0, [true, true, true, true]),
        (1, [false, true, true, true]),
        (2, [false, true, false, true]),
        (3, [false, false, false, true]),
        (4, [false, false, false, false]),
    ];
    let assignments = [[false, false], [false, true], [true, false], [true, true]];
    for (count, satisfied) in rows {
        let clauses = four_clauses(&rt, count)?;
        for i in 0..4 {
            assert!(rt; clauses.variables == 2);
            assert_eq!(rt;
                clauses.satisfied(&assignments[i]),
                satisfied[i],
                "{count} clauses, {i}"
            );
        }
    }
    Ok(())
}

#[test]
fn writes_the_form_or_a_prefix(rt: HostRuntime) -> Result<(), Fail> {
    let alloc = rt.alloc();
    let clauses = four_clauses(&rt, 4)?;
    let text = b"p cnf 2 4\n1 2 0\n-1 2 0\n1 -2 0\n-1 -2 0\n";
    let mut sink = MemSink::new(3, Vec::new(alloc), Vec::new(alloc));
    assert_eq!(rt; write_dimacs(&mut sink, &clauses), Ok(()));
    assert_eq!(rt; sink.written(), text.as_slice());

    let mut sink = MemSink::new(3, vec![in alloc; 6u64]?, Vec::new(alloc));
    assert_eq!(rt;
        write_dimacs(&mut sink, &clauses),
        Err(PutError::WriteFault)
    );
    assert!(rt; text.starts_with(sink.written()));

    let empty = Clauses::new(alloc, 0);
    let mut sink = MemSink::new(100, Vec::new(alloc), Vec::new(alloc));
    assert_eq!(rt; write_dimacs(&mut sink, &empty), Ok(()));
    assert_eq!(rt; sink.written(), b"p cnf 0 0\n".as_slice());
    Ok(())
}

#[test]
fn resolvents(rt: HostRuntime) -> Result<(), Fail> {
    let alloc = rt.alloc();
    // Two clauses, a pivot, and their resolvent. The second is the clause 1 cut at 1 with one that has both signs.
    let rows: [(&[i32], i32, &[i32], &[i32]); 3] = [
        (&[1, 2], 1, &[-1, 2], &[2]),
        (&[1], 1, &[1, -1], &[1]),
        (&[3, -2, 3], -2, &[4, 2], &[3, 4]),
    ];
    for (first, pivot, second, result) in rows {
        let first = clause_of(&rt, first)?;
        let second = clause_of(&rt, second)?;
        assert!(rt; first.has(pivot));
        assert!(rt; second.has(negated(pivot)));
        let resolvent = first.resolvent(alloc, pivot, &second)?;
        assert_eq!(rt; resolvent.literals(), result);
        assert_eq!(rt; resolvent.copy(alloc)?.literals(), result);
    }
    assert_eq!(rt;
        Clause::new(alloc, &[2, -5])?.literals(),
        [2, -5].as_slice()
    );
    Ok(())
}
