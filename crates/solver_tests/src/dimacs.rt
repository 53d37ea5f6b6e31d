use dimacs_run::run;
use pb_io::{MemFiles, MemSink};
use std::test::Fail;

// A file's text, and what is printed, or the failure as text.
const ROWS: [(&str, &str); 9] = [
    (
        "c one assignment\np cnf 2 2\n1 0\n-2 0\n",
        "c checked\ns SATISFIABLE\nv 1 -2 0\n",
    ),
    (
        "p cnf 1 2\n1 1 0 -1\n0\n",
        "c checked\ns UNSATISFIABLE\nlines 1\n2 -1 1 0\n",
    ),
    (
        "p cnf 0 1\n0\n",
        "c checked\ns UNSATISFIABLE\nlines 1\n1 0\n",
    ),
    ("", "line 0: expected 'p cnf VARIABLES CLAUSES'"),
    (
        "c no header\n1 0\n",
        "line 2: expected 'p cnf VARIABLES CLAUSES'",
    ),
    (
        "p cnf 2 1\n\n1 3 0\n",
        "line 3: expected a literal of one of the variables, or 0",
    ),
    (
        "p cnf 2 1\n1 x 0\n",
        "line 2: expected a literal of one of the variables, or 0",
    ),
    (
        "p cnf 2 1\n1 2\n",
        "line 2: the last clause isn't ended by 0",
    ),
    (
        "p cnf 2 2\n1 2 0\n",
        "line 2: the number of clauses isn't that of the first line",
    ),
];

#[test]
fn reads_solves_and_prints(rt: HostRuntime) -> Result<(), Fail> {
    let alloc = rt.alloc();
    for (text, printed) in ROWS {
        let name = String::from_str(alloc, "clauses")?;
        let bytes = Vec::from_slice(alloc, text.as_bytes())?;
        let mut files = MemFiles::new(vec![in alloc; (name, bytes)]?, Vec::new(alloc));
        let mut out = MemSink::new(100, Vec::new(alloc), Vec::new(alloc));
        let mut words = Vec::new(alloc);
        for word in ["solve_dimacs", "--check", "10", "clauses"] {
            words.push(String::from_str(alloc, word)?)?;
        }
        match run(alloc, &words, &mut files, &mut out) {
            Ok(_) => assert_eq!(rt; out.written(), printed.as_bytes()),
            Err(failure) => {
                let told = format!(in alloc; "{failure}")?;
                assert_eq!(rt; told.as_str(), printed);
            }
        }
    }
    Ok(())
}
