use gate_net::Net;
use std::test::Fail;

// The values of `a and b`, `a or b`, `a xor b`, `not a` and a constant, by the truth tables of the operators.
const TABLE: [(bool, bool, [bool; 5]); 4] = [
    (false, false, [false, false, false, true, true]),
    (false, true, [false, true, true, true, true]),
    (true, false, [false, true, true, false, true]),
    (true, true, [true, true, false, false, true]),
];

#[test]
fn gates_have_their_truth_tables(rt: HostRuntime) -> Result<(), Fail> {
    let mut net = Net::new(rt.alloc())?;
    let a = net.input()?;
    let b = net.input()?;
    let both = net.and(a, b)?;
    let one = net.or(a, b)?;
    let differ = net.xor(a, b)?;
    let opposite = net.not(a)?;
    let yes = net.constant(true);
    assert_eq!(rt; net.nodes(), 8);
    for (x, y, values) in TABLE {
        let nodes = [both, one, differ, opposite, yes];
        for k in 0..5 {
            assert_eq!(rt;
                net.value(nodes[k], &[x, y])?,
                values[k],
                "node {k} at {x} and {y}"
            );
        }
    }
    Ok(())
}

// Of the 2^7 assignments exactly those satisfy the clauses that give each node its value and make the root true:
// one for each of the three pairs of inputs that aren't equal and false.
#[test]
fn one_extension_for_each_model(rt: HostRuntime) -> Result<(), Fail> {
    let mut net = Net::new(rt.alloc())?;
    let a = net.input()?;
    let b = net.input()?;
    let differ = net.xor(a, b)?;
    let both = net.and(a, b)?;
    let root = net.or(differ, both)?;
    let clauses = net.clauses(root)?;
    assert_eq!(rt; clauses.variables, 7);
    assert_eq!(rt; net.variable(root), 7);
    let mut models = 0u32;
    for k in 0u32..128 {
        let assignment = [
            k & 1 != 0,
            k & 2 != 0,
            k & 4 != 0,
            k & 8 != 0,
            k & 16 != 0,
            k & 32 != 0,
            k & 64 != 0,
        ];
        if clauses.satisfied(&assignment) {
            models = models.saturating_add(1);
        }
    }
    assert_eq!(rt; models, 3);
    Ok(())
}
