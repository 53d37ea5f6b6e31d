//! Each call against a plain computation, over relations whose pairs are inputs of the net.

ghost use Rattle.std.specs.Prelude.{◌≡◌, ◌<◌, ◌≤◌, ◌+◌, ◌*◌, ◌^◌, IfOk, OnOk, length};
ghost use Rattle.gate_net.specs.Net.{IsNode, Continues, nodes_of, inputs_of};
ghost use Rattle.relation_gates.specs.Relations.{IsMatrix, IsRow};

mod plain;

use gate_net::{Net, Node};
use plain::{OBJECTS, RelationCall, SetCall, expected, expected_set, random};
use relation_gates::{Matrix, Row};
use std::alloc::{AllocError, Global};
use std::process::Abort;
use std::test::Fail;

const CALLS: [RelationCall; 6] = [
    RelationCall::Union,
    RelationCall::Inter,
    RelationCall::Minus,
    RelationCall::Join,
    RelationCall::Converse,
    RelationCall::Closure,
];

const SET_CALLS: [SetCall; 4] = [
    SetCall::Union,
    SetCall::Inter,
    SetCall::Minus,
    SetCall::Image,
];

// An input with a value, which is put after those of the earlier inputs.
fn input(net: &mut Net, inputs: &mut Vec<bool>, value: bool) -> Result<Node, AllocError>
    requires room { nodes_of net.old < 2 ^ 28 }
    requires given { length inputs.old.items ≡ inputs_of net.old }
    ensures begins { Continues net.old net.new }
    ensures node { IfOk result (λ n. IsNode net.new n) }
    ensures nodes { OnOk result (nodes_of net.new ≡ nodes_of net.old + 1) }
    ensures given { OnOk result (length inputs.new.items ≡ inputs_of net.new) }
{
    let node = net.input()?;
    inputs.push(value)?;
    Ok(node)
}

// A set whose members are inputs.
fn set(
    net: &mut Net,
    inputs: &mut Vec<bool>,
    members: u16,
    objects: usize,
) -> Result<Row, AllocError>
    requires objects { objects ≤ 12 }
    requires room { nodes_of net.old + 12 ≤ 2 ^ 28 }
    requires given { length inputs.old.items ≡ inputs_of net.old }
    ensures begins { Continues net.old net.new }
    ensures row { IfOk result (λ row. IsRow net.new objects row) }
    ensures nodes { OnOk result (nodes_of net.new ≤ nodes_of net.old + 12) }
    ensures given { OnOk result (length inputs.new.items ≡ inputs_of net.new) }
{
    let mut nodes = Vec::new(net.allocator());
    for y in 0..objects {
        let node = input(net, inputs, members >> y & 1 == 1)?;
        nodes.push(node)?;
    }
    Ok(Row { nodes })
}

// A relation whose pairs are inputs.
fn relation(
    net: &mut Net,
    inputs: &mut Vec<bool>,
    rows: &[u16; OBJECTS],
    objects: usize,
) -> Result<Matrix, AllocError>
    requires objects { objects ≤ 12 }
    requires room { nodes_of net.old + 144 ≤ 2 ^ 28 }
    requires given { length inputs.old.items ≡ inputs_of net.old }
    ensures begins { Continues net.old net.new }
    ensures matrix { IfOk result (λ matrix. IsMatrix net.new objects matrix) }
    ensures nodes { OnOk result (nodes_of net.new ≤ nodes_of net.old + 144) }
    ensures given { OnOk result (length inputs.new.items ≡ inputs_of net.new) }
{
    let mut made = Vec::new(net.allocator());
    for x in 0..objects {
        let row = set(net, inputs, rows[x], objects)?;
        made.push(row)?;
    }
    Ok(Matrix { rows: made })
}

// What a call makes of two relations.
fn made(net: &mut Net, call: RelationCall, a: &Matrix, b: &Matrix) -> Result<Matrix, AllocError>
    requires first { IsMatrix net.old (length a.now) a.now }
    requires second { IsMatrix net.old (length a.now) b.now }
    requires small { length a.now ≤ 12 }
    requires room { nodes_of net.old ≤ 1000 }
    ensures inputs { inputs_of net.new ≡ inputs_of net.old }
    ensures matrix { IfOk result (λ matrix. IsMatrix net.new (length a.now) matrix) }
{
    match call {
        RelationCall::Union => relation_gates::union(net, a, b),
        RelationCall::Inter => relation_gates::inter(net, a, b),
        RelationCall::Minus => relation_gates::minus(net, a, b),
        RelationCall::Join => relation_gates::join(net, a, b),
        RelationCall::Converse => relation_gates::converse(net, a),
        RelationCall::Closure => relation_gates::closure(net, a),
    }
}

// What a call makes of two sets, or of a set and a relation.
fn made_set(net: &mut Net, call: SetCall, a: &Row, b: &Row, r: &Matrix) -> Result<Row, AllocError>
    requires first { IsRow net.old (length r.now) a.now }
    requires second { IsRow net.old (length r.now) b.now }
    requires relation { IsMatrix net.old (length r.now) r.now }
    requires small { length r.now ≤ 12 }
    requires room { nodes_of net.old ≤ 1000 }
    ensures inputs { inputs_of net.new ≡ inputs_of net.old }
    ensures row { IfOk result (λ row. IsRow net.new (length r.now) row) }
{
    match call {
        SetCall::Union => relation_gates::row_union(net, a, b),
        SetCall::Inter => relation_gates::row_inter(net, a, b),
        SetCall::Minus => relation_gates::row_minus(net, a, b),
        SetCall::Image => relation_gates::image(net, a, r),
    }
}

// The members of a set where the inputs have these values.
fn read_set(net: &Net, row: &Row, inputs: &[bool]) -> Result<u16, AllocError>
    requires small { length row.now ≤ 12 }
    requires row { IsRow net.now (length row.now) row.now }
    requires given { length inputs.now ≡ inputs_of net.now }
{
    let nodes = row.nodes();
    let mut members = 0;
    for y in 0..nodes.len() {
        members |= u16::from(net.value(nodes[y], inputs)?) << y;
    }
    Ok(members)
}

// The rows of a relation where the inputs have these values.
fn read(net: &Net, matrix: &Matrix, inputs: &[bool]) -> Result<[u16; OBJECTS], AllocError>
    requires small { length matrix.now ≤ 12 }
    requires matrix { IsMatrix net.now (length matrix.now) matrix.now }
    requires given { length inputs.now ≡ inputs_of net.now }
{
    let found = matrix.rows();
    let mut rows = [0; OBJECTS];
    for x in 0..found.len() {
        rows[x] = read_set(net, &found[x], inputs)?;
    }
    Ok(rows)
}

// The relation that a call makes of two relations.
fn answer(
    alloc: Global,
    call: RelationCall,
    first: &[u16; OBJECTS],
    second: &[u16; OBJECTS],
    objects: usize,
) -> Result<[u16; OBJECTS], AllocError>
    requires { objects ≤ 12 }
{
    let mut net = Net::new(alloc)?;
    let mut inputs = Vec::new(alloc);
    let a = relation(&mut net, &mut inputs, first, objects)?;
    let b = relation(&mut net, &mut inputs, second, objects)?;
    let result = made(&mut net, call, &a, &b)?;
    read(&net, &result, inputs.as_slice())
}

// The set that a call makes of two sets, or of a set and a relation.
fn set_answer(
    alloc: Global,
    call: SetCall,
    first: u16,
    second: u16,
    rows: &[u16; OBJECTS],
    objects: usize,
) -> Result<u16, AllocError>
    requires { objects ≤ 12 }
{
    let mut net = Net::new(alloc)?;
    let mut inputs = Vec::new(alloc);
    let r = relation(&mut net, &mut inputs, rows, objects)?;
    let a = set(&mut net, &mut inputs, first, objects)?;
    let b = set(&mut net, &mut inputs, second, objects)?;
    let result = made_set(&mut net, call, &a, &b, &r)?;
    read_set(&net, &result, inputs.as_slice())
}

fn check_calls(
    rt: &impl Abort,
    alloc: Global,
    first: &[u16; OBJECTS],
    second: &[u16; OBJECTS],
    objects: usize,
) -> Result<(), Fail>
    requires { objects ≤ 12 }
{
    for call in CALLS {
        let found = answer(alloc, call, first, second, objects)?;
        assert_eq!(rt;
            found,
            expected(call, first, second),
            "{call:?} over {objects} objects"
        );
    }
    Ok(())
}

fn check_set_calls(
    rt: &impl Abort,
    alloc: Global,
    rows: &[u16; OBJECTS],
    objects: usize,
) -> Result<(), Fail>
    requires { objects ≤ 12 }
{
    let (first, second) = (rows[0], rows[objects % OBJECTS]);
    for call in SET_CALLS {
        let found = set_answer(alloc, call, first, second, rows, objects)?;
        let members = expected_set(call, first, second, rows);
        assert_eq!(rt; found, members, "{call:?} over {objects} objects");
    }
    Ok(())
}

#[test]
fn agrees_with_a_plain_computation(rt: HostRuntime) -> Result<(), Fail> {
    for seed in 0..40 {
        let objects = 1 + seed as usize % OBJECTS;
        let first = random(seed, objects);
        let second = random(seed + 1000, objects);
        check_calls(&rt, rt.alloc(), &first, &second, objects)?;
        check_set_calls(&rt, rt.alloc(), &first, objects)?;
    }
    Ok(())
}

// A chain of two edges, and a circle of 12.
#[test]
fn paths_are_of_any_length(rt: HostRuntime) -> Result<(), Fail> {
    let rows: [(usize, [u16; OBJECTS], [u16; OBJECTS]); 2] = [
        (
            3,
            [0b010, 0b100, 0, 0, 0, 0, 0, 0, 0, 0, 0, 0],
            [0b110, 0b100, 0, 0, 0, 0, 0, 0, 0, 0, 0, 0],
        ),
        (
            12,
            [2, 4, 8, 16, 32, 64, 128, 256, 512, 1024, 2048, 1],
            [4095; OBJECTS],
        ),
    ];
    for (objects, edges, paths) in rows {
        assert!(rt; objects <= OBJECTS);
        let found = answer(rt.alloc(), RelationCall::Closure, &edges, &edges, objects)?;
        assert_eq!(rt; found, paths, "{objects} objects");
    }
    Ok(())
}
