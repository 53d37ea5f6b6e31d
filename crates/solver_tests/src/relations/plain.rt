//! Relations over 12 objects as bits: bit y of row x says whether an edge leads from x to y.

ghost use Rattle.std.specs.Prelude.{◌<◌, ◌≤◌};

/// How many objects a relation has room for.
pub(crate) const OBJECTS: usize = 12;

/// The relations that are made of two others.
#[derive(Clone, Copy, Debug)]
pub(crate) enum RelationCall {
    Union,
    Inter,
    Minus,
    Join,
    Converse,
    Closure,
}

/// The sets that are made of two others, or of a set and a relation.
#[derive(Clone, Copy, Debug)]
pub(crate) enum SetCall {
    Union,
    Inter,
    Minus,
    Image,
}

/// A relation over the first objects, the same whenever it is made. Each third one has a quarter of the edges of the
/// others.
pub(crate) fn random(seed: u64, objects: usize) -> [u16; OBJECTS]
    requires { objects ≤ 12 }
{
    let mut rows = [0; OBJECTS];
    let mut state = seed;
    for x in 0..objects {
        state = state
            .wrapping_mul(6364136223846793005)
            .wrapping_add(1442695040888963407);
        let many = digits(state >> 52);
        let few = many & digits(state >> 40) & digits(state >> 28);
        let row = if seed % 3 == 0 { few } else { many };
        rows[x] = row & ((1 << objects) - 1);
    }
    rows
}

// As many lower digits as a row has.
fn digits(number: u64) -> u16 {
    (number % (1 << OBJECTS)) as u16
}

/// The rows of the relation that a call is to make.
pub(crate) fn expected(
    call: RelationCall,
    first: &[u16; OBJECTS],
    second: &[u16; OBJECTS],
) -> [u16; OBJECTS] {
    let mut rows = [0; OBJECTS];
    for x in 0..OBJECTS {
        rows[x] = match call {
            RelationCall::Union => first[x] | second[x],
            RelationCall::Inter => first[x] & second[x],
            RelationCall::Minus => first[x] & !second[x],
            RelationCall::Join => image(first[x], second),
            RelationCall::Converse => column(first, x),
            RelationCall::Closure => reached(first[x], first),
        };
    }
    rows
}

/// The set that a call is to make.
pub(crate) fn expected_set(
    call: SetCall,
    first: u16,
    second: u16,
    relation: &[u16; OBJECTS],
) -> u16 {
    match call {
        SetCall::Union => first | second,
        SetCall::Inter => first & second,
        SetCall::Minus => first & !second,
        SetCall::Image => image(first, relation),
    }
}

// The objects to which an edge leads from a member.
fn image(set: u16, relation: &[u16; OBJECTS]) -> u16 {
    let mut found = 0;
    for x in 0..OBJECTS {
        if set >> x & 1 == 1 {
            found |= relation[x];
        }
    }
    found
}

// The objects from which an edge leads to y.
fn column(relation: &[u16; OBJECTS], y: usize) -> u16
    requires { y < 12 }
{
    let mut found = 0;
    for x in 0..OBJECTS {
        found |= (relation[x] >> y & 1) << x;
    }
    found
}

// The members, and what is reached from them by edges, one more at a time.
fn reached(set: u16, relation: &[u16; OBJECTS]) -> u16 {
    let mut found = set;
    for _ in 0..OBJECTS {
        found |= image(found, relation);
    }
    found
}
