//! What operators, literals, concatenations and prints make of values.

use core_tree::{BinOp, OutOfMemory, Text, UnOp, UpOp};
use evaluation::Computed;
use heap_arena::Cell;
use std::alloc::Global;
use std::test::Fail;
use value_operators::{
    binary_value, concatenated, literal, print_bytes, text_equals, text_length, unary_value,
    update_value,
};

// Appends a space and what a print writes of a value, or what there is in its place.
fn show(alloc: Global, out: &mut String, computed: Computed) -> Result<(), OutOfMemory> {
    out.push(' ')?;
    match computed {
        Computed::Gives(v) => match print_bytes(alloc, false, &v)? {
            Some(bytes) => out.push_str(std::str::from_utf8(&bytes).unwrap_or("no text"))?,
            None => out.push('@')?,
        },
        Computed::Traps(class) => out.push_str(format!(in alloc; "{class:?}")?.as_str())?,
        Computed::TooLong => out.push_str("too long")?,
        Computed::NoMeaning => out.push('-')?,
    }
    Ok(())
}

fn cafe(alloc: Global) -> Result<Cell<u32>, OutOfMemory> {
    let characters = Vec::from_array(alloc, ['c', 'a', 'f', 'é'])?;
    Ok(Cell::Text(Text::new(alloc, characters)?))
}

// A text of two characters with three code units.
fn smile(alloc: Global) -> Result<Cell<u32>, OutOfMemory> {
    let characters = Vec::from_array(alloc, ['a', '😀'])?;
    Ok(Cell::Text(Text::new(alloc, characters)?))
}

fn empty(alloc: Global) -> Result<Cell<u32>, OutOfMemory> {
    Ok(Cell::Text(Text::new(alloc, Vec::new(alloc))?))
}

const OPERATORS: [BinOp; 17] = [
    BinOp::Add,
    BinOp::Sub,
    BinOp::Mul,
    BinOp::Div,
    BinOp::Rem,
    BinOp::Shl,
    BinOp::Shr,
    BinOp::Ushr,
    BinOp::BitAnd,
    BinOp::BitOr,
    BinOp::BitXor,
    BinOp::Eq,
    BinOp::Ne,
    BinOp::Lt,
    BinOp::Le,
    BinOp::Gt,
    BinOp::Ge,
];

// What each operator makes of two values, and then what each makes of the first alone.
fn results(alloc: Global, a: &Cell<u32>, b: &Cell<u32>) -> Result<String, OutOfMemory> {
    let mut out = String::new(alloc);
    for op in OPERATORS {
        show(alloc, &mut out, binary_value(op, a, b))?;
    }
    out.push(';')?;
    for op in [UnOp::Plus, UnOp::Neg, UnOp::Flip, UnOp::Not] {
        show(alloc, &mut out, unary_value(op, a))?;
    }
    Ok(out)
}

/// What Java 17 prints for `+`, `-`, `*`, `/`, `%`, `<<`, `>>`, `>>>`, `&`, `|`, `^`, `==`, `!=`, `<`, `<=`, `>`, `>=`,
/// and for `+a`, `-a`, `~a` and `!a`, with `-` where `javac` refuses the operands.
#[test]
fn operators_agree_with_java(rt: HostRuntime) -> Result<(), Fail> {
    let alloc = rt.alloc();
    let rows = [
        (
            Cell::Int(i32::MIN),
            Cell::Int(-1),
            " 2147483647 -2147483647 -2147483648 -2147483648 0 0 -1 1 -2147483648 -1 2147483647 false true true true \
            false false; -2147483648 -2147483648 2147483647 -",
        ),
        (
            Cell::Int(7),
            Cell::Int(-2),
            " 5 9 -14 -3 1 -1073741824 0 0 6 -1 -7 false true false false true true; 7 -7 -8 -",
        ),
        (
            Cell::Int(-9),
            Cell::Int(33),
            " 24 -42 -297 0 -9 -18 -5 2147483643 33 -9 -42 false true true true false false; -9 9 8 -",
        ),
        (
            Cell::Int(5),
            Cell::Int(0),
            " 5 5 0 ArithmeticException ArithmeticException 5 5 5 0 5 5 false true false false true true; 5 -5 -6 -",
        ),
        (
            Cell::Int(-7),
            Cell::Int(-7),
            " -14 0 49 1 0 -234881024 -1 127 -7 -7 0 true false false true false true; -7 7 6 -",
        ),
        (
            Cell::Bool(false),
            Cell::Bool(true),
            " - - - - - - - - false true true false true - - - -; - - - true",
        ),
        (
            Cell::Bool(true),
            Cell::Bool(true),
            " - - - - - - - - true true false true false - - - -; - - - false",
        ),
        (
            Cell::Ref(3),
            Cell::Ref(4),
            " - - - - - - - - - - - false true - - - -; - - - -",
        ),
        (
            Cell::Ref(3),
            Cell::Ref(3),
            " - - - - - - - - - - - true false - - - -; - - - -",
        ),
        (
            Cell::Null,
            Cell::Ref(0),
            " - - - - - - - - - - - false true - - - -; - - - -",
        ),
        (
            Cell::Null,
            Cell::Null,
            " - - - - - - - - - - - true false - - - -; - - - -",
        ),
        (
            Cell::Int(1),
            Cell::Bool(true),
            " - - - - - - - - - - - - - - - - -; 1 -1 -2 -",
        ),
    ];
    for (a, b, expected) in rows {
        assert_eq!(rt; results(alloc, &a, &b)?.as_str(), expected);
    }
    Ok(())
}

/// What Java 17 prints for `a + b`, `a.length()` and `a.equals(b)`, with `-` where `javac` refuses them and the
/// exception where `a` is null.
#[test]
fn texts_agree_with_java(rt: HostRuntime) -> Result<(), Fail> {
    let alloc = rt.alloc();
    let rows = [
        (cafe(alloc)?, Cell::Int(-12), " café-12 4 -"),
        (cafe(alloc)?, cafe(alloc)?, " cafécafé 4 true"),
        (smile(alloc)?, cafe(alloc)?, " a😀café 3 false"),
        (empty(alloc)?, Cell::Null, " null 0 false"),
        (
            Cell::Null,
            Cell::Bool(true),
            " nulltrue NullPointerException NullPointerException",
        ),
        (Cell::Bool(false), smile(alloc)?, " falsea😀 - -"),
    ];
    for (a, b, expected) in rows {
        let mut out = String::new(alloc);
        show(alloc, &mut out, concatenated(alloc, &a, &b)?)?;
        show(alloc, &mut out, text_length(&a))?;
        show(alloc, &mut out, text_equals(&a, &b))?;
        assert_eq!(rt; out.as_str(), expected);
    }
    Ok(())
}

/// The compound assignments `+=`, `-=`, `*=`, `/=`, `%=`, `<<=`, `>>=`, `>>>=`, `&=`, `|=` and `^=` with 7 and -2, and
/// `+=` on a String, as Java 17 prints them.
#[test]
fn compound_assignments_agree_with_java(rt: HostRuntime) -> Result<(), Fail> {
    let alloc = rt.alloc();
    let mut out = String::new(alloc);
    for op in [
        UpOp::Add,
        UpOp::Sub,
        UpOp::Mul,
        UpOp::Div,
        UpOp::Rem,
        UpOp::Shl,
        UpOp::Shr,
        UpOp::Ushr,
        UpOp::BitAnd,
        UpOp::BitOr,
        UpOp::BitXor,
        UpOp::Concat,
    ] {
        show(
            alloc,
            &mut out,
            update_value(alloc, op, &Cell::Int(7), &Cell::Int(-2))?,
        )?;
    }
    assert_eq!(rt; out.as_str(), " 5 9 -14 -3 1 -1073741824 0 0 6 -1 -7 7-2");
    Ok(())
}

// The text twice, one after the other.
fn doubled(alloc: Global, v: &Cell<u32>) -> Result<Cell<u32>, OutOfMemory> {
    match concatenated(alloc, v, v)? {
        Computed::Gives(twice) => Ok(twice),
        _ => Ok(Cell::Null),
    }
}

/// A text has at most 1,048,576 code units: four, doubled 18 times, are as many, and a further character is too much.
#[test]
fn texts_have_a_limit(rt: HostRuntime) -> Result<(), Fail> {
    let alloc = rt.alloc();
    let mut longest = cafe(alloc)?;
    for _ in 0..18 {
        longest = doubled(alloc, &longest)?;
    }
    assert!(rt; matches!(text_length(&longest), Computed::Gives(Cell::Int(1_048_576))));
    assert!(rt;
        matches!(
            concatenated(alloc, &longest, &Cell::Int(1))?,
            Computed::TooLong
        )
    );
    assert!(rt;
        matches!(
            concatenated(alloc, &longest, &empty(alloc)?)?,
            Computed::Gives(_)
        )
    );
    let once_more = match &longest {
        Cell::Text(text) => literal(text)?,
        _ => Computed::NoMeaning,
    };
    assert!(rt;
        matches!(
            text_equals(&longest, &longest),
            Computed::Gives(Cell::Bool(true))
        )
    );
    assert!(rt; matches!(once_more, Computed::Gives(Cell::Text(_))));
    Ok(())
}

#[test]
fn a_line_ends_with_a_line_feed(rt: HostRuntime) -> Result<(), Fail> {
    let alloc = rt.alloc();
    let line = print_bytes(alloc, true, &smile(alloc)?)?;
    assert!(rt; line.is_some_and(|bytes| bytes.as_slice() == "a😀\n".as_bytes()));
    assert!(rt; print_bytes(alloc, true, &Cell::Ref(0))?.is_none());
    Ok(())
}
