//! The rows of a class table.

use crate::reading::{name, table_of, tree_of};
use class_table::{ClassRow, FieldRow, table};
use core_tree::Shared;
use java_syntax::{BaseType, CheckError, Fault, Modifier, TypeTree};
use std::alloc::{AllocError, Global};
use std::test::Fail;

/// A source in which `A` is token 1 and class 18, and `main` is token 5.
const ONE_CLASS: &str = "class A { static void main(String[] args) { } }";

#[test]
fn one_class_has_a_table(rt: HostRuntime) -> Result<(), Fail> {
    let alloc = rt.alloc();
    let table = table(alloc, &tree_of(alloc, ONE_CLASS)?)?;
    assert_eq!(&rt; table.classes.len(), 19);
    assert_eq!(&rt; table.find(&name(alloc, "A")?), Some(18));
    assert_eq!(&rt; table.find(&name(alloc, "B")?), None);
    let row = table.classes.get(18).ok_or("no row")?;
    assert_eq!(&rt; row.line.as_slice(), [18, 0].as_slice());
    let [method] = row.methods.get().as_slice() else {
        return Err(Fail::from("not one method"));
    };
    assert_eq!(&rt; method.at, 5);
    Ok(())
}

/// Without a class there is no `main`, at the first token.
#[test]
fn no_class_has_no_main(rt: HostRuntime) -> Result<(), Fail> {
    let tree = tree_of(rt.alloc(), "")?;
    match table(rt.alloc(), &tree) {
        Err(CheckError::Fault(fault)) => assert_eq!(&rt; fault, Fault { rule: 7, at: 0 }),
        _ => assert!(&rt; false),
    }
    Ok(())
}

#[test]
fn shared_values(rt: HostRuntime) -> Result<(), Fail> {
    let one = Shared::new(rt.alloc(), 7)?;
    let other = one.share()?;
    assert_eq!(&rt; *one.get(), 7);
    assert_eq!(&rt; *other.get(), 7);
    Ok(())
}

/// The built-in classes by their numbers, each with the number of its superclass.
const BUILT_IN: [(&str, Option<u32>); 18] = [
    ("Object", None),
    ("Throwable", Some(0)),
    ("Exception", Some(1)),
    ("RuntimeException", Some(2)),
    ("Error", Some(1)),
    ("ArithmeticException", Some(3)),
    ("NullPointerException", Some(3)),
    ("NegativeArraySizeException", Some(3)),
    ("FallbackError", Some(4)),
    ("ClassCastException", Some(3)),
    ("ArrayStoreException", Some(3)),
    ("IndexOutOfBoundsException", Some(3)),
    ("ArrayIndexOutOfBoundsException", Some(11)),
    ("IllegalArgumentException", Some(3)),
    ("IllegalStateException", Some(3)),
    ("UnsupportedOperationException", Some(3)),
    ("StackOverflowError", Some(4)),
    ("RequiresError", Some(4)),
];

#[test]
fn built_in_classes(rt: HostRuntime) -> Result<(), Fail> {
    let alloc = rt.alloc();
    let table = table_of(alloc, ONE_CLASS)?;
    for (number, (text, parent)) in BUILT_IN.iter().enumerate() {
        let row = table.classes.get(number).ok_or("no row")?;
        assert!(&rt; row.name == name(alloc, text)?, "{text}");
        assert_eq!(&rt; row.parent, *parent, "{text}");
        assert_eq!(&rt; row.at, 0, "{text}");
        let makers = if number == 0 { 1 } else { 2 };
        assert_eq!(&rt; row.makers.get().len(), makers, "{text}");
        let methods = if number == 1 { 1 } else { 0 };
        assert_eq!(&rt; row.methods.get().len(), methods, "{text}");
    }
    assert_eq!(&rt; table.classes.len(), 19);
    Ok(())
}

/// A source in which `B` is token 1 and class 18, and `A` token 16 and class 19.
const SAMPLE: &str = "class B extends A { int y; void n() { } }
class A extends Error {
  static final boolean c = true; A[] x;
  private int m(int first, A[] second) throws Exception, Error { return first; }
  A(int a) throws Exception { }
}
class Main { public static void main(String[] args) { } }";

/// The fields of `B`, those of its superclasses first: name, owner, place and token.
const FIELDS: [(&str, u32, Option<u32>, u32); 4] = [
    ("#message", 1, Some(0), 0),
    ("c", 19, None, 23),
    ("x", 19, Some(1), 30),
    ("y", 18, Some(2), 6),
];

/// The fields of a row in order.
fn all_fields<'a>(alloc: Global, row: &'a ClassRow) -> Result<Vec<&'a FieldRow>, AllocError> {
    let mut all = Vec::new(alloc);
    for part in row.fields.parts() {
        for field in part.get().as_slice() {
            all.push(field)?;
        }
    }
    Ok(all)
}

#[test]
fn fields_of_a_row(rt: HostRuntime) -> Result<(), Fail> {
    let alloc = rt.alloc();
    let table = table_of(alloc, SAMPLE)?;
    let row = table.classes.get(18).ok_or("no row")?;
    assert_eq!(&rt; row.parent, Some(19));
    assert_eq!(&rt; row.line.as_slice(), [18, 19, 4, 1, 0].as_slice());
    assert_eq!(&rt; row.at, 1);
    let all = all_fields(alloc, row)?;
    assert_eq!(&rt; all.len(), FIELDS.len());
    for (field, (text, owner, place, at)) in all.iter().zip(FIELDS.iter()) {
        assert!(&rt; field.name == name(alloc, text)?, "{text}");
        assert_eq!(&rt; field.owner, *owner, "{text}");
        assert_eq!(&rt; field.place, *place, "{text}");
        assert_eq!(&rt; field.at, *at, "{text}");
    }
    Ok(())
}

/// Whether a type is `A[]`.
fn is_array_of_a(alloc: Global, ty: &TypeTree) -> Result<bool, AllocError> {
    match &ty.base {
        BaseType::Class(class) => Ok(class.name == name(alloc, "A")? && ty.dimensions == 1),
        _ => Ok(false),
    }
}

/// Whether a type is `int`.
fn is_int(ty: &TypeTree) -> bool {
    matches!(ty.base, BaseType::Int) && ty.dimensions == 0
}

#[test]
fn methods_of_a_row(rt: HostRuntime) -> Result<(), Fail> {
    let alloc = rt.alloc();
    let table = table_of(alloc, SAMPLE)?;
    let row = table.classes.get(19).ok_or("no row")?;
    let [method] = row.methods.get().as_slice() else {
        return Err(Fail::from("not one method"));
    };
    assert!(&rt; method.name == name(alloc, "m")?);
    assert_eq!(&rt;
        method.mods.words.as_slice(),
        [Modifier::Private].as_slice()
    );
    assert!(&rt; matches!(&method.answer, Some(ty) if is_int(ty)));
    let [first, second] = method.params.as_slice() else {
        return Err(Fail::from("not two parameters"));
    };
    assert!(&rt; is_int(first) && is_array_of_a(alloc, second)?);
    let names = [name(alloc, "first")?, name(alloc, "second")?];
    assert!(&rt; method.names.as_slice() == names.as_slice());
    let throws = [name(alloc, "Exception")?, name(alloc, "Error")?];
    assert!(&rt; method.throws.as_slice() == throws.as_slice());
    assert_eq!(&rt; method.at, 34);
    Ok(())
}

#[test]
fn constructors_of_a_row(rt: HostRuntime) -> Result<(), Fail> {
    let alloc = rt.alloc();
    let table = table_of(alloc, SAMPLE)?;
    let row = table.classes.get(19).ok_or("no row")?;
    let [maker] = row.makers.get().as_slice() else {
        return Err(Fail::from("not one constructor"));
    };
    let [only] = maker.params.as_slice() else {
        return Err(Fail::from("not one parameter"));
    };
    assert!(&rt; is_int(only));
    assert!(&rt; maker.throws.as_slice() == [name(alloc, "Exception")?].as_slice());
    assert_eq!(&rt; maker.at, 53);
    Ok(())
}
