//! The numbers of methods and constructors.

ghost use Rattle.std.specs.Prelude.{◌≡◌, ◌+◌, IfOk, suc};
ghost use Rattle.java_names.specs.Numbers as spec;

use crate::built_in::{is_built_in, needs_maker};
use class_table::ClassRow;
use std::alloc::AllocError;

/// The numbers that come next.
#[derive(Clone, Copy, Drop)]
pub struct Numbers {
    /// That of a method.
    pub method: u32,
    /// That of a constructor that is written.
    pub maker: u32,
    /// That of a constructor that is made.
    pub made: u32,
}

/// The sum of two counts. `AllocError` where it is no `u32`.
pub fn sum(number: u32, count: usize) -> Result<u32, AllocError>
    ensures { IfOk result (λ next. next ≡ number + count) }
{
    let left = u32::MAX - number;
    if count > left as usize {
        return Err(AllocError);
    }
    Ok(number + count as u32)
}

/// The number after this one. `AllocError` where there is none.
pub fn following(number: u32) -> Result<u32, AllocError>
    ensures { IfOk result (λ next. next ≡ suc number) }
{
    sum(number, 1)
}

/// How many constructors are made for class number `class`.
fn made_for(class: u32, row: &ClassRow) -> usize
    ensures { result ≡ spec.made_for class row.now }
{
    if needs_maker(class, row.makers.get().as_slice()) {
        1
    } else {
        0
    }
}

/// The numbers that come next after class number `class`, where they are `numbers` before it. `AllocError` where there
/// is no further number.
pub fn numbers_after(class: u32, numbers: Numbers, row: &ClassRow) -> Result<Numbers, AllocError>
    ensures { IfOk result (λ next. next ≡ spec.numbers_after class numbers row.now) }
{
    if is_built_in(class) {
        return Ok(numbers);
    }
    Ok(Numbers {
        method: sum(numbers.method, row.methods.get().len())?,
        maker: sum(numbers.maker, row.makers.get().len())?,
        made: sum(numbers.made, made_for(class, row))?,
    })
}

/// How many constructors are written in class number `class` of the file; none where it is built in.
fn written_in(class: u32, row: &ClassRow) -> usize
    ensures { result ≡ spec.written_in class row.now }
{
    if is_built_in(class) {
        0
    } else {
        row.makers.get().len()
    }
}

/// The numbers that come first. `AllocError` where there are too many constructors.
pub fn first_numbers(rows: &[ClassRow]) -> Result<Numbers, AllocError>
    ensures { IfOk result (λ numbers. numbers ≡ spec.first_numbers rows.now) }
{
    let mut written = 0u32;
    let mut class = 0u32;
    for row in rows {
        written = sum(written, written_in(class, row))?;
        class = sum(class, 1)?;
    }
    Ok(Numbers {
        method: 0,
        maker: 0,
        made: written,
    })
}
