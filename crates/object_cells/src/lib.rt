//! A store seen by positions: the cells, kinds and sizes of objects, where a value refers to an object by its position.
//!
//! `heap_arena`'s `Store` asks its caller that an object and a place are there. Each call here tells instead whether
//! they are, as the reference evaluation does, and asks for nothing but what a new object needs. The definitions are
//! those of `heap_arena`'s `specs/Heap` and of `evaluation`'s `specs/Objects`.
//!
//! Read `look`, `cells`, `making` and `fitting`; `position` is what the values of the store and those of positions have
//! in common.
#![tactic(auto)]

mod cells;
mod fitting;
mod look;
mod making;
mod position;

pub use cells::{cell, write};
pub use fitting::object_fits;
pub use look::{class_at, elements_at, elements_count, kind_at};
pub use making::make;
