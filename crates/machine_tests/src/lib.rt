//! Tests of the crates that a run stands on, in a crate of their own: a crate with tests is proved twice.
//!
//! `files` and `sinks` test `pb_io`, `ints` tests `pb_int`, `texts` tests `core_tree`, `heap` tests `heap_arena`,
//! `classes` tests `class_order`, `cells` tests `object_cells`, and `operators` tests `value_operators`.
#![tactic(auto)]

#[cfg(test)]
mod cells;
#[cfg(test)]
mod classes;
#[cfg(test)]
mod files;
#[cfg(test)]
mod heap;
#[cfg(test)]
mod ints;
#[cfg(test)]
mod operators;
#[cfg(test)]
mod sinks;
#[cfg(test)]
mod texts;
