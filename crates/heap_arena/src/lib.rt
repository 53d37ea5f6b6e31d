//! The heap after a trait: objects by position, and marks that the heap can be set back to.
//!
//! A heap is a list of objects, and an object a kind with a list of values. `Store` is the crate's one contract: what
//! each call does to the heap and to the heaps that are marked, and what holds of them at every moment. `CopyStore`
//! keeps that contract by whole copies; a faster store can take its place. `specs/Reach` says which objects references
//! lead to.
//!
//! Read `kind`, `cell`, `object` and `call`, then `specs/Heap`, `specs/Marks`, `specs/State`, `specs/Reach`, and
//! `store` with `error`. `law` has calls over any store, proved from the trait alone. `copy_store` stands on `obj_ref`,
//! `object_list` and `stack`. `proofs/WorkedHeaps` computes a small heap against the definitions.
#![tactic(auto)]

mod call;
mod cell;
mod copy_store;
mod error;
mod kind;
pub mod law;
mod obj_ref;
mod object;
mod object_list;
mod stack;
mod store;

pub use call::Call;
pub use cell::Cell;
pub use copy_store::CopyStore;
pub use error::MakeError;
pub use kind::Kind;
pub use obj_ref::ObjRef;
pub use stack::Stack;
pub use store::Store;
