//! Fills a heap up to its limit of 16,777,216 cells and prints how many objects and cells it then has. The word says in
//! which shape: one array, a list of nodes, or arrays without elements. `bench/heap` measures its time and memory.
#![tactic(auto)]

use core_tree::{Program, Ty};
use heap_arena::{Cell, CopyStore, Kind, MakeError, Store};
use sqlite_items::Items;
use std::alloc::Global;
use std::env;

/// What the heap is filled with.
#[derive(Clone, Copy, Drop)]
enum Shape {
    /// One array of ints.
    Array,
    /// Nodes of two cells, a number and a reference to the node before.
    Nodes,
    /// Arrays without elements.
    Empty,
}

fn main(rt: HostRuntime) -> anyhow::Result<()> {
    let alloc = rt.alloc();
    let mut shape = Shape::Nodes;
    for word in env::args(&rt)? {
        match word.as_str() {
            "array" => shape = Shape::Array,
            "empty" => shape = Shape::Empty,
            _ => {}
        }
    }
    let mut store = CopyStore::new(alloc, &no_classes(alloc))?;
    fill(&mut store, shape)?;
    println!(rt; "{} objects, {} cells", store.len(), store.cells())?;
    Ok(())
}

// A program without classes.
fn no_classes(alloc: Global) -> Program {
    Program {
        classes: Items::new(alloc),
        methods: Items::new(alloc),
        makers: Items::new(alloc),
        main: 0,
    }
}

fn fill<S: Store>(store: &mut S, shape: Shape) -> Result<(), MakeError> {
    match shape {
        Shape::Array => {
            store.make(Kind::Array(Ty::Int), 16_777_215)?;
            Ok(())
        }
        Shape::Nodes => fill_with_nodes(store),
        Shape::Empty => fill_with_empty(store),
    }
}

// 5,592,405 nodes of three cells each, and an object of one cell.
fn fill_with_nodes<S: Store>(store: &mut S) -> Result<(), MakeError> {
    for _ in 0..5_592_405_u32 {
        let node = store.make(Kind::Array(Ty::Class(0)), 2)?;
        store.write(node, 0, Cell::Int(1))?;
        store.write(node, 1, Cell::Ref(node))?;
    }
    store.make(Kind::Array(Ty::Int), 0)?;
    Ok(())
}

fn fill_with_empty<S: Store>(store: &mut S) -> Result<(), MakeError> {
    for _ in 0..16_777_216_u32 {
        store.make(Kind::Array(Ty::Int), 0)?;
    }
    Ok(())
}
