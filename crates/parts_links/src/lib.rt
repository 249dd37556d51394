//! Lists that share their nodes, linked by raw pointers in one block of cells.
//!
//! Proved: lists of nodes: each call changes only the place that it names, and a node stands at most once in all lists; no call
//! after `open` takes memory.
//!
//! Contracts see a list of lists of node numbers, in which each node stands at most once, and name no cell. The end of a list is a cell
//! of the same block, so that no call asks whether a neighbour is there, and each call but `nth`, which walks to its place, takes the
//! same few steps however long the lists are. The block is taken by `open` and given back once, as the lists are dropped; no call after `open` takes memory.
#![tactic(auto)]

mod block;
mod cells;
mod links;

pub use links::Links;
