//! Digraphs: classes of mutual reach, and reach as rows of bits.
//! A contract sees a `Digraph` as the ascending lists of the heads of each node; the nodes are the numbers below the number of lists.
//! Open specs/Heads.antt for what a digraph keeps and specs/Classes.antt for classes.
//! Walks and reach are those of conley_walk, rows of bits those of conley_order.
#![tactic(auto)]

mod digraph;
mod error;
mod numbering;
mod rows;
mod search;
mod turning;

pub use digraph::Digraph;
pub use error::DigraphError;
pub use numbering::classes;
pub use turning::turned_round;

/// Want of memory.
pub type NoMemory = std::alloc::AllocError;
