//! Programs as terms of a definition's constructors, with a point for each node, and their reader.
//! All interpretations go over the nodes of a program by their points.
#![tactic(auto)]

mod arena;
mod expected;
mod fault;
mod laws;
mod node;
mod read;
mod reader;

pub use arena::Arena;
pub use fault::{TermError, TermFault};
pub use laws::{leaves_are_literals, only_terms_are_read, terms_are_read_exactly};
pub use node::{Child, TermNode};
pub use read::read_term;

#[cfg(test)]
mod tests;
