//! Derivations: the valid trees of a call, their heights and their words, the results of a call as the derivations of
//! least word, and forests that share subtrees; and the reader of tuples of values. The concrete and the abstract
//! reading stand on this.
#![tactic(auto)]

mod call;
mod entry;
mod expected;
mod fault;
mod forest;
mod laws;
mod lines;
mod order;
mod read;
mod reader;

pub use call::Call;
pub use entry::Entry;
pub use fault::{TupleError, TupleFault};
pub use forest::{Forest, Node, Step, StepList};
pub use laws::{
    exchange_keeps, listing_is_exact, nodes_are_trees, results_are_one, trees_stay, words_decode,
};
pub use read::read_tuple;

#[cfg(test)]
mod tests;
