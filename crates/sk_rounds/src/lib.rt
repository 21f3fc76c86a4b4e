//! The theory of the analyser's rounds over any keys, tuples and walks: when they end, in which table, and what holds of
//! it. And that abstract tuples over any domain are such tuples. The analyser stands on it.
#![tactic(auto)]

mod laws;
mod phases;
mod tuples;

pub use laws::{example_laws, least_laws, replay_laws, rounds_laws, table_laws};
pub use phases::{marked_laws, second_laws, second_marked_laws};
pub use tuples::{tuple_meeting, tuple_order, tuple_widening};
