//! The table checker: the verdict on a table for a program and its cover lines, and what yes says of all derivations.
//! The commands that read or write tables stand on it.
#![tactic(auto)]

mod checker;
mod laws;

pub use checker::verify;
pub use laws::read_tables_fit;
pub use sk_abswalk::{Verdict, Why};
