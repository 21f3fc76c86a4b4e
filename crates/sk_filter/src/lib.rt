//! The atomic operations: what each filter gives on its arguments. The derivations and the interpreter stand on it.
#![tactic(auto)]

mod arg;
mod arith;
mod filters;
mod results;
mod single;

pub use arg::Arg;
pub use filters::{apply, is_choice};
pub use results::Results;

#[cfg(test)]
mod tests;
