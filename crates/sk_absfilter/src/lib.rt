//! What each filter gives on abstract arguments: it covers what the filter gives on all that they cover. The
//! abstract reading of rules and the constraint solver stand on it.
#![tactic(auto)]

mod arg;
mod cells;
mod filters;
mod laws;
mod outcome;
mod proper;
mod truths;

pub use arg::AbsArg;
pub use filters::abs_apply;
pub use laws::{filters_are_monotone, filters_are_sound, filters_keep_sorts};

#[cfg(test)]
mod tests;
