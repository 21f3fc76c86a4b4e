//! The analyser by full rounds: from the cover lines to the table at the first round that changes nothing. By the laws of
//! the abstract reading that table is accepted, comes in time, and on finite domains is the least.
#![tactic(auto)]

mod hook_count;
mod job;
mod key_list;
mod round;
mod rounds;
mod side;
mod sides;
mod slots;
mod told;

pub use rounds::{Analysis, analyse};
