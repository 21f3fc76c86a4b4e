//! What answers say: laws above the definitions of checks and verdicts. What a bone sees, and what a no says.
#![tactic(auto)]

mod laws;

pub use laws::{
    all_seen_is_defined, bones_are_sorted_exactly, cover_missing_is_right, good_has_no_fault,
    only_seen_is_defined, unjustified_is_right,
};
