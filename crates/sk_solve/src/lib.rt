//! Assignments of tuples to the positions of a list of constraints: which satisfy the list, which is the least of them,
//! its solver over a finite domain, and the table that an assignment gives.
#![tactic(auto)]

mod assignment;
mod laws;
mod raising;
mod reading;
mod slot;
mod solving;
mod table;

pub use assignment::{Assignment, PositionList, Solved};
pub use laws::least_is_one;
pub use solving::solve;
pub use table::table_of;
