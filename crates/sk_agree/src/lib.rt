//! Two readings of one definition agree: the table of the least solution of a program's constraints is the analyser's.
#![tactic(auto)]

mod laws;

pub use laws::{
    accepted_are_solutions, least_solutions_are_least, least_solutions_exist, solutions_agree,
    solutions_are_above,
};
