//! Whether a definition is well sorted, and its first fault where it isn't. The checks are an interpretation that
//! the walker walks; every reading of rules takes the `Checked` that they give.
#![tactic(auto)]

mod checked;
mod checks;
mod defines;
mod error;
mod header;
mod interp;
mod laws;
mod rule;
#[cfg(test)]
mod tests;

pub use checked::{Checked, check_sorts};
pub use checks::VarSorts;
pub use defines::{define_exports, define_flows, define_results};
pub use error::{SortError, SortFault};
pub use header::header_sorts;
pub use interp::{SortInterp, SortStop};
pub use laws::{bones_are_placed, hooks_have_rules, is_well_sorted_exactly, rules_are_sorted};
