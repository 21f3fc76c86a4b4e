//! The generic walker over the bones of a rule, and what an interpretation of bones is. The sort checks and
//! every reading of rules, concrete, abstract or as constraints, are interpretations that it walks.
#![tactic(auto)]

mod interp;
mod stop;
mod walker;

pub use interp::Interp;
pub use stop::WalkStop;
pub use walker::walk;
