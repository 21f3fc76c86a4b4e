//! The concrete reading of a definition: the results of a call, each outputs with its derivation of least word. The
//! rules are walked by an interpretation that answers hook bones from derivations that were handed to it. The
//! program's `run` stands on this.
#![tactic(auto)]

mod branches;
mod concrete;
mod derive;
mod env;
mod filters;
mod fits;
mod found;
mod hooks;
mod laws;
mod same;
mod start;
mod tree;
mod world;
mod worlds;

pub use concrete::{Concrete, ConcreteStop};
pub use found::{Found, NodeList, results};
pub use laws::each_call_has_results;
pub use world::{Answer, World};
pub use worlds::Worlds;

#[cfg(test)]
mod tests;
