//! Definitions as texts: the reader of a definition, with the places of its parts, and its canonical text.
//! The grammar stands in `specs/Reading` and `specs/Bodies`, for the loop of `sk_lex`.
#![tactic(auto)]

mod bone;
mod draft;
mod expected;
mod fault;
mod meet;
mod places;
mod print;
mod read;
mod source;
mod text;
mod word;

pub use fault::{DefFault, Which};
pub use print::print_def;
pub use source::{Places, Source};
pub use text::read_def;

#[cfg(test)]
mod tests;
