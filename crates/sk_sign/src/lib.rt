//! The domain of signs: which of negative, zero and positive a number may be. Its operations on numbers are best.
#![tactic(auto)]

ghost use Rattle.sk_sign.specs.Best.{SignsAreBest};
ghost use Rattle.sk_sign.specs.Inclusion.{OrderIsInclusion};

mod grid;
mod sign;
mod tables;
#[cfg(test)]
mod tests;

pub use grid::Grid;
pub use sign::Sign;

/// A sign or truth value is in a result exactly where numbers of the arguments give it.
pub fn signs_are_best()
    ensures { SignsAreBest }
{}

/// A set is below another exactly where each number that it holds is held by the other.
pub fn order_is_inclusion()
    ensures { OrderIsInclusion }
{}
