//! The domain of intervals: no number, or all numbers between two bounds. Widening stops at the thresholds of a
//! program. What reads, checks or makes tables over intervals stands on it.
#![tactic(auto)]

ghost use Rattle.sk_interval.specs.Sets.{IntervalsAreSets};
ghost use Rattle.sk_interval.specs.Spellings.{FaultsAreFirst, SpellingsAreTaken};
ghost use Rattle.sk_interval.specs.Widening.{MarksAreNearest};

mod arith;
mod bounds;
mod compare;
mod domain;
mod marks;
mod span;
#[cfg(test)]
mod tests;
mod text;

pub use bounds::{Bounds, Interval};

/// A cut holds the numbers between its ends, the order is inclusion, and the sides of a refinement are empty together.
pub fn intervals_are_sets()
    ensures { IntervalsAreSets }
{}

/// Each number lies between the greatest threshold at most and the least threshold at least as great.
pub fn marks_are_nearest()
    ensures { MarksAreNearest }
{}

/// An interval is taken from a text exactly where one of its spellings stands: `none`, or two ends in order between
/// brackets, each a number, `min` or `max`.
pub fn spellings_are_taken()
    ensures { SpellingsAreTaken }
{}

/// Where no interval is taken, the place is that of the first token that fits no spelling.
pub fn faults_are_first()
    ensures { FaultsAreFirst }
{}
