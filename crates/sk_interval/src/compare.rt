//! Comparisons and refinements of bounds.

ghost use Rattle.std.specs.Prelude.{◌≡◌};
ghost use Rattle.sk_interval.specs.Cuts.{interval_is_empty, meet_bounds};
ghost use Rattle.sk_interval.specs.Comparisons.{bounds_compare, high_without, is_one_number, is_single, left_bounds, low_without, right_bounds, without};

use crate::bounds::{Bounds, Interval};
use crate::span::Span;
use sk_lattice::{AbsBool, Compare, NumDom, Refine};

/// The numbers that both hold.
pub fn meet_bounds(a: Bounds, b: Bounds) -> Interval
    ensures { result ≡ meet_bounds a b }
{
    Span {
        low: i128::from(a.low).max(i128::from(b.low)),
        high: i128::from(a.high).min(i128::from(b.high)),
    }
    .cut()
}

impl Bounds {
    /// Whether there is one number alone.
    fn is_single(self) -> bool
        ensures { result ≡ is_single self }
    {
        self.low == self.high
    }
}

/// Whether both hold one and the same number alone.
fn is_one_number(a: Bounds, b: Bounds) -> bool
    ensures { result ≡ is_one_number a b }
{
    a.is_single() && b.is_single() && a.low == b.low
}

/// Which answers a comparison may have.
pub fn bounds_compare(op: Compare, a: Bounds, b: Bounds) -> AbsBool
    ensures { result ≡ bounds_compare op a b }
{
    match op {
        Compare::Lt => AbsBool {
            has_true: a.low < b.high,
            has_false: b.low <= a.high,
        },
        Compare::Le => AbsBool {
            has_true: a.low <= b.high,
            has_false: b.low < a.high,
        },
        Compare::Eq => AbsBool {
            has_true: !meet_bounds(a, b).is_empty(),
            has_false: !is_one_number(a, b),
        },
    }
}

/// The low end, or the next number where it is the second's.
fn low_without(a: Bounds, b: Bounds) -> i128
    ensures { result ≡ low_without a b }
{
    if a.low == b.low {
        i128::from(a.low) + 1
    } else {
        i128::from(a.low)
    }
}

/// The high end, or the number before it where it is the second's.
fn high_without(a: Bounds, b: Bounds) -> i128
    ensures { result ≡ high_without a b }
{
    if a.high == b.low {
        i128::from(a.high) - 1
    } else {
        i128::from(a.high)
    }
}

/// The first without the second's number at its ends, where that is a single one.
fn without(a: Bounds, b: Bounds) -> Interval
    ensures { result ≡ without a b }
{
    if !b.is_single() {
        return Interval::Range(a);
    }
    Span {
        low: low_without(a, b),
        high: high_without(a, b),
    }
    .cut()
}

/// What a refinement leaves of the first.
pub fn left_bounds(op: Refine, a: Bounds, b: Bounds) -> Interval
    ensures { result ≡ left_bounds op a b }
{
    match op {
        Refine::Below => Span {
            low: i128::from(a.low),
            high: i128::from(a.high).min(i128::from(b.high) - 1),
        }
        .cut(),
        Refine::AtLeast => Span {
            low: i128::from(a.low).max(i128::from(b.low)),
            high: i128::from(a.high),
        }
        .cut(),
        Refine::Same => meet_bounds(a, b),
        Refine::Differ => without(a, b),
    }
}

/// What a refinement leaves of the second.
pub fn right_bounds(op: Refine, a: Bounds, b: Bounds) -> Interval
    ensures { result ≡ right_bounds op a b }
{
    match op {
        Refine::Below => Span {
            low: i128::from(b.low).max(i128::from(a.low) + 1),
            high: i128::from(b.high),
        }
        .cut(),
        Refine::AtLeast => Span {
            low: i128::from(b.low),
            high: i128::from(b.high).min(i128::from(a.high)),
        }
        .cut(),
        Refine::Same => meet_bounds(a, b),
        Refine::Differ => without(b, a),
    }
}
