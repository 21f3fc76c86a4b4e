//! Searches in the marks of a widening.

ghost use Rattle.std.specs.Prelude.{◌≡◌, ◌≤◌, ◌^◌, true, false, int_le, int_lt, length};
ghost use Rattle.std.specs.List.Sorted.{IsPartitionPoint};
ghost use Rattle.sk_interval.specs.Widening.{ceiling_mark, floor_mark, marks_above, marks_below, widen_high, widen_low};

use crate::bounds::Bounds;
use sk_lattice::Thresholds;

/// How many marks lie below a number; they come first.
fn count_below(marks: &Thresholds, number: &i64) -> usize
    ensures bound { result ≤ length marks.now }
    ensures first { IsPartitionPoint (λ m. int_lt m number.now ≡ true) (λ m. int_lt m number.now ≡ false) marks.now result }
{
    marks.increase();
    marks.as_slice().partition_point(|mark| *mark < *number)
}

/// How many marks are at most a number; they come first.
fn count_at_most(marks: &Thresholds, number: &i64) -> usize
    ensures bound { result ≤ length marks.now }
    ensures first { IsPartitionPoint (λ m. int_le m number.now ≡ true) (λ m. int_le m number.now ≡ false) marks.now result }
{
    marks.increase();
    marks.as_slice().partition_point(|mark| *mark <= *number)
}

/// The greatest mark at most the low end.
fn floor_mark(marks: &Thresholds, b: Bounds) -> i64
    ensures { result ≡ floor_mark marks.now b.low }
{
    marks.increase();
    let count = count_at_most(marks, &b.low);
    *marks.get(count - 1)
}

/// The least mark at least the high end.
fn ceiling_mark(marks: &Thresholds, b: Bounds) -> i64
    ensures { result ≡ ceiling_mark marks.now b.high }
{
    marks.increase();
    *marks.get(count_below(marks, &b.high))
}

/// The low end of a widening.
pub fn widen_low(a: Bounds, b: Bounds, marks: &Thresholds) -> i64
    ensures { result ≡ widen_low a b marks.now }
{
    if a.low <= b.low {
        a.low
    } else {
        floor_mark(marks, b)
    }
}

/// The high end of a widening.
pub fn widen_high(a: Bounds, b: Bounds, marks: &Thresholds) -> i64
    ensures { result ≡ widen_high a b marks.now }
{
    if b.high <= a.high {
        a.high
    } else {
        ceiling_mark(marks, b)
    }
}

/// How many marks lie below the low end.
pub fn marks_below(marks: &Thresholds, a: Bounds) -> u64
    ensures value { result ≡ marks_below a marks.now }
    ensures few { result ≤ 2 ^ 32 }
{
    marks.increase();
    count_below(marks, &a.low) as u64
}

/// How many marks lie above the high end.
pub fn marks_above(marks: &Thresholds, a: Bounds) -> u64
    ensures value { result ≡ marks_above a marks.now }
    ensures few { result ≤ 2 ^ 32 }
{
    marks.increase();
    (marks.len() - count_at_most(marks, &a.high)) as u64
}
