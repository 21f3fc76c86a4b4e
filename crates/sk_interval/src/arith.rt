//! Arithmetic on bounds.

ghost use Rattle.std.specs.Prelude.{◌≡◌, false, neg_ℤ};
ghost use Rattle.sk_interval.specs.Cuts.{cut};
ghost use Rattle.sk_interval.specs.Arithmetic.{bounds_arith, divide, is_far, is_zero, no_pick, pick, pick_high, pick_low, reach, remainder, remainder_high, remainder_low};

use crate::bounds::{Bounds, Interval};
use crate::span::{Span, join_spans, negative_quotients, positive_quotients, products};
use sk_lattice::Arith;

/// How many numbers apart the ends of a pick may be.
const PICK_WIDTH: i128 = 63;

/// The results of an operation on the numbers between bounds.
pub fn bounds_arith(op: Arith, a: Bounds, b: Bounds) -> Interval
    ensures { result ≡ bounds_arith op a b }
{
    match op {
        Arith::Add => Span {
            low: i128::from(a.low) + i128::from(b.low),
            high: i128::from(a.high) + i128::from(b.high),
        }
        .cut(),
        Arith::Sub => Span {
            low: i128::from(a.low) - i128::from(b.high),
            high: i128::from(a.high) - i128::from(b.low),
        }
        .cut(),
        Arith::Mul => products(a, b).cut(),
        Arith::Div => divide(a, b),
        Arith::Rem => remainder(a, b),
        Arith::Pick => pick(a, b),
    }
}

/// The quotients by the negative divisors and by the positive ones.
fn divide(a: Bounds, b: Bounds) -> Interval
    ensures { result ≡ divide a b }
{
    join_spans(negative_quotients(a, b), positive_quotients(a, b))
}

impl Bounds {
    /// Whether there is zero alone.
    fn is_zero(self) -> bool
        ensures { result ≡ is_zero self }
    {
        self.low == 0 && self.high == 0
    }

    /// The greatest distance of a number from zero.
    fn reach(self) -> u64
        ensures { result ≡ reach self }
    {
        self.low.unsigned_abs().max(self.high.unsigned_abs())
    }
}

/// The least remainder, where the divisors aren't zero alone.
fn remainder_low(a: Bounds, b: Bounds) -> i128
    requires { is_zero b ≡ false }
    ensures { result ≡ remainder_low a b }
{
    if a.low < 0 {
        i128::from(a.low).max(1 - i128::from(b.reach()))
    } else {
        0
    }
}

/// The greatest remainder, where the divisors aren't zero alone.
fn remainder_high(a: Bounds, b: Bounds) -> i128
    requires { is_zero b ≡ false }
    ensures { result ≡ remainder_high a b }
{
    if a.high > 0 {
        i128::from(a.high).min(i128::from(b.reach()) - 1)
    } else {
        0
    }
}

/// The remainders, with the signs of the dividends.
fn remainder(a: Bounds, b: Bounds) -> Interval
    ensures { result ≡ remainder a b }
{
    if b.is_zero() {
        return Interval::Empty;
    }
    Span {
        low: remainder_low(a, b),
        high: remainder_high(a, b),
    }
    .cut()
}

/// Whether each number of the second lies more than 63 above each of the first.
fn is_far(a: Bounds, b: Bounds) -> bool
    ensures { result ≡ is_far a b }
{
    i128::from(a.high) + PICK_WIDTH < i128::from(b.low)
}

/// Whether no number of the first is at most one of the second and near it.
fn no_pick(a: Bounds, b: Bounds) -> bool
    ensures { result ≡ no_pick a b }
{
    b.high < a.low || is_far(a, b)
}

/// The least number of a pick.
fn pick_low(a: Bounds, b: Bounds) -> i128
    ensures { result ≡ pick_low a b }
{
    i128::from(a.low).max(i128::from(b.low) - PICK_WIDTH)
}

/// The greatest number of a pick.
fn pick_high(a: Bounds, b: Bounds) -> i128
    ensures { result ≡ pick_high a b }
{
    i128::from(b.high).min(i128::from(a.high) + PICK_WIDTH)
}

/// The numbers from one of the first to one of the second, at most 63 apart.
fn pick(a: Bounds, b: Bounds) -> Interval
    ensures { result ≡ pick a b }
{
    if no_pick(a, b) {
        return Interval::Empty;
    }
    Span {
        low: pick_low(a, b),
        high: pick_high(a, b),
    }
    .cut()
}

/// The negations.
pub fn neg_bounds(a: Bounds) -> Interval
    ensures { result ≡ cut (neg_ℤ a.high) (neg_ℤ a.low) }
{
    Span {
        low: -i128::from(a.high),
        high: -i128::from(a.low),
    }
    .cut()
}
