//! Ends of intervals in 128 bits, and their cut to the numbers.

ghost use Rattle.std.specs.Prelude.{◌≡◌, ◌≢◌, pos, negsuc, ◌*ℤ◌, int_div};
ghost use Rattle.std.specs.Int.{int_max, int_min};
ghost use Rattle.sk_interval.specs.Cuts.{cut, hull_bounds};
ghost use Rattle.sk_interval.specs.Arithmetic.{corners, join_spans, quotients, span_hull, span_of};

use crate::bounds::{Bounds, Interval};

/// Two ends, before the number range is looked at.
#[derive(Clone, Copy)]
pub struct Span {
    pub low: i128,
    pub high: i128,
}

impl Span {
    /// The numbers of the span.
    pub fn cut(self) -> Interval
        ensures { result ≡ cut self.low self.high }
    {
        let low = self.low.max(i128::from(i64::MIN));
        let high = self.high.min(i128::from(i64::MAX));
        if low <= high {
            Interval::Range(Bounds {
                low: low as i64,
                high: high as i64,
            })
        } else {
            Interval::Empty
        }
    }

    /// The least and the greatest of two.
    fn between(p: i128, q: i128) -> Span
        ensures { result ≡ span_of p q }
    {
        Span {
            low: p.min(q),
            high: p.max(q),
        }
    }

    /// The hull of two spans.
    fn hull(self, other: Span) -> Span
        ensures { result ≡ span_hull self other }
    {
        Span {
            low: self.low.min(other.low),
            high: self.high.max(other.high),
        }
    }
}

/// The product of two numbers.
fn product(a: i64, b: i64) -> i128
    ensures { result ≡ a *ℤ b }
{
    i128::from(a) * i128::from(b)
}

/// The products of the ends.
pub fn products(a: Bounds, b: Bounds) -> Span
    ensures { result ≡ corners (λ m n. m *ℤ n) a.low a.high b.low b.high }
{
    let low = Span::between(product(a.low, b.low), product(a.low, b.high));
    let high = Span::between(product(a.high, b.low), product(a.high, b.high));
    low.hull(high)
}

/// The quotient of two numbers, cut toward zero.
fn quotient(a: i64, b: i64) -> i128
    requires { b ≢ pos 0 }
    ensures { result ≡ int_div a b }
{
    i128::from(a) / i128::from(b)
}

/// The quotients of the ends by divisors of one sign.
fn quotients(a: Bounds, low: i64, high: i64) -> Span
    requires low { low ≢ pos 0 }
    requires high { high ≢ pos 0 }
    ensures { result ≡ corners int_div a.low a.high low high }
{
    let least = Span::between(quotient(a.low, low), quotient(a.low, high));
    let greatest = Span::between(quotient(a.high, low), quotient(a.high, high));
    least.hull(greatest)
}

/// The quotients by the negative divisors, if there are any.
pub fn negative_quotients(a: Bounds, b: Bounds) -> Option<Span>
    ensures { result ≡ quotients a b.low (int_min b.high (negsuc 0)) }
{
    let high = b.high.min(-1);
    if b.low <= high {
        Some(quotients(a, b.low, high))
    } else {
        None
    }
}

/// The quotients by the positive divisors, if there are any.
pub fn positive_quotients(a: Bounds, b: Bounds) -> Option<Span>
    ensures { result ≡ quotients a (int_max b.low (pos 1)) b.high }
{
    let low = b.low.max(1);
    if low <= b.high {
        Some(quotients(a, low, b.high))
    } else {
        None
    }
}

/// The numbers of the hull of two bounds.
pub fn hull_bounds(a: Bounds, b: Bounds) -> Interval
    ensures { result ≡ hull_bounds a b }
{
    Span {
        low: i128::from(a.low).min(i128::from(b.low)),
        high: i128::from(a.high).max(i128::from(b.high)),
    }
    .cut()
}

/// The numbers of the hull of what is there.
pub fn join_spans(first: Option<Span>, second: Option<Span>) -> Interval
    ensures { result ≡ join_spans first second }
{
    match (first, second) {
        (Some(a), Some(b)) => a.hull(b).cut(),
        (Some(a), None) | (None, Some(a)) => a.cut(),
        (None, None) => Interval::Empty,
    }
}
