//! Intervals and their bounds.

ghost use Rattle.std.specs.Prelude.{◌≤ℤ◌};
ghost use Rattle.sk_value.specs.Numbers.{IsNumber};

/// The least and the greatest number of an interval.
#[derive(Clone, Copy, Debug, PartialEq, Eq)]
pub struct Bounds {
    pub low: i64,
    pub high: i64,
    pub ghost low_fits: { IsNumber low },
    pub ghost high_fits: { IsNumber high },
    pub ghost ordered: { low ≤ℤ high },
}

/// No number, or the numbers between two bounds.
#[derive(Clone, Copy, Debug, PartialEq, Eq)]
pub enum Interval {
    Empty,
    Range(Bounds),
}
