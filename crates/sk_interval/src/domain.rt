//! The domain.

use crate::arith::{bounds_arith, neg_bounds};
use crate::bounds::Interval;
use crate::compare::{bounds_compare, left_bounds, meet_bounds, right_bounds};
use crate::marks::{marks_above, marks_below, widen_high, widen_low};
use crate::span::{Span, hull_bounds};
use crate::text::{is_none_at, put_bounds, take_bounds};
use sk_base::NoMemory;
use sk_lattice::{AbsBool, Arith, Compare, NumDom, Refine, Thresholds};
use sk_lex::Token;
use sk_value::put_bytes;

impl NumDom for Interval {
    ghost use Rattle.std.specs.Prelude.{false};
    ghost use Rattle.sk_interval.specs.Intervals.{interval_domain};
    ghost use Rattle.sk_interval.specs.Laws.{interval_laws, interval_finite};
    ghost use Rattle.sk_interval.specs.Laws.Texts.{interval_text_laws};
    ghost use Rattle.sk_interval.specs.Texts.{interval_texts};

    const FINITE: bool = false;

    ghost FINITE = { false };

    ghost domain = { interval_domain };

    ghost texts = { interval_texts };

    fn domain_word() -> &'static str {
        "interval"
    }

    fn empty() -> Interval {
        Interval::Empty
    }

    fn any() -> Interval {
        Span {
            low: i128::from(i64::MIN),
            high: i128::from(i64::MAX),
        }
        .cut()
    }

    fn of(number: i64) -> Interval {
        Span {
            low: i128::from(number),
            high: i128::from(number),
        }
        .cut()
    }

    fn holds(self, number: i64) -> bool {
        match self {
            Interval::Empty => false,
            Interval::Range(a) => a.low <= number && number <= a.high,
        }
    }

    fn is_empty(self) -> bool {
        matches!(self, Interval::Empty)
    }

    fn leq(self, other: Interval) -> bool {
        let Interval::Range(a) = self else {
            return true;
        };
        match other {
            Interval::Empty => false,
            Interval::Range(b) => b.low <= a.low && a.high <= b.high,
        }
    }

    fn join(self, other: Interval) -> Interval {
        let Interval::Range(a) = self else {
            return other;
        };
        let Interval::Range(b) = other else {
            return self;
        };
        hull_bounds(a, b)
    }

    fn meet(self, other: Interval) -> Interval {
        let Interval::Range(a) = self else {
            return Interval::Empty;
        };
        let Interval::Range(b) = other else {
            return Interval::Empty;
        };
        meet_bounds(a, b)
    }

    fn widen(self, new: Interval, marks: &Thresholds) -> Interval {
        let Interval::Range(a) = self else {
            return new;
        };
        let Interval::Range(b) = new else {
            return self;
        };
        Span {
            low: i128::from(widen_low(a, b, marks)),
            high: i128::from(widen_high(a, b, marks)),
        }
        .cut()
    }

    fn rank(self, marks: &Thresholds) -> u64 {
        marks.increase();
        match self {
            Interval::Empty => 2 * marks.len() as u64 + 1,
            Interval::Range(a) => marks_below(marks, a) + marks_above(marks, a),
        }
    }

    fn arith(op: Arith, a: Interval, b: Interval) -> Interval {
        let Interval::Range(a) = a else {
            return Interval::Empty;
        };
        let Interval::Range(b) = b else {
            return Interval::Empty;
        };
        bounds_arith(op, a, b)
    }

    fn neg(self) -> Interval {
        match self {
            Interval::Empty => Interval::Empty,
            Interval::Range(a) => neg_bounds(a),
        }
    }

    fn compare(op: Compare, a: Interval, b: Interval) -> AbsBool {
        let none = AbsBool {
            has_true: false,
            has_false: false,
        };
        let Interval::Range(a) = a else {
            return none;
        };
        let Interval::Range(b) = b else {
            return none;
        };
        bounds_compare(op, a, b)
    }

    fn refine(op: Refine, a: Interval, b: Interval) -> (Interval, Interval) {
        let Interval::Range(a) = a else {
            return (Interval::Empty, Interval::Empty);
        };
        let Interval::Range(b) = b else {
            return (Interval::Empty, Interval::Empty);
        };
        (left_bounds(op, a, b), right_bounds(op, a, b))
    }

    fn put_text(self, out: &mut Vec<u8>) -> Result<(), NoMemory> {
        match self {
            Interval::Empty => put_bytes(out, b"none"),
            Interval::Range(a) => put_bounds(out, a),
        }
    }

    fn take_text(text: &[u8], tokens: &[Token], from: usize) -> Result<(Interval, usize), usize> {
        if is_none_at(text, tokens, from) {
            return Ok((Interval::Empty, from + 1));
        }
        take_bounds(text, tokens, from)
    }

    ghost laws = { interval_laws };

    ghost finite = { interval_finite };

    ghost text_laws = { interval_text_laws };
}
