//! Whether tuples are equal.
ghost use Rattle.std.specs.Prelude.{◌≡◌, ◌↔◌, IsTrue};

use sk_value::{Flow, Tuple, Value};

/// Whether two places of states are one.
fn same_place(a: Option<Value>, b: Option<Value>) -> bool
    ensures { IsTrue result ↔ (a ≡ b) }
{
    match (a, b) {
        (None, None) => true,
        (Some(a), Some(b)) => a == b,
        _ => false,
    }
}

/// Whether two states are one.
fn same_places(a: &[Option<Value>], b: &[Option<Value>]) -> bool
    ensures { IsTrue result ↔ (a.now ≡ b.now) }
{
    match (a.split_first(), b.split_first()) {
        (None, None) => true,
        (Some((first, rest)), Some((other, others))) => {
            same_place(*first, *other) && same_places(rest, others)
        }
        _ => false,
    }
}

/// Whether two values are one.
fn same_flow(a: &Flow, b: &Flow) -> bool
    ensures { IsTrue result ↔ (a.now ≡ b.now) }
{
    match (a, b) {
        (Flow::Int(a), Flow::Int(b)) => *a == *b,
        (Flow::Bool(a), Flow::Bool(b)) => *a == *b,
        (Flow::Val(a), Flow::Val(b)) => *a == *b,
        (Flow::Store(a), Flow::Store(b)) => same_places(a.as_slice(), b.as_slice()),
        _ => false,
    }
}

/// Whether the values are the same, in order.
fn same_flows(a: &[Flow], b: &[Flow]) -> bool
    ensures { IsTrue result ↔ (a.now ≡ b.now) }
{
    match (a.split_first(), b.split_first()) {
        (None, None) => true,
        (Some((first, rest)), Some((other, others))) => {
            same_flow(first, other) && same_flows(rest, others)
        }
        _ => false,
    }
}

/// Whether two tuples are one.
pub(crate) fn same_tuple(a: &Tuple, b: &Tuple) -> bool
    ensures { IsTrue result ↔ (a.now ≡ b.now) }
{
    same_flows(a.as_slice(), b.as_slice())
}
