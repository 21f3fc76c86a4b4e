//! Whether inputs fit a hook.
ghost use Rattle.std.specs.Prelude.{◌≡◌};
ghost use Rattle.std.specs.List.{list_all};
ghost use Rattle.sk_deriv.specs.Moves.{holds_number, place_holds_number, has_sort, have_sorts};

use sk_base::FlowSort;
use sk_value::{Flow, Value};

/// Whether a value's number is in range, as each is that code can hold.
fn holds_number(value: Value) -> bool
    ensures { result ≡ holds_number value }
{
    match value {
        Value::Int(_) => true,
        Value::Bool(_) => true,
    }
}

/// The same of a place of a state.
fn place_holds_number(place: Option<Value>) -> bool
    ensures { result ≡ place_holds_number place }
{
    match place {
        Some(value) => holds_number(value),
        None => true,
    }
}

/// The same of all places of a state.
fn places_hold_numbers(places: &[Option<Value>]) -> bool
    ensures { result ≡ list_all place_holds_number places.now }
{
    match places.split_first() {
        None => true,
        Some((place, rest)) => place_holds_number(*place) && places_hold_numbers(rest),
    }
}

/// Whether a value has the sort, over so many names.
fn has_sort(names: usize, sort: FlowSort, flow: &Flow) -> bool
    ensures { result ≡ has_sort names sort flow.now }
{
    match (sort, flow) {
        (FlowSort::Int, Flow::Int(number)) => holds_number(Value::Int(*number)),
        (FlowSort::Bool, Flow::Bool(_)) => true,
        (FlowSort::Val, Flow::Val(value)) => holds_number(*value),
        (FlowSort::Store, Flow::Store(store)) => {
            store.len() == names && places_hold_numbers(store.as_slice())
        }
        _ => false,
    }
}

/// Whether the values have these sorts, in order.
pub(crate) fn have_sorts(names: usize, sorts: &[FlowSort], flows: &[Flow]) -> bool
    ensures { result ≡ have_sorts names sorts.now flows.now }
{
    match (sorts.split_first(), flows.split_first()) {
        (None, None) => true,
        (Some((sort, sorts)), Some((flow, flows))) => {
            has_sort(names, *sort, flow) && have_sorts(names, sorts, flows)
        }
        _ => false,
    }
}
