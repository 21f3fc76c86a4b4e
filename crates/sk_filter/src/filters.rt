//! What each filter gives.
ghost use Rattle.std.specs.Prelude.{◌≡◌, [], ◌∷◌, true, false, Some, None, IfOk, is_some, replicate, slice_set};
ghost use Rattle.std.specs.Option.{option_map_or};
ghost use Rattle.sk_base.specs.declared.flow.FlowSort.{FlowSort};
ghost use Rattle.sk_def.specs.declared.sorts.VarSort.{VarSort};
ghost use Rattle.sk_def.specs.Signatures.{parameters};
ghost use Rattle.sk_value.specs.declared.flow.Flow.{Flow};
ghost use Rattle.sk_filter.specs.declared.arg.Arg.{Arg};
ghost use Rattle.sk_filter.specs.Results.{results_of, is_choice, one, int_in, bool_in, value_at};

use crate::arg::{
    the_bool, the_bools, the_cell, the_cell_and_val, the_int, the_ints, the_number, the_store,
    the_val,
};
use crate::arith::{arith, compare, in_range, negate, refine};
use crate::single::{one, passing};
use crate::{Arg, Results};
use sk_base::{NoMemory, Seq};
use sk_def::Filter;
use sk_value::{Arith, Compare, Flow, Refine, Store, Value};
use std::alloc::Global;

/// What stands for the arguments where they have the sorts that are asked for, else no result.
macro_rules! on {
    ($alloc:expr, $given:expr, $found:pat => $results:expr) => {
        match $given {
            Some($found) => $results,
            None => Ok(Results::new($alloc)),
        }
    };
}

/// Whether a derivation picks one of a filter's results.
pub fn is_choice(filter: Filter) -> bool
    ensures { result ≡ is_choice filter }
{
    matches!(filter, Filter::AnyBool | Filter::Pick)
}

/// The results of a filter in order, over this number of names. A filter that looks at its arguments has none where they
/// aren't of its sorts.
pub fn apply(alloc: Global, filter: Filter, names: usize, args: &[Arg]) -> Result<Results, NoMemory>
    ensures { IfOk result (λ results. results ≡ results_of filter names args.now) }
{
    match filter {
        Filter::Lit => on!(alloc, the_number(args), z => in_range(alloc, z)),
        Filter::Zero => one(alloc, Flow::Int(0)),
        Filter::One => one(alloc, Flow::Int(1)),
        Filter::Yes => one(alloc, Flow::Bool(true)),
        Filter::No => one(alloc, Flow::Bool(false)),
        Filter::Neg => on!(alloc, the_int(args), a => negate(alloc, a)),
        Filter::Not => on!(alloc, the_bool(args), a => one(alloc, Flow::Bool(!a))),
        Filter::And => on!(alloc, the_bools(args), (a, b) => one(alloc, Flow::Bool(a && b))),
        Filter::Or => on!(alloc, the_bools(args), (a, b) => one(alloc, Flow::Bool(a || b))),
        Filter::IsTrue => on!(alloc, the_bool(args), a => passing(alloc, a)),
        Filter::IsFalse => on!(alloc, the_bool(args), a => passing(alloc, !a)),
        Filter::IsZero => on!(alloc, the_int(args), a => passing(alloc, a == 0)),
        Filter::NonZero => on!(alloc, the_int(args), a => passing(alloc, a != 0)),
        Filter::IsPos => on!(alloc, the_int(args), a => passing(alloc, 0 < a)),
        Filter::IsNeg => on!(alloc, the_int(args), a => passing(alloc, a < 0)),
        Filter::OfInt => on!(alloc, the_int(args), a => one(alloc, Flow::Val(Value::Int(a)))),
        Filter::OfBool => on!(alloc, the_bool(args), a => one(alloc, Flow::Val(Value::Bool(a)))),
        Filter::AsInt => on!(alloc, the_val(args), value => int_in(alloc, value)),
        Filter::AsBool => on!(alloc, the_val(args), value => bool_in(alloc, value)),
        Filter::Empty => empty(alloc, names),
        Filter::Read => on!(alloc, the_cell(args), (store, name) => read(alloc, store, name)),
        Filter::Write =>
            on!(alloc, the_cell_and_val(args), (store, name, value) => write(alloc, store, name, Some(value))),
        Filter::Forget =>
            on!(alloc, the_cell(args), (store, name) => write(alloc, store, name, None)),
        Filter::Bound => on!(alloc, the_cell(args), (store, name) => bound(alloc, store, name)),
        Filter::KeepInt => on!(alloc, the_int(args), a => one(alloc, Flow::Int(a))),
        Filter::KeepBool => on!(alloc, the_bool(args), a => one(alloc, Flow::Bool(a))),
        Filter::KeepVal => on!(alloc, the_val(args), value => one(alloc, Flow::Val(value))),
        Filter::KeepStore => on!(alloc, the_store(args), store => keep(alloc, store)),
        Filter::AnyBool => any_bool(alloc),
        _ => on!(alloc, the_ints(args), (a, b) => on_ints(alloc, filter, a, b)),
    }
}

/// The results of a filter of two numbers.
fn on_ints(alloc: Global, filter: Filter, a: i64, b: i64) -> Result<Results, NoMemory>
    requires of_two_numbers { parameters filter ≡ VarSort.Flow FlowSort.Int ∷ VarSort.Flow FlowSort.Int ∷ [] }
    ensures { IfOk result (λ results. results ≡ results_of filter 0 (Arg.Flow (Flow.Int a) ∷ Arg.Flow (Flow.Int b) ∷ [])) }
{
    match filter {
        Filter::Add => arith(alloc, Arith::Add, a, b),
        Filter::Sub => arith(alloc, Arith::Sub, a, b),
        Filter::Mul => arith(alloc, Arith::Mul, a, b),
        Filter::Div => arith(alloc, Arith::Div, a, b),
        Filter::Rem => arith(alloc, Arith::Rem, a, b),
        Filter::Lt => compare(alloc, Compare::Lt, a, b),
        Filter::Le => compare(alloc, Compare::Le, a, b),
        Filter::Eq => compare(alloc, Compare::Eq, a, b),
        Filter::Below => refine(alloc, Refine::Below, a, b),
        Filter::AtLeast => refine(alloc, Refine::AtLeast, a, b),
        Filter::Same => refine(alloc, Refine::Same, a, b),
        Filter::Differ => refine(alloc, Refine::Differ, a, b),
        Filter::Pick => arith(alloc, Arith::Pick, a, b),
        _ => unreachable!(),
    }
}

/// The number that a val is.
fn int_in(alloc: Global, value: Value) -> Result<Results, NoMemory>
    ensures { IfOk result (λ results. results ≡ int_in value) }
{
    match value {
        Value::Int(number) => one(alloc, Flow::Int(number)),
        Value::Bool(_) => Ok(Results::new(alloc)),
    }
}

/// The truth value that a val is.
fn bool_in(alloc: Global, value: Value) -> Result<Results, NoMemory>
    ensures { IfOk result (λ results. results ≡ bool_in value) }
{
    match value {
        Value::Int(_) => Ok(Results::new(alloc)),
        Value::Bool(truth) => one(alloc, Flow::Bool(truth)),
    }
}

/// The store over so many names in which none is set.
fn empty(alloc: Global, names: usize) -> Result<Results, NoMemory>
    ensures { IfOk result (λ results. results ≡ one (Flow.Store (replicate names None))) }
{
    let mut store = Store::new(alloc);
    for _name in 0..names {
        store.push(None)?;
    }
    one(alloc, Flow::Store(store))
}

/// The value of a name, none where it is unset.
fn value_at(store: &Store, name: u8) -> Option<Value>
    ensures { result ≡ value_at store.now name }
{
    let place = usize::from(name);
    if place < store.len() {
        *store.get(place)
    } else {
        None
    }
}

/// The value of a name as the one result.
fn read(alloc: Global, store: &Store, name: u8) -> Result<Results, NoMemory>
    ensures { IfOk result (λ results. results ≡ option_map_or (λ v. one (Flow.Val v)) (value_at store.now name) []) }
{
    match value_at(store, name) {
        Some(value) => one(alloc, Flow::Val(value)),
        None => Ok(Results::new(alloc)),
    }
}

/// Whether a name is set.
fn bound(alloc: Global, store: &Store, name: u8) -> Result<Results, NoMemory>
    ensures { IfOk result (λ results. results ≡ one (Flow.Bool (is_some (value_at store.now name)))) }
{
    one(alloc, Flow::Bool(value_at(store, name).is_some()))
}

/// The store with this in the name's place.
fn write(alloc: Global, store: &Store, name: u8, place: Option<Value>) -> Result<Results, NoMemory>
    ensures { IfOk result (λ results. results ≡ one (Flow.Store (slice_set store.now name place))) }
{
    let mut copy = Seq::from_slice(alloc, store.as_slice())?;
    copy.put(usize::from(name), place);
    one(alloc, Flow::Store(copy))
}

/// The store itself.
fn keep(alloc: Global, store: &Store) -> Result<Results, NoMemory>
    ensures { IfOk result (λ results. results ≡ one (Flow.Store store.now)) }
{
    one(
        alloc,
        Flow::Store(Seq::from_slice(alloc, store.as_slice())?),
    )
}

/// True, then false.
fn any_bool(alloc: Global) -> Result<Results, NoMemory>
    ensures { IfOk result (λ results. results ≡ (Flow.Bool true ∷ []) ∷ (Flow.Bool false ∷ []) ∷ []) }
{
    let mut results = one(alloc, Flow::Bool(true))?;
    results.push(alloc, Flow::Bool(false))?;
    Ok(results)
}
