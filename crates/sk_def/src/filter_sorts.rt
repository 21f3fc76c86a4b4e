//! What each filter takes and gives.
ghost use Rattle.std.specs.Prelude.{◌≡◌, ◌≤◌, length, map};
ghost use Rattle.std.specs.Option.{option_map};
ghost use Rattle.sk_def.specs.Signatures.{parameters, results, sort_of_param, padded};
ghost use Rattle.sk_def.specs.declared.sorts.VarSort.TheVariants as sorts;

use crate::{Filter, ParamSort, Signature};
use sk_base::FlowSort;

/// What a filter takes and gives.
pub fn signature(filter: Filter) -> Signature
    ensures params { map (option_map sort_of_param) result.params ≡ padded 3 (parameters filter) }
    ensures results { map (option_map sorts.Flow) result.results ≡ padded 2 (results filter) }
{
    let params = parameters(filter);
    let results = results(filter);
    Signature {
        params: [
            params.first().copied(),
            params.get(1).copied(),
            params.get(2).copied(),
        ],
        results: [results.first().copied(), results.get(1).copied()],
    }
}

/// The sorts of a filter's arguments, in order.
pub fn parameters(filter: Filter) -> &'static [ParamSort]
    ensures sorts { map sort_of_param result.now ≡ parameters filter }
    ensures few { length result.now ≤ 3 }
{
    use ParamSort::{Flow, Name, Number};
    match filter {
        Filter::Lit => &[Number],
        Filter::Zero | Filter::One | Filter::Yes | Filter::No | Filter::Empty | Filter::AnyBool =>
            &[],
        Filter::Add
        | Filter::Sub
        | Filter::Mul
        | Filter::Div
        | Filter::Rem
        | Filter::Lt
        | Filter::Le
        | Filter::Eq
        | Filter::Below
        | Filter::AtLeast
        | Filter::Same
        | Filter::Differ
        | Filter::Pick => &[Flow(FlowSort::Int), Flow(FlowSort::Int)],
        Filter::Neg
        | Filter::IsZero
        | Filter::NonZero
        | Filter::IsPos
        | Filter::IsNeg
        | Filter::OfInt
        | Filter::KeepInt => &[Flow(FlowSort::Int)],
        Filter::Not | Filter::IsTrue | Filter::IsFalse | Filter::OfBool | Filter::KeepBool => &[
            Flow(FlowSort::Bool),
        ],
        Filter::And | Filter::Or => &[Flow(FlowSort::Bool), Flow(FlowSort::Bool)],
        Filter::AsInt | Filter::AsBool | Filter::KeepVal => &[Flow(FlowSort::Val)],
        Filter::Read | Filter::Forget | Filter::Bound => &[Flow(FlowSort::Store), Name],
        Filter::Write => &[Flow(FlowSort::Store), Name, Flow(FlowSort::Val)],
        Filter::KeepStore => &[Flow(FlowSort::Store)],
    }
}

/// The sorts of a filter's results, in order.
pub fn results(filter: Filter) -> &'static [FlowSort]
    ensures sorts { map sorts.Flow result.now ≡ results filter }
    ensures few { length result.now ≤ 2 }
{
    match filter {
        Filter::Lit
        | Filter::Zero
        | Filter::One
        | Filter::Add
        | Filter::Sub
        | Filter::Mul
        | Filter::Neg
        | Filter::Div
        | Filter::Rem
        | Filter::AsInt
        | Filter::KeepInt
        | Filter::Pick => &[FlowSort::Int],
        Filter::Yes
        | Filter::No
        | Filter::Lt
        | Filter::Le
        | Filter::Eq
        | Filter::Not
        | Filter::And
        | Filter::Or
        | Filter::AsBool
        | Filter::Bound
        | Filter::KeepBool
        | Filter::AnyBool => &[FlowSort::Bool],
        Filter::IsTrue
        | Filter::IsFalse
        | Filter::IsZero
        | Filter::NonZero
        | Filter::IsPos
        | Filter::IsNeg => &[],
        Filter::Below | Filter::AtLeast | Filter::Same | Filter::Differ => &[
            FlowSort::Int,
            FlowSort::Int,
        ],
        Filter::OfInt | Filter::OfBool | Filter::Read | Filter::KeepVal => &[FlowSort::Val],
        Filter::Empty | Filter::Write | Filter::Forget | Filter::KeepStore => &[FlowSort::Store],
    }
}
