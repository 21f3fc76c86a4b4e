//! Arithmetic and comparisons of numbers, as results.
ghost use Rattle.std.specs.Prelude.{◌≡◌, [], pos, ◌+ℤ◌, ◌≤ℤ◌, neg_ℤ, ◌≤◌, ◌^◌, Some, IfOk};
ghost use Rattle.sk_value.specs.declared.flow.Flow.{Flow};
ghost use Rattle.sk_value.specs.declared.arith.Arith.TheVariants.{Rem, Pick};
ghost use Rattle.std.specs.Option.{option_map_or};
ghost use Rattle.sk_value.specs.Numbers.{whole_results, compares, keeps, numbers_from};
ghost use Rattle.sk_filter.specs.Results.{number, numbers, one, pair_where};

use crate::Results;
use crate::single::one;
use sk_base::NoMemory;
use sk_value::{Arith, Compare, Flow, Refine, Tuple};
use std::alloc::Global;

/// The results of an operation.
pub(crate) fn arith(alloc: Global, op: Arith, a: i64, b: i64) -> Result<Results, NoMemory>
    ensures { IfOk result (λ results. results ≡ numbers (whole_results op a b)) }
{
    match op {
        Arith::Add => at_most_one(alloc, a.checked_add(b)),
        Arith::Sub => at_most_one(alloc, a.checked_sub(b)),
        Arith::Mul => at_most_one(alloc, a.checked_mul(b)),
        Arith::Div => at_most_one(alloc, a.checked_div(b)),
        Arith::Rem => at_most_one(alloc, remainder(a, b)),
        Arith::Pick => pick(alloc, a, b),
    }
}

/// A number that is in range as the one result.
pub(crate) fn in_range(alloc: Global, a: i64) -> Result<Results, NoMemory>
    ensures { IfOk result (λ results. results ≡ number a) }
{
    one(alloc, Flow::Int(a))
}

/// The negative of a number, as results.
pub(crate) fn negate(alloc: Global, a: i64) -> Result<Results, NoMemory>
    ensures { IfOk result (λ results. results ≡ number (neg_ℤ a)) }
{
    at_most_one(alloc, a.checked_neg())
}

/// The number as the one result, where there is one.
fn at_most_one(alloc: Global, found: Option<i64>) -> Result<Results, NoMemory>
    ensures { IfOk result (λ results. results ≡ option_map_or (λ z. one (Flow.Int z)) found []) }
{
    let mut results = Results::new(alloc);
    if let Some(number) = found {
        results.push(alloc, Flow::Int(number))?;
    }
    Ok(results)
}

/// What division leaves, none by zero.
fn remainder(a: i64, b: i64) -> Option<i64>
    ensures { numbers (whole_results Rem a b) ≡ option_map_or (λ z. one (Flow.Int z)) result [] }
{
    if b == 0 {
        return None;
    }
    Some(a.wrapping_rem(b))
}

/// The numbers from `a` to `b` where there are 1 to 64.
fn pick(alloc: Global, a: i64, b: i64) -> Result<Results, NoMemory>
    ensures { IfOk result (λ results. results ≡ numbers (whole_results Pick a b)) }
{
    match b.checked_sub(a) {
        Some(gap) if 0 <= gap && gap < 64 => span(alloc, a, gap as u8 + 1),
        _ => Ok(Results::new(alloc)),
    }
}

/// So many numbers, from the first one on.
fn span(alloc: Global, first: i64, count: u8) -> Result<Results, NoMemory>
    requires few { count ≤ 64 }
    requires in_range { (first +ℤ pos count) ≤ℤ pos (2 ^ 63) }
    ensures { IfOk result (λ results. results ≡ numbers (numbers_from first count)) }
{
    let mut results = Results::new(alloc);
    for above in 0..count {
        results.push(alloc, Flow::Int(first + i64::from(above)))?;
    }
    Ok(results)
}

/// Whether two numbers compare so, as the one result.
pub(crate) fn compare(alloc: Global, op: Compare, a: i64, b: i64) -> Result<Results, NoMemory>
    ensures { IfOk result (λ results. results ≡ one (Flow.Bool (compares op a b))) }
{
    let holds = match op {
        Compare::Lt => a < b,
        Compare::Le => a <= b,
        Compare::Eq => a == b,
    };
    one(alloc, Flow::Bool(holds))
}

/// The pair of two numbers, where it is kept.
pub(crate) fn refine(alloc: Global, op: Refine, a: i64, b: i64) -> Result<Results, NoMemory>
    ensures { IfOk result (λ results. results ≡ pair_where (keeps op a b) a b) }
{
    let kept = match op {
        Refine::Below => a < b,
        Refine::AtLeast => a >= b,
        Refine::Same => a == b,
        Refine::Differ => a != b,
    };
    pair_where(alloc, kept, a, b)
}

/// The pair of two numbers where the test holds.
fn pair_where(alloc: Global, holds: bool, a: i64, b: i64) -> Result<Results, NoMemory>
    ensures { IfOk result (λ results. results ≡ pair_where holds a b) }
{
    let mut results = Results::new(alloc);
    if holds {
        let mut pair = Tuple::new(alloc);
        pair.push(Flow::Int(a))?;
        pair.push(Flow::Int(b))?;
        results.push_tuple(pair)?;
    }
    Ok(results)
}
