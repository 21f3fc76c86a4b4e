//! Outcomes: a tuple, or none where a part of it would be empty.
ghost use Rattle.std.specs.Prelude.{◌≡◌, [], ◌∷◌, IfOk};
ghost use Rattle.std.specs.Option.{option_and_then};
ghost use Rattle.sk_lattice.specs.declared.flow.AbsFlow.{AbsFlow};
ghost use Rattle.sk_absfilter.specs.Abstract.{proper_tuple, sides, passing, some_pair, number};

use crate::proper::{is_proper, some_pair};
use sk_base::NoMemory;
use sk_lattice::{AbsFlow, AbsTuple, NumDom};
use std::alloc::Global;

/// The tuple of one flow, or none where it is empty.
pub(crate) fn one<D: NumDom>(
    alloc: Global,
    flow: AbsFlow<D>,
) -> Result<Option<AbsTuple<D>>, NoMemory>
    ensures { IfOk result (λ outcome. outcome ≡ proper_tuple D.domain (flow ∷ [])) }
{
    if !is_proper(&flow) {
        return Ok(None);
    }
    let mut tuple = AbsTuple::new(alloc);
    tuple.push(flow)?;
    Ok(Some(tuple))
}

/// The element of one number.
pub(crate) fn number<D: NumDom>(alloc: Global, value: i64) -> Result<Option<AbsTuple<D>>, NoMemory>
    ensures { IfOk result (λ outcome. outcome ≡ option_and_then (proper_tuple D.domain) (number D.domain value)) }
{
    one(alloc, AbsFlow::Int(D::of(value)))
}

/// Both sides of a refined pair, or none where one of them is empty.
pub(crate) fn sides<D: NumDom>(alloc: Global, pair: (D, D)) -> Result<Option<AbsTuple<D>>, NoMemory>
    ensures { IfOk result (λ outcome. outcome ≡ option_and_then (proper_tuple D.domain) (sides pair)) }
{
    if pair.0.is_empty() || pair.1.is_empty() {
        return Ok(None);
    }
    let mut tuple = AbsTuple::new(alloc);
    tuple.push(AbsFlow::Int(pair.0))?;
    tuple.push(AbsFlow::Int(pair.1))?;
    Ok(Some(tuple))
}

/// The empty tuple where the test holds.
pub(crate) fn passing<D: NumDom>(
    alloc: Global,
    holds: bool,
) -> Result<Option<AbsTuple<D>>, NoMemory>
    ensures { IfOk result (λ outcome. outcome ≡ option_and_then (proper_tuple D.domain) (passing holds)) }
{
    if holds {
        Ok(Some(AbsTuple::new(alloc)))
    } else {
        Ok(None)
    }
}

/// The empty tuple where neither side of a refined pair is empty.
pub(crate) fn passing_pair<D: NumDom>(
    alloc: Global,
    pair: (D, D),
) -> Result<Option<AbsTuple<D>>, NoMemory>
    ensures { IfOk result (λ outcome.
        outcome ≡ option_and_then (proper_tuple D.domain) (passing (some_pair D.domain pair))) }
{
    passing(alloc, some_pair(pair))
}
