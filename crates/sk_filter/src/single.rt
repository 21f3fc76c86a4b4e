//! Results of which there is one at most.
ghost use Rattle.std.specs.Prelude.{◌≡◌, IfOk};
ghost use Rattle.sk_filter.specs.Results.{one, passing};

use crate::Results;
use sk_base::NoMemory;
use sk_value::{Flow, Tuple};
use std::alloc::Global;

/// One result of one value.
pub(crate) fn one(alloc: Global, flow: Flow) -> Result<Results, NoMemory>
    ensures { IfOk result (λ results. results ≡ one flow) }
{
    let mut results = Results::new(alloc);
    results.push(alloc, flow)?;
    Ok(results)
}

/// One empty tuple where the test holds.
pub(crate) fn passing(alloc: Global, holds: bool) -> Result<Results, NoMemory>
    ensures { IfOk result (λ results. results ≡ passing holds) }
{
    let mut results = Results::new(alloc);
    if holds {
        results.push_tuple(Tuple::new(alloc))?;
    }
    Ok(results)
}
