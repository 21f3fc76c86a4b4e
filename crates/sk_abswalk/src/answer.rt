//! What a table answers to calls.
ghost use Rattle.std.specs.Prelude.{◌≡◌, IfOk};
ghost use Rattle.std.specs.Option.{option_map_or};
ghost use Rattle.sk_lattice.specs.Order.{flows_fit, tuples_fit};
ghost use Rattle.sk_abswalk.specs.Tables.{is_above, is_covered, outcome_meet, table_answer};

use sk_base::NoMemory;
use sk_def::HookId;
use sk_lattice::{AbsFlow, AbsStore, AbsTuple, NumDom};
use sk_table::{Cover, Table, Triple};
use std::alloc::Global;

/// Whether two flows are of one sort.
fn flows_fit<D: NumDom>(a: &AbsFlow<D>, b: &AbsFlow<D>) -> bool
    ensures { result ≡ flows_fit a.now b.now }
{
    match (a, b) {
        (AbsFlow::Int(_), AbsFlow::Int(_)) => true,
        (AbsFlow::Bool(_), AbsFlow::Bool(_)) => true,
        (AbsFlow::Val(_), AbsFlow::Val(_)) => true,
        (AbsFlow::Store(AbsStore::Cells(cells)), AbsFlow::Store(AbsStore::Cells(others))) => {
            cells.len() == others.len()
        }
        (AbsFlow::Store(_), AbsFlow::Store(_)) => true,
        _ => false,
    }
}

/// Whether two tuples have the same sorts.
pub(crate) fn tuples_fit<D: NumDom>(a: &AbsTuple<D>, b: &AbsTuple<D>) -> bool
    ensures { result ≡ tuples_fit a.now b.now }
{
    if a.len() != b.len() {
        return false;
    }
    for at in 0..a.len() {
        if !flows_fit(a.get(at), b.get(at)) {
            return false;
        }
    }
    true
}

/// Whether a triple is of the call's hook and point, and its inputs lie above the call's.
pub(crate) fn is_above<D: NumDom>(call: &Cover<D>, triple: &Triple<D>) -> bool
    ensures { result ≡ is_above D.domain call.now triple.now }
{
    triple.hook.0 == call.hook.0 && (triple.point == call.point && call.ins.leq(&triple.ins))
}

/// An equal outcome.
fn copy_outcome<D: NumDom>(
    alloc: Global,
    outs: &Option<AbsTuple<D>>,
) -> Result<Option<AbsTuple<D>>, NoMemory>
    ensures { IfOk result (λ copy. copy ≡ outs.now) }
{
    Ok(match outs {
        Some(outs) => Some(outs.copy(alloc)?),
        None => None,
    })
}

/// The meet of two outcomes; tuples of two sorts have nothing in common.
fn meet<D: NumDom>(
    alloc: Global,
    a: &Option<AbsTuple<D>>,
    b: &Option<AbsTuple<D>>,
) -> Result<Option<AbsTuple<D>>, NoMemory>
    ensures { IfOk result (λ met. met ≡ outcome_meet D.domain a.now b.now) }
{
    match (a, b) {
        (Some(a), Some(b)) => {
            if tuples_fit(a, b) {
                a.meet(alloc, b)
            } else {
                Ok(None)
            }
        }
        _ => Ok(None),
    }
}

/// What was met before, if anything was, met with an outcome.
pub(crate) fn meet_more<D: NumDom>(
    alloc: Global,
    met: &Option<Option<AbsTuple<D>>>,
    outs: &Option<AbsTuple<D>>,
) -> Result<Option<AbsTuple<D>>, NoMemory>
    ensures { IfOk result (λ more. more ≡ option_map_or (λ m. outcome_meet D.domain m outs.now) met.now outs.now) }
{
    match met {
        Some(met) => meet(alloc, met, outs),
        None => copy_outcome(alloc, outs),
    }
}

/// A table's answer to a call: the meet of the outputs of all triples of its hook and point whose inputs lie above the
/// call's. There is no answer exactly where there is no such triple; the answer is none where nothing can come out.
pub fn table_answer<D: NumDom>(
    alloc: Global,
    table: &Table<D>,
    call: &Cover<D>,
) -> Result<Option<Option<AbsTuple<D>>>, NoMemory>
    ensures { IfOk result (λ answer. answer ≡ table_answer D.domain table.now call.now) }
{
    let mut met = None;
    for triple in table.as_slice() {
        if is_above(call, triple) {
            met = Some(meet_more(alloc, &met, &triple.outs)?);
        }
    }
    Ok(met)
}

/// Whether a cover line, or a call, lies below some triple of the table.
pub fn is_covered<D: NumDom>(table: &Table<D>, line: &Cover<D>) -> bool
    ensures { result ≡ is_covered D.domain table.now line.now }
{
    table.as_slice().iter().any(|triple| is_above(line, triple))
}
