//! The table of an assignment.
ghost use Rattle.std.specs.Prelude.{◌≡◌, IfOk};
ghost use Rattle.std.specs.Option.{option_copied};
ghost use Rattle.sk_solve.specs.Tables.{inputs_of, table_of};

use crate::{Assignment, Solved};
use sk_base::{NoMemory, Seq};
use sk_lattice::{AbsTuple, NumDom};
use sk_table::{Table, Triple};
use std::alloc::Global;

/// What position 0 of a key has.
fn inputs_of<D: NumDom>(solved: &Solved<D>) -> Option<&AbsTuple<D>>
    ensures { option_copied result ≡ inputs_of solved.now }
{
    match solved.positions.as_slice().first() {
        Some(inputs) => inputs.as_ref(),
        None => None,
    }
}

/// An equal output.
pub(crate) fn copy_outs<D: NumDom>(
    alloc: Global,
    outs: &Option<AbsTuple<D>>,
) -> Result<Option<AbsTuple<D>>, NoMemory>
    ensures { IfOk result (λ copy. copy ≡ outs.now) }
{
    match outs {
        None => Ok(None),
        Some(tuple) => Ok(Some(tuple.copy(alloc)?)),
    }
}

/// The triples of the keys whose inputs aren't none, in the order of the keys. Fails only where memory is refused.
pub fn table_of<D: NumDom>(alloc: Global, assignment: &Assignment<D>) -> Result<Table<D>, NoMemory>
    ensures { IfOk result (λ table. table ≡ table_of assignment.now) }
{
    let mut table = Seq::new(alloc);
    for solved in assignment.as_slice() {
        if let Some(inputs) = inputs_of(solved) {
            let ins = inputs.copy(alloc)?;
            let outs = copy_outs(alloc, &solved.outs)?;
            table.push(Triple {
                hook: solved.hook,
                point: solved.point,
                ins,
                outs,
            })?;
        }
    }
    Ok(table)
}
