//! The least solution of a list of constraints.
ghost use Rattle.std.specs.Prelude.{◌≡◌, ◌<◌, length, slice_get, true, Some, IfOk, IsTrue};
ghost use Rattle.sk_constr.specs.declared.line.KeyLines.{KeyLines};
ghost use Rattle.sk_solve.specs.Solves.{Solves, IsLeastSolution};
ghost use Rattle.sk_solve.specs.Climbing.{nothing_at, IsUnderway, IsStep, LinesHold, KeysHold, CoversHold};

use crate::raising::{raise_cover, raise_line};
use crate::{Assignment, Solved};
use sk_base::{NoMemory, Seq};
use sk_constr::{Constraints, KeyLines};
use sk_lattice::NumDom;
use std::alloc::Global;

/// A key in which every position has none.
fn nothing_at<D: NumDom>(alloc: Global, key: &KeyLines) -> Result<Solved<D>, NoMemory>
    ensures { IfOk result (λ solved. solved ≡ nothing_at key.now) }
{
    let mut positions = Seq::new(alloc);
    for _position in key.positions.as_slice() {
        positions.push(None)?;
    }
    Ok(Solved {
        hook: key.hook,
        point: key.point,
        positions,
        outs: None,
    })
}

/// The assignment in which every position has none.
fn start<D: NumDom>(alloc: Global, list: &Constraints<D>) -> Result<Vec<Solved<D>>, NoMemory>
    ensures { IfOk result (λ found. IsUnderway D.domain list.now found.items) }
{
    let mut found = Vec::new(alloc);
    for at in 0..list.keys() {
        found.push(nothing_at(alloc, list.key(at))?)?;
    }
    Ok(found)
}

/// A step for each cover line.
fn raise_covers<D: NumDom>(
    alloc: Global,
    list: &Constraints<D>,
    found: &mut [Solved<D>],
) -> Result<bool, NoMemory>
    requires finite { D.FINITE ≡ true }
    requires underway { IsUnderway D.domain list.now found.old }
    ensures { IfOk result (λ changed. IsStep D.domain list.now (CoversHold D.domain list.now.names list.now.covers) found.old found.new changed) }
{
    let mut changed = false;
    for cover in list.cover_lines().as_slice() {
        let raised = raise_cover(alloc, list, cover, found)?;
        changed = changed | raised;
    }
    Ok(changed)
}

/// A step for each line of a key.
fn raise_lines<D: NumDom>(
    alloc: Global,
    list: &Constraints<D>,
    at: usize,
    found: &mut [Solved<D>],
) -> Result<bool, NoMemory>
    requires finite { D.FINITE ≡ true }
    requires underway { IsUnderway D.domain list.now found.old }
    requires there { at < length list.now.keys }
    ensures { IfOk result (λ changed. (key : KeyLines) → slice_get list.now.keys at ≡ Some key →
        IsStep D.domain list.now (LinesHold D.domain list.now.names at key.lines) found.old found.new changed) }
{
    let mut changed = false;
    for line in list.key(at).lines.as_slice() {
        let raised = raise_line(alloc, list, at, line, found)?;
        changed = changed | raised;
    }
    Ok(changed)
}

/// A step for each line of every key.
fn raise_keys<D: NumDom>(
    alloc: Global,
    list: &Constraints<D>,
    found: &mut [Solved<D>],
) -> Result<bool, NoMemory>
    requires finite { D.FINITE ≡ true }
    requires underway { IsUnderway D.domain list.now found.old }
    ensures { IfOk result (λ changed. IsStep D.domain list.now (KeysHold D.domain list.now (length list.now.keys)) found.old found.new changed) }
{
    let mut changed = false;
    for at in 0..list.keys() {
        let raised = raise_lines(alloc, list, at, found)?;
        changed = changed | raised;
    }
    Ok(changed)
}

/// A step for the whole list.
fn pass<D: NumDom>(
    alloc: Global,
    list: &Constraints<D>,
    found: &mut [Solved<D>],
) -> Result<bool, NoMemory>
    requires finite { D.FINITE ≡ true }
    requires underway { IsUnderway D.domain list.now found.old }
    ensures { IfOk result (λ changed. IsStep D.domain list.now (Solves D.domain list.now) found.old found.new changed) }
{
    let covers = raise_covers(alloc, list, found)?;
    let lines = raise_keys(alloc, list, found)?;
    Ok(covers | lines)
}

/// The least assignment that satisfies the constraints, over a finite domain: every position begins with none, and passes
/// over the whole list raise what the lines ask for, until a pass changes nothing. Fails only where memory is refused.
pub fn solve<D: NumDom>(alloc: Global, list: &Constraints<D>) -> Result<Assignment<D>, NoMemory>
    requires finite { D.FINITE ≡ true }
    ensures { IfOk result (IsLeastSolution D.domain list.now) }
{
    let mut found = start(alloc, list)?;
    'passes: loop {
        let changed = pass(alloc, list, found.as_mut_slice())?;
        if !changed {
            return Ok(Assignment::of(found));
        }
    }
}
