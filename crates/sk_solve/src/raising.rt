//! The steps of the climb: what a line asks for is joined into where it asks for it.
ghost use Rattle.std.specs.Prelude.{◌≡◌, true, not, IfOk, OnOk, IfSome};
ghost use Rattle.sk_lattice.specs.Order.{tuples_fit};
ghost use Rattle.sk_solve.specs.Solves.{cover_holds};
ghost use Rattle.sk_solve.specs.Climbing.{slot_of, raised, stays, IsUnderway, IsDue, IsStep, LiesIn, LineHolds, IsLineOf, IsCoverOf};

use crate::Solved;
use crate::reading::{filter_result, values};
use crate::slot::{Slot, copy_tuple, place_of, put_slot, slot_of, value_at};
use crate::table::copy_outs;
use sk_base::NoMemory;
use sk_constr::{Constraints, Line, Part};
use sk_lattice::{AbsTuple, NumDom};
use sk_table::Cover;
use std::alloc::Global;

/// Joins a tuple into what a slot has, and tells whether that changed it.
fn raise_slot<D: NumDom>(
    alloc: Global,
    solved: &mut Solved<D>,
    slot: Slot,
    asked: AbsTuple<D>,
) -> Result<bool, NoMemory>
    requires { IfSome (slot_of slot solved.old) (λ have. tuples_fit have asked ≡ true) }
    ensures changed { IfOk result (λ changed. changed ≡ not (stays D.domain slot asked solved.old)) }
    ensures new { OnOk result (solved.new ≡ raised D.domain slot asked solved.old) }
{
    let raised = match slot_of(solved, slot) {
        None => asked,
        Some(have) => {
            if asked.leq(have) {
                return Ok(false);
            }
            have.join(alloc, &asked)?
        }
    };
    put_slot(solved, slot, raised);
    Ok(true)
}

/// Joins what is asked for, if it isn't none, into what a slot of a key has, and tells whether that changed it.
fn raise<D: NumDom>(
    alloc: Global,
    list: &Constraints<D>,
    found: &mut [Solved<D>],
    at: usize,
    slot: Slot,
    asked: Option<AbsTuple<D>>,
) -> Result<bool, NoMemory>
    requires finite { D.FINITE ≡ true }
    requires underway { IsUnderway D.domain list.now found.old }
    requires due { IsDue D.domain list.now at slot asked }
    ensures { IfOk result (λ changed. IsStep D.domain list.now (LiesIn D.domain at slot asked) found.old found.new changed) }
{
    match asked {
        Some(asked) => raise_slot(alloc, &mut found[at], slot, asked),
        None => Ok(false),
    }
}

/// Joins a cover line into the inputs of its key, and tells whether that changed them.
pub(crate) fn raise_cover<D: NumDom>(
    alloc: Global,
    list: &Constraints<D>,
    cover: &Cover<D>,
    found: &mut [Solved<D>],
) -> Result<bool, NoMemory>
    requires finite { D.FINITE ≡ true }
    requires underway { IsUnderway D.domain list.now found.old }
    requires there { IsCoverOf list.now cover.now }
    ensures { IfOk result (λ changed.
        IsStep D.domain list.now (λ a. cover_holds D.domain list.now.names a cover.now ≡ true) found.old found.new changed) }
{
    let _names = list.names();
    let at = place_of(found, cover.hook, cover.point).unwrap();
    let ins = copy_tuple(alloc, &cover.ins)?;
    raise(alloc, list, found, at, Slot::Position(0), Some(ins))
}

/// Joins what a line of a key asks for into where it asks for it, and tells whether that changed anything.
pub(crate) fn raise_line<D: NumDom>(
    alloc: Global,
    list: &Constraints<D>,
    at: usize,
    line: &Line,
    found: &mut [Solved<D>],
) -> Result<bool, NoMemory>
    requires finite { D.FINITE ≡ true }
    requires underway { IsUnderway D.domain list.now found.old }
    requires there { IsLineOf list.now at line.now }
    ensures { IfOk result (λ changed. IsStep D.domain list.now (LineHolds D.domain list.now.names at line.now) found.old found.new changed) }
{
    let names = list.names();
    let positions = &found[at].positions;
    let Some(_before) = value_at(positions, line.from) else {
        return Ok(false);
    };
    match &line.part {
        Part::Filter { to, filter, args } => {
            let outs = filter_result(alloc, *filter, names, positions, args)?;
            raise(alloc, list, found, at, Slot::Position(*to), outs)
        }
        Part::Call {
            to,
            hook,
            point,
            args,
        } => {
            let Some(ins) = values(alloc, positions, args)? else {
                return Ok(false);
            };
            let called = place_of(found, *hook, *point).unwrap();
            let asks = raise(alloc, list, found, called, Slot::Position(0), Some(ins))?;
            let outs = copy_outs(alloc, &found[called].outs)?;
            let answers = raise(alloc, list, found, at, Slot::Position(*to), outs)?;
            Ok(asks | answers)
        }
        Part::Join { to, vars } => {
            let values = values(alloc, positions, vars)?;
            raise(alloc, list, found, at, Slot::Position(*to), values)
        }
        Part::End { vars } => {
            let values = values(alloc, positions, vars)?;
            raise(alloc, list, found, at, Slot::Outs, values)
        }
    }
}
