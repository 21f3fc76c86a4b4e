//! The places of an entry of an assignment that hold a tuple or none.
ghost use Rattle.std.specs.Prelude.{◌≡◌, true, Some, IfOk};
ghost use Rattle.std.specs.Option.{option_copied};
ghost use Rattle.sk_lattice.specs.Empty.{is_proper};
ghost use Rattle.sk_solve.specs.Solves.{value_at, is_of_key};
ghost use Rattle.sk_solve.specs.Climbing.{slot_of, with_slot, first_place};

use crate::{PositionList, Solved};
use sk_base::NoMemory;
use sk_def::HookId;
use sk_lattice::{AbsTuple, NumDom};
use std::alloc::Global;

/// A position of a key, or its outputs.
#[derive(Clone, Copy, Debug)]
pub(crate) enum Slot {
    Position(u8),
    Outs,
}

/// What a position has.
pub(crate) fn value_at<D: NumDom>(positions: &PositionList<D>, position: u8) -> Option<&AbsTuple<D>>
    ensures { option_copied result ≡ value_at positions.now position }
{
    match positions.as_slice().get(usize::from(position)) {
        Some(value) => value.as_ref(),
        None => None,
    }
}

/// What a slot has.
pub(crate) fn slot_of<D: NumDom>(solved: &Solved<D>, slot: Slot) -> Option<&AbsTuple<D>>
    ensures { option_copied result ≡ slot_of slot solved.now }
{
    match slot {
        Slot::Position(position) => value_at(&solved.positions, position),
        Slot::Outs => solved.outs.as_ref(),
    }
}

/// Gives a slot a tuple.
pub(crate) fn put_slot<D: NumDom>(solved: &mut Solved<D>, slot: Slot, tuple: AbsTuple<D>)
    ensures { solved.new ≡ with_slot slot (Some tuple) solved.old }
{
    match slot {
        Slot::Position(position) => solved.positions.put(usize::from(position), Some(tuple)),
        Slot::Outs => solved.outs = Some(tuple),
    }
}

/// An equal tuple. No part of it is empty.
pub(crate) fn copy_tuple<D: NumDom>(
    alloc: Global,
    tuple: &AbsTuple<D>,
) -> Result<AbsTuple<D>, NoMemory>
    ensures copied { IfOk result (λ copy. copy ≡ tuple.now) }
    ensures proper { is_proper D.domain tuple.now ≡ true }
{
    let _few = tuple.len();
    tuple.copy(alloc)
}

/// Whether this is the entry of a key.
fn is_of_key<D: NumDom>(solved: &Solved<D>, hook: HookId, point: u16) -> bool
    ensures { result ≡ is_of_key hook point solved.now }
{
    solved.hook.0 == hook.0 && solved.point == point
}

/// The place of the entry of a key, none where it has none.
pub(crate) fn place_of<D: NumDom>(found: &[Solved<D>], hook: HookId, point: u16) -> Option<usize>
    ensures { result ≡ first_place (is_of_key hook point) found.now }
{
    for (place, solved) in found.iter().enumerate() {
        if is_of_key(solved, hook, point) {
            return Some(place);
        }
    }
    None
}
