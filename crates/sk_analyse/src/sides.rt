//! Both sides of all keys of a program.
ghost use Rattle.std.specs.Prelude.{◌≡◌, ℤ, Bool, List, IfOk};
ghost use Rattle.sk_term.specs.Program.{IsProgramOf};
ghost use Rattle.sk_deriv.specs.Moves.{setting_of};
ghost use Rattle.sk_rounds.specs.Rounds.{first_table};
ghost use Rattle.sk_abswalk.specs.Reading.{CoversFit, walks_of};
ghost use Rattle.sk_analyse.specs.Tabled.{tabled, HasAllSlots};

use crate::slots::Slots;
use sk_abswalk::readings_are_walks;
use sk_base::NoMemory;
use sk_lattice::{NumDom, Thresholds};
use sk_sort::Checked;
use sk_table::Covers;
use sk_term::Arena;
use std::alloc::Global;

/// A table of the rounds.
#[derive(Drop)]
pub(crate) struct Sides<D: NumDom> {
    pub(crate) ins: Slots<D>,
    pub(crate) outs: Slots<D>,
}

/// The table of the cover lines, without outputs.
pub(crate) fn first_table<D: NumDom>(
    alloc: Global,
    checked: &Checked,
    arena: &Arena,
    covers: &Covers<D>,
    marks: &Thresholds,
) -> Result<Sides<D>, NoMemory>
    requires program { IsProgramOf checked.now arena.now }
    requires covers { CoversFit D.domain (setting_of checked.now arena.now) covers.now }
    ensures slots { IfOk result (λ sides. HasAllSlots (setting_of checked.now arena.now) sides) }
    ensures table { IfOk result (λ sides. tabled sides ≡ first_table (walks_of D.domain D.FINITE marks.now (setting_of checked.now arena.now) covers.now)) }
{
    marks.increase();
    readings_are_walks::<D>();
    let hooks = checked.def().hooks.len();
    let points = arena.count();
    let mut ins = Slots::none(alloc, hooks, points)?;
    ins.hear_all(alloc, covers)?;
    let outs = Slots::none(alloc, hooks, points)?;
    Ok(Sides { ins, outs })
}
