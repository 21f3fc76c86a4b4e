//! The verdict on a table.
ghost use Rattle.std.specs.Prelude.{◌≡◌, Ok, IfOk, Some, All};
ghost use Rattle.std.specs.Option.{option_map};
ghost use Rattle.sk_term.specs.Program.{IsProgramOf};
ghost use Rattle.sk_deriv.specs.Moves.{setting_of};
ghost use Rattle.sk_absfilter.specs.Laws.{outcome_leq};
ghost use Rattle.sk_abswalk.specs.declared.verdict.Verdict.{Verdict};
ghost use Rattle.sk_abswalk.specs.Fits.{CallFits, TableFits};
ghost use Rattle.sk_abswalk.specs.Tables.{call_of, is_covered, IsBounded, IsSound};
ghost use Rattle.sk_abswalk.specs.Verdict.{first_failing, verdict_of};
ghost use Rattle.sk_verify.specs.Judged.{IsFirst, IsJudged};

use sk_abswalk::{
    FromStop, IndexedTable, Verdict, Why, accepted_tables_are_sound, is_covered,
    verdicts_are_right, walk_indexed,
};
use sk_base::NoMemory;
use sk_lattice::{AbsTuple, NumDom};
use sk_sort::Checked;
use sk_table::{Covers, Table, Triple};
use sk_term::Arena;
use std::alloc::Global;

/// Whether outputs lie below others; none lie below all.
fn lie_below<D: NumDom>(outs: &Option<AbsTuple<D>>, others: &Option<AbsTuple<D>>) -> bool
    ensures { result ≡ outcome_leq D.domain outs.now others.now }
{
    match (outs, others) {
        (None, _) => true,
        (Some(_), None) => false,
        (Some(outs), Some(others)) => outs.leq(others),
    }
}

/// Why a triple isn't justified by the table, or none where it is.
fn judge<D: NumDom>(
    alloc: Global,
    checked: &Checked,
    arena: &Arena,
    indexed: &IndexedTable<D>,
    triple: &Triple<D>,
) -> Result<Option<Why<D>>, NoMemory>
    requires program { IsProgramOf checked.now arena.now }
    requires table { TableFits (setting_of checked.now arena.now) indexed.now }
    requires triple { CallFits (setting_of checked.now arena.now) (call_of triple.now) }
    ensures { IfOk result (λ why. IsJudged D.domain (setting_of checked.now arena.now) indexed.now triple.now why) }
{
    match walk_indexed(
        alloc,
        checked,
        arena,
        indexed,
        triple.hook,
        triple.point,
        &triple.ins,
    ) {
        Err(FromStop::NoMemory) => Err(NoMemory),
        Err(FromStop::Uncovered { hook, point, args }) => {
            Ok(Some(Why::Uncovered { hook, point, args }))
        }
        Ok(outs) => {
            if lie_below(&outs, &triple.outs) {
                return Ok(None);
            }
            Ok(outs.map(|outs| Why::Larger { outs }))
        }
    }
}

/// The number of the first triple that isn't justified, from 1, and why it isn't.
fn first_unjustified<D: NumDom>(
    alloc: Global,
    checked: &Checked,
    arena: &Arena,
    table: &Table<D>,
) -> Result<Option<(usize, Why<D>)>, NoMemory>
    requires program { IsProgramOf checked.now arena.now }
    requires table { TableFits (setting_of checked.now arena.now) table.now }
    ensures { IfOk result (λ found. IsFirst D.domain (setting_of checked.now arena.now) table.now found) }
{
    let indexed = IndexedTable::of(alloc, checked.def().hooks.len(), arena.count(), table)?;
    for (place, triple) in table.as_slice().iter().enumerate() {
        if let Some(why) = judge(alloc, checked, arena, &indexed, triple)? {
            return Ok(Some((place + 1, why)));
        }
    }
    Ok(None)
}

/// The number of the first cover line that lies below no triple, from 1.
fn first_missing<D: NumDom>(covers: &Covers<D>, table: &Table<D>) -> Option<usize>
    ensures { result ≡ option_map (λ e. e.0) (first_failing (is_covered D.domain table.now) covers.now) }
{
    for (place, line) in covers.as_slice().iter().enumerate() {
        if !is_covered(table, line) {
            return Some(place + 1);
        }
    }
    None
}

/// The verdict on a table that fits the program: the first triple, numbered from 1, whose walk asks for a call that no
/// triple lies above or whose outputs don't lie below the triple's, with that cause; else the first cover line, numbered
/// from 1, that lies below no triple; else yes. On yes each derivation, of any height, that a triple or a cover line covers
/// ends in outputs that the table says.
pub fn verify<D: NumDom>(
    alloc: Global,
    checked: &Checked,
    arena: &Arena,
    covers: &Covers<D>,
    table: &Table<D>,
) -> Result<Verdict<D>, NoMemory>
    requires program { IsProgramOf checked.now arena.now }
    requires table { TableFits (setting_of checked.now arena.now) table.now }
    ensures verdict { IfOk result (λ verdict. verdict_of D.domain (setting_of checked.now arena.now) covers.now table.now ≡ Some verdict) }
    ensures sound { result ≡ Ok Verdict.Yes →
        All (IsSound D.domain (setting_of checked.now arena.now)) table.now ×
        All (IsBounded D.domain (setting_of checked.now arena.now) table.now) covers.now }
{
    if let Some((triple, why)) = first_unjustified(alloc, checked, arena, table)? {
        return Ok(Verdict::Unjustified { triple, why });
    }
    if let Some(line) = first_missing(covers, table) {
        return Ok(Verdict::CoverMissing { line });
    }
    verdicts_are_right::<D>();
    accepted_tables_are_sound::<D>();
    Ok(Verdict::Yes)
}
