//! A table with an index by key.
ghost use Rattle.std.specs.Prelude.{◌≡◌, ◌≤◌, ◌<◌, ◌+◌, ◌*◌, [], ◌∷◌, ◌++◌, length, map, replicate, get_or, IfOk, OnOk};
ghost use Rattle.sk_abswalk.specs.Tables.{table_answer};
ghost use Rattle.sk_abswalk.specs.Keys.{key_of, key_of_triple};
ghost use Rattle.sk_abswalk.specs.Index.{slot_of, HasSlot, IsIndex};

use crate::answer::{is_above, meet_more, table_answer};
use sk_base::NoMemory;
use sk_def::HookId;
use sk_lattice::{AbsTuple, NumDom};
use sk_table::{Cover, Table, Triple};
use std::alloc::Global;
use std::marker::Model;

/// A table, and slots for pairs of a hook and a point: a slot has the triples of its key, in the table's order. Contracts
/// see the table, and say nothing of how many slots there are.
#[derive(Drop)]
pub struct IndexedTable<'a, D: NumDom> {
    table: &'a Table<D>,
    hooks: usize,
    slots: Vec<Vec<&'a Triple<D>>>,
}

impl<'a, D: NumDom> Model for IndexedTable<'a, D> {
    ghost use Rattle.std.specs.Prelude.{List, map};
    ghost use Rattle.sk_table.specs.declared.triple.Triple.{Triple};
    ghost use Rattle.sk_abswalk.specs.Index.{IsIndexed};

    ghost Value = { List (Triple D) };

    ghost view = { λ indexed. indexed.table.now };

    ghost invariant = { λ indexed. IsIndexed indexed.hooks (map (λ slot. map (λ triple. triple.now) slot.items) indexed.slots.items) indexed.table.now };
}

/// The slot of a key, where slots lie by point and then by hook.
fn slot_of(hooks: usize, hook: HookId, point: u16) -> usize
    requires { hooks ≤ 8 }
    ensures { result ≡ slot_of hooks (hook, point) }
{
    usize::from(point) * hooks + usize::from(hook.0)
}

/// So many empty slots.
fn empty_slots<'a, D: NumDom>(
    alloc: Global,
    count: usize,
) -> Result<Vec<Vec<&'a Triple<D>>>, NoMemory>
    ensures { IfOk result (λ slots. map (λ slot. map (λ triple. triple.now) slot.items) slots.items ≡ replicate count []) }
{
    let mut slots = Vec::new(alloc);
    for _slot in 0..count {
        slots.push(Vec::new(alloc))?;
    }
    Ok(slots)
}

/// Enters a triple behind the others of its key. One whose key has no slot is left out.
fn enter<'a, D: NumDom>(
    slots: &mut Vec<Vec<&'a Triple<D>>>,
    hooks: usize,
    triple: &'a Triple<D>,
) -> Result<(), NoMemory>
    requires { hooks ≤ 8 }
    ensures { OnOk result ((table : _) →
        IsIndex hooks (map (λ slot. map (λ triple. triple.now) slot.items) slots.old.items) table →
        IsIndex hooks (map (λ slot. map (λ triple. triple.now) slot.items) slots.new.items) (table ++ triple.now ∷ [])) }
{
    let slot = slot_of(hooks, triple.hook, triple.point);
    if usize::from(triple.hook.0) < hooks && slot < slots.len() {
        slots[slot].push(triple)?;
    }
    Ok(())
}

/// What triples answer to a call.
fn answer_among<D: NumDom>(
    alloc: Global,
    triples: &[&Triple<D>],
    call: &Cover<D>,
) -> Result<Option<Option<AbsTuple<D>>>, NoMemory>
    ensures { IfOk result (λ answer. answer ≡ table_answer D.domain (map (λ triple. triple.now) triples.now) call.now) }
{
    let mut met = None;
    for triple in triples {
        let triple: &Triple<D> = triple;
        if is_above(call, triple) {
            met = Some(meet_more(alloc, &met, &triple.outs)?);
        }
    }
    Ok(met)
}

impl<'a, D: NumDom> IndexedTable<'a, D> {
    /// Indexes a table by the keys of so many hooks and points.
    pub fn of(
        alloc: Global,
        hooks: usize,
        points: usize,
        table: &'a Table<D>,
    ) -> Result<Self, NoMemory>
        requires hooks { hooks ≤ 8 }
        requires points { points ≤ 4096 }
        ensures { IfOk result (λ indexed. indexed ≡ table.now) }
    {
        let mut slots = empty_slots(alloc, hooks * points)?;
        for triple in table.as_slice() {
            enter(&mut slots, hooks, triple)?;
        }
        Ok(IndexedTable {
            table,
            hooks,
            slots,
        })
    }

    /// The table's answer to a call, from the triples of the call's key alone where that key has a slot.
    pub fn answer(
        &self,
        alloc: Global,
        call: &Cover<D>,
    ) -> Result<Option<Option<AbsTuple<D>>>, NoMemory>
        ensures { IfOk result (λ answer. answer ≡ table_answer D.domain self.now call.now) }
    {
        let slot = slot_of(self.hooks, call.hook, call.point);
        if usize::from(call.hook.0) < self.hooks && slot < self.slots.len() {
            return answer_among(alloc, self.slots[slot].as_slice(), call);
        }
        table_answer(alloc, self.table, call)
    }
}
