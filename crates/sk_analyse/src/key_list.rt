//! The keys of a program.
ghost use Rattle.std.specs.Prelude.{◌≡◌, ◌<◌, ◌++◌, length, slice_get, ◌==◌, Some, IfOk, OnOk};
ghost use Rattle.sk_term.specs.declared.node.TermNode.{TermNode};
ghost use Rattle.sk_term.specs.Program.{IsProgramOf};
ghost use Rattle.sk_term.specs.Terms.{keys, keys_at};

use sk_base::{NoMemory, Seq};
use sk_def::{Hook, HookId, SortId};
use sk_sort::Checked;
use sk_term::Arena;
use std::alloc::Global;

/// Pairs of a hook and a point.
pub(crate) type Keys = Seq<(HookId, u16)>;

/// Whether a hook evaluates terms of this sort.
fn takes(sort: SortId, hook: &Hook) -> bool
    ensures { result ≡ (sort.0 == hook.now.sort.0) }
{
    sort.0 == hook.sort.0
}

/// Appends the keys of all hooks of a point's sort.
fn push_keys_at(
    checked: &Checked,
    arena: &Arena,
    point: u16,
    list: &mut Keys,
) -> Result<(), NoMemory>
    requires program { IsProgramOf checked.now arena.now }
    requires point { point < length arena.now.nodes }
    ensures { OnOk result ((node : TermNode) → slice_get arena.now.nodes point ≡ Some node →
        list.new ≡ list.old ++ keys_at checked.now node point 0 checked.now.hooks) }
{
    let sort = arena.sort_at(point);
    for (place, hook) in checked.def().hooks.as_slice().iter().enumerate() {
        if takes(sort, hook) {
            list.push((HookId(place as u8), point))?;
        }
    }
    Ok(())
}

/// The keys of a program, by point and then by hook.
pub(crate) fn all_keys(alloc: Global, checked: &Checked, arena: &Arena) -> Result<Keys, NoMemory>
    requires { IsProgramOf checked.now arena.now }
    ensures { IfOk result (λ list. list ≡ keys checked.now arena.now.nodes) }
{
    let mut list = Seq::new(alloc);
    for point in 0..arena.count() {
        push_keys_at(checked, arena, point as u16, &mut list)?;
    }
    Ok(list)
}
