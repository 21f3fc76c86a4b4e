//! The making of the list of constraints.
ghost use Rattle.std.specs.Prelude.{◌≡◌, ◌<◌, ◌++◌, length, map, slice_get, true, ◌==◌, Some, IfOk, OnOk, All};
ghost use Rattle.sk_def.specs.declared.def.Hook.{Hook};
ghost use Rattle.sk_term.specs.declared.node.TermNode.{TermNode};
ghost use Rattle.sk_term.specs.Program.{IsProgramOf};
ghost use Rattle.sk_term.specs.Terms.{takes_node, keys, keys_at};
ghost use Rattle.sk_constr.specs.Worlds.{closed};
ghost use Rattle.sk_table.specs.Fits.{CoverFits};
ghost use Rattle.sk_constr.specs.Keys.{AreConstraints, lines_of_key};

use crate::constraint_list::ConstraintList;
use crate::env::operands_at;
use crate::line::{KeyLines, Line, Part};
use crate::start::{RuleOf, rule_of_key, start};
use crate::world::GenWorld;
use crate::{Constraints, GenInterp};
use sk_base::{NoMemory, Seq};
use sk_def::{Hook, HookId, Rule, SortId};
use sk_lattice::NumDom;
use sk_sort::Checked;
use sk_table::{Cover, Covers};
use sk_term::Arena;
use sk_walk::walk;
use std::alloc::Global;

/// The lines of a key, from the world at the end of its rule.
fn close(
    alloc: Global,
    id: HookId,
    point: u16,
    rule: &Rule,
    hook: &Hook,
    world: GenWorld,
) -> Result<KeyLines, NoMemory>
    ensures { IfOk result (λ lines. lines ≡ closed id point rule.now hook.now world) }
{
    let vars = operands_at(alloc, &world.env, rule.outputs.as_slice())?;
    let mut lines = world.lines;
    lines.push(Line {
        from: world.from,
        part: Part::End { vars },
    })?;
    let outputs = Seq::from_slice(alloc, hook.outputs.as_slice())?;
    Ok(KeyLines {
        hook: id,
        point,
        positions: world.positions,
        outputs,
        lines,
    })
}

/// The lines of a hook of the point's sort, by the walk of its rule.
fn key_lines(
    alloc: Global,
    checked: &Checked,
    arena: &Arena,
    id: HookId,
    point: u16,
) -> Result<KeyLines, NoMemory>
    requires program { IsProgramOf checked.now arena.now }
    requires hook { id.0 < length checked.now.hooks }
    requires point { point < length arena.now.nodes }
    requires takes { (node : TermNode) (hook : Hook) → slice_get arena.now.nodes point ≡ Some node → slice_get checked.now.hooks id.0 ≡ Some hook → takes_node checked.now node hook ≡ true }
    ensures { IfOk result (λ lines. lines_of_key checked.now arena.now.nodes (id, point) ≡ Some lines) }
{
    let RuleOf { rule, hook, con } = rule_of_key(checked, arena, id, point);
    let world = start(alloc, arena, rule, hook, con, point)?;
    let mut reading = GenInterp::new(alloc, checked, con.sort, point);
    match walk(alloc, &mut reading, &rule.bones, world) {
        Ok(world) => close(alloc, id, point, rule, hook, world),
        Err(_) => Err(NoMemory),
    }
}

/// Whether a hook evaluates terms of this sort.
fn takes(sort: SortId, hook: &Hook) -> bool
    ensures { result ≡ (sort.0 == hook.now.sort.0) }
{
    sort == hook.sort
}

/// Appends the lines of all hooks of a point's sort.
fn push_keys_at(
    alloc: Global,
    checked: &Checked,
    arena: &Arena,
    point: u16,
    list: &mut Seq<KeyLines>,
) -> Result<(), NoMemory>
    requires program { IsProgramOf checked.now arena.now }
    requires point { point < length arena.now.nodes }
    ensures { OnOk result ((node : TermNode) → slice_get arena.now.nodes point ≡ Some node →
        map Some list.new ≡ map Some list.old ++ map (lines_of_key checked.now arena.now.nodes) (keys_at checked.now node point 0 checked.now.hooks)) }
{
    let sort = arena.sort_at(point);
    for (place, hook) in checked.def().hooks.as_slice().iter().enumerate() {
        if takes(sort, hook) {
            let lines = key_lines(alloc, checked, arena, HookId(place as u8), point)?;
            list.push(lines)?;
        }
    }
    Ok(())
}

/// The lines of every key of a program.
fn all_keys(alloc: Global, checked: &Checked, arena: &Arena) -> Result<Seq<KeyLines>, NoMemory>
    requires { IsProgramOf checked.now arena.now }
    ensures { IfOk result (λ list. map Some list ≡ map (lines_of_key checked.now arena.now.nodes) (keys checked.now arena.now.nodes)) }
{
    let mut list = Seq::new(alloc);
    for point in 0..arena.count() {
        push_keys_at(alloc, checked, arena, point as u16, &mut list)?;
    }
    Ok(list)
}

/// The same cover lines.
fn copy_covers<D: NumDom>(alloc: Global, covers: &Covers<D>) -> Result<Covers<D>, NoMemory>
    ensures { IfOk result (λ copy. copy ≡ covers.now) }
{
    let mut copy = Seq::new(alloc);
    for cover in covers.as_slice() {
        copy.push(Cover {
            hook: cover.hook,
            point: cover.point,
            ins: cover.ins.copy(alloc)?,
        })?;
    }
    Ok(copy)
}

/// The constraints of a program of the definition and of cover lines: for every key, by point and then by hook, the
/// lines of its rule. The cover lines are calls of keys of the program, with stores over its names. Fails only where
/// memory is refused.
pub fn generate<D: NumDom>(
    alloc: Global,
    checked: &Checked,
    arena: &Arena,
    covers: &Covers<D>,
) -> Result<Constraints<D>, NoMemory>
    requires program { IsProgramOf checked.now arena.now }
    requires fit { All (CoverFits checked.now arena.now arena.now.names) covers.now }
    ensures { IfOk result (AreConstraints checked.now arena.now covers.now) }
{
    let _sorted = checked.def();
    let covers = copy_covers(alloc, covers)?;
    let keys = all_keys(alloc, checked, arena)?;
    Ok(Constraints::of(ConstraintList {
        names: arena.names(),
        covers,
        keys,
    }))
}
