//! Worlds: what stands at a place of a rule, and the lines since the rule or the branch was begun.
ghost use Rattle.std.specs.Prelude.{◌≡◌, ◌++◌, IfOk, OnOk};
ghost use Rattle.std.specs.List.{flat_map};
ghost use Rattle.std.specs.Option.{option_and_then};
ghost use Rattle.sk_def.specs.Sorts.{sort_of};
ghost use Rattle.sk_constr.specs.declared.world.GenWorld.{GenWorld};
ghost use Rattle.sk_constr.specs.Positions.{flow_sort, exported_sorts};
ghost use Rattle.sk_constr.specs.Worlds.{forked, branch_lines};

use crate::env::{PlaceEnv, copy_env, operands_at};
use crate::line::{Line, LineList, Part, SortsList};
use sk_base::{FlowSort, NoMemory, Seq};
use sk_def::{FlowSorts, Var, VarSort};
use sk_sort::VarSorts;
use std::alloc::Global;

/// The sorts of the variables and what they stand for, the position before the next bone, and the lines and the sorts of
/// the positions since the rule or the branch was begun.
#[derive(Drop)]
pub struct GenWorld {
    pub(crate) sorts: VarSorts,
    pub(crate) env: PlaceEnv,
    pub(crate) from: u8,
    pub(crate) lines: LineList,
    pub(crate) positions: SortsList,
}

/// The position of the outputs of a bone.
pub(crate) fn position_of(bone: u16) -> Result<u8, NoMemory>
    ensures { IfOk result (λ position. position ≡ bone) }
{
    // a rule has at most 64 bones, so no bone has a greater number than a `u8` holds
    u8::try_from(bone).map_err(|_| NoMemory)
}

/// The world in which a branch is begun.
pub(crate) fn forked(alloc: Global, world: &GenWorld) -> Result<GenWorld, NoMemory>
    ensures { IfOk result (λ fork. fork ≡ forked world.now) }
{
    Ok(GenWorld {
        sorts: Seq::from_slice(alloc, world.sorts.as_slice())?,
        env: copy_env(alloc, &world.env)?,
        from: world.from,
        lines: Seq::new(alloc),
        positions: Seq::new(alloc),
    })
}

/// The sorts of the values that variables have at the end of a branch.
pub(crate) fn exported_sorts(
    alloc: Global,
    sorts: &VarSorts,
    exports: &[Var],
) -> Result<FlowSorts, NoMemory>
    ensures { IfOk result (λ flows. flows ≡ exported_sorts sorts.now exports.now) }
{
    let mut flows = Seq::new(alloc);
    for variable in exports {
        if let Some(flow) = flow_of(sorts, *variable) {
            flows.push(flow)?;
        }
    }
    Ok(flows)
}

/// The sort of the values that a variable has.
fn flow_of(sorts: &VarSorts, variable: Var) -> Option<FlowSort>
    ensures { result ≡ option_and_then flow_sort (sort_of sorts.now variable) }
{
    match sorts.as_slice().get(usize::from(variable.0)) {
        Some(Some(VarSort::Flow(flow))) => Some(*flow),
        _ => None,
    }
}

/// Appends the lines and the positions of a branch, and the line of its end.
fn push_branch(
    alloc: Global,
    lines: &mut LineList,
    positions: &mut SortsList,
    to: u8,
    exports: &[Var],
    end: GenWorld,
) -> Result<(), NoMemory>
    ensures lines { OnOk result (lines.new ≡ lines.old ++ branch_lines to exports.now end) }
    ensures positions { OnOk result (positions.new ≡ positions.old ++ end.positions) }
{
    let vars = operands_at(alloc, &end.env, exports)?;
    lines.append(end.lines)?;
    lines.push(Line {
        from: end.from,
        part: Part::Join { to, vars },
    })?;
    positions.append(end.positions)
}

/// The same of all branches, in order.
pub(crate) fn push_branches(
    alloc: Global,
    lines: &mut LineList,
    positions: &mut SortsList,
    to: u8,
    exports: &[Var],
    ends: Vec<GenWorld>,
) -> Result<(), NoMemory>
    ensures lines { OnOk result (lines.new ≡ lines.old ++ flat_map (branch_lines to exports.now) ends.items) }
    ensures positions { OnOk result (positions.new ≡ positions.old ++ flat_map (λ (end : GenWorld). end.positions) ends.items) }
{
    for end in ends {
        push_branch(alloc, lines, positions, to, exports, end)?;
    }
    Ok(())
}
