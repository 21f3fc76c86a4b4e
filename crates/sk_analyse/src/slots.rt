//! One side of all keys of a program.
ghost use Rattle.std.specs.Prelude.{◌≡◌, ◌≤◌, ◌+◌, ◌*◌, true, length, map, replicate, IsTrue, IfOk, OnOk, Some, None, if◌then◌else◌};
ghost use Rattle.std.specs.Option.{option_copied};
ghost use Rattle.sk_deriv.specs.Moves.{Setting};
ghost use Rattle.sk_table.specs.declared.triple.Cover.{Cover as Asked};
ghost use Rattle.sk_rounds.specs.Rounds.{side_join, join_calls};
ghost use Rattle.sk_abswalk.specs.Reading.{Key, same_key, key_of, keyed, walks_of};
ghost use Rattle.sk_analyse.specs.Sides.{sides_fit, side_of, with_call, HasPlace, CanHear};

use crate::hook_count::HookCount;
use crate::side::join;
use sk_abswalk::KeyOutputs;
use sk_base::{NoMemory, Seq};
use sk_def::HookId;
use sk_lattice::{AbsTuple, NumDom};
use sk_table::{Cover, Covers};
use std::alloc::Global;

/// A tuple or none for each pair of a hook and a point: those of point 0 first, in the order of the hooks.
#[derive(Drop)]
pub(crate) struct Slots<D: NumDom> {
    pub(crate) hooks: HookCount,
    pub(crate) slots: Seq<Option<AbsTuple<D>>>,
}

impl<D: NumDom> Slots<D> {
    /// None for each pair of so many hooks and points.
    pub(crate) fn none(alloc: Global, hooks: usize, points: usize) -> Result<Self, NoMemory>
        requires hooks { hooks ≤ 8 }
        requires points { points ≤ 4096 }
        ensures { IfOk result (λ made. (made.hooks ≡ hooks) × (made.slots ≡ replicate (hooks * points) None)) }
    {
        let mut slots = Seq::new(alloc);
        for _slot in 0..hooks * points {
            slots.push(None)?;
        }
        Ok(Slots {
            hooks: HookCount::of(hooks),
            slots,
        })
    }

    /// The place of a pair.
    fn place(&self, hook: HookId, point: u16) -> usize
        ensures { result ≡ point * self.now.hooks + hook.0 }
    {
        usize::from(point) * self.hooks.get() + usize::from(hook.0)
    }

    /// What stands at a pair, none where it has no slot.
    pub(crate) fn side(&self, hook: HookId, point: u16) -> Option<&AbsTuple<D>>
        ensures { option_copied result ≡ side_of self.now.hooks self.now.slots (hook, point) }
    {
        if usize::from(hook.0) >= self.hooks.get() {
            return None;
        }
        self.slots.as_slice().get(self.place(hook, point))?.as_ref()
    }

    /// Puts a side into the slot of a pair.
    pub(crate) fn write(&mut self, hook: HookId, point: u16, side: Option<AbsTuple<D>>)
        requires { HasPlace self.old.hooks self.old.slots (hook, point) }
        ensures written { (k : Key) → side_of self.new.hooks self.new.slots k ≡ (if same_key (hook, point) k then side else side_of self.old.hooks self.old.slots k) }
        ensures size { length self.new.slots ≡ length self.old.slots }
        ensures hooks { self.new.hooks ≡ self.old.hooks }
    {
        let place = self.place(hook, point);
        self.slots.put(place, side);
    }

    /// Joins the inputs of a call into the side of its key.
    pub(crate) fn hear(&mut self, alloc: Global, call: &Cover<D>) -> Result<(), NoMemory>
        requires few { self.old.hooks ≤ 8 }
        requires place { HasPlace self.old.hooks self.old.slots (key_of call.now) }
        requires fits { IsTrue (sides_fit (side_of self.old.hooks self.old.slots (key_of call.now)) (Some call.now.ins)) }
        ensures heard { OnOk result ((finite : _) (marks : _) (s : Setting) (covers : _) → side_of self.new.hooks self.new.slots ≡ with_call (walks_of D.domain finite marks s covers) (side_of self.old.hooks self.old.slots) call.now) }
        ensures size { length self.new.slots ≡ length self.old.slots }
        ensures hooks { self.new.hooks ≡ self.old.hooks }
    {
        let place = self.place(call.hook, call.point);
        let joined = join(alloc, self.slots.get(place), &call.ins)?;
        self.slots.put(place, Some(joined));
        Ok(())
    }

    /// Joins the inputs of all calls into the sides of their keys.
    pub(crate) fn hear_all(&mut self, alloc: Global, calls: &Covers<D>) -> Result<(), NoMemory>
        requires { CanHear D.domain self.old.hooks self.old.slots calls.now }
        ensures heard { OnOk result ((finite : _) (marks : _) (s : Setting) (covers : _) (k : _) → side_of self.new.hooks self.new.slots k ≡ side_join (walks_of D.domain finite marks s covers) (side_of self.old.hooks self.old.slots k) (join_calls (walks_of D.domain finite marks s covers) k (map keyed calls.now))) }
        ensures size { length self.new.slots ≡ length self.old.slots }
        ensures hooks { self.new.hooks ≡ self.old.hooks }
    {
        for call in calls.as_slice() {
            self.hear(alloc, call)?;
        }
        Ok(())
    }
}

/// The outputs of keys are what stands in their slots.
impl<D: NumDom> KeyOutputs<D> for Slots<D> {
    ghost use Rattle.sk_analyse.specs.Sides.{side_of};

    ghost by_key = { λ side. side_of side.hooks side.slots };

    fn outputs_of(&self, hook: HookId, point: u16) -> Option<&AbsTuple<D>> {
        self.side(hook, point)
    }
}
