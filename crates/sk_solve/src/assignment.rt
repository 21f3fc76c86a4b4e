//! Assignments.
ghost use Rattle.std.specs.Prelude.{◌≡◌, ◌<◌, length, slice_get, Some};

use sk_base::Seq;
use sk_def::HookId;
use sk_lattice::{AbsTuple, NumDom};
use std::marker::Model;

/// What each position of a key has, in order from position 0: a tuple, or none.
pub type PositionList<D> = Seq<Option<AbsTuple<D>>>;

/// What the positions of a key have, and its output.
#[derive(Drop)]
pub struct Solved<D: NumDom> {
    pub hook: HookId,
    pub point: u16,
    pub positions: PositionList<D>,
    pub outs: Option<AbsTuple<D>>,
}

/// An assignment: entries of keys, in order. Contracts see the list. That of `solve` has one for each key of its list.
#[derive(Drop)]
pub struct Assignment<D: NumDom> {
    entries: Seq<Solved<D>>,
}

impl<D: NumDom> Model for Assignment<D> {
    ghost use Rattle.std.specs.Prelude.{List};
    ghost use Rattle.sk_solve.specs.declared.assignment.Solved.{Solved};

    ghost Value = { List (Solved D) };

    ghost view = { λ assignment. assignment.entries };
}

impl<D: NumDom> Assignment<D> {
    /// The assignment of these entries.
    pub(crate) fn of(entries: Vec<Solved<D>>) -> Self
        ensures { result ≡ entries.items }
    {
        Assignment {
            entries: Seq::of(entries),
        }
    }

    /// How many entries there are.
    pub fn len(&self) -> usize
        ensures { result ≡ length self.now }
    {
        self.entries.len()
    }

    /// The entry at a place below the length.
    pub fn get(&self, at: usize) -> &Solved<D>
        requires { at < length self.now }
        ensures { slice_get self.now at ≡ Some result.now }
    {
        self.entries.get(at)
    }

    /// The entries as a slice.
    pub fn as_slice(&self) -> &[Solved<D>]
        ensures { result.now ≡ self.now }
    {
        self.entries.as_slice()
    }
}
