//! The list of constraints.
ghost use Rattle.std.specs.Prelude.{◌≡◌, ◌<◌, length, slice_get, Some};
ghost use Rattle.sk_constr.specs.Fits.{ConstraintsFit};

use crate::KeyLines;
use crate::constraint_list::ConstraintList;
use sk_lattice::NumDom;
use sk_table::Covers;
use std::marker::Model;

/// The constraints of a program: its number of names, the cover lines, and the lines of each key. They fit each other,
/// and name operands lie below the number of names. Contracts see the list.
#[derive(Drop)]
pub struct Constraints<D: NumDom> {
    list: ConstraintList<D>,
}

impl<D: NumDom> Model for Constraints<D> {
    ghost use Rattle.sk_constr.specs.declared.constraint_list.ConstraintList.{ConstraintList};
    ghost use Rattle.sk_constr.specs.Fits.{ConstraintsFit};

    ghost Value = { ConstraintList D };

    ghost view = { λ constraints. constraints.list };

    ghost invariant = { λ constraints. ConstraintsFit constraints.list };
}

impl<D: NumDom> Constraints<D> {
    /// The constraints of a list that fits.
    pub(crate) fn of(list: ConstraintList<D>) -> Self
        requires { ConstraintsFit list }
        ensures { result ≡ list }
    {
        Constraints { list }
    }

    /// How many names the program is over. The lines and the cover lines fit.
    pub fn names(&self) -> usize
        ensures value { result ≡ self.now.names }
        ensures fit { ConstraintsFit self.now }
    {
        self.list.names
    }

    /// The cover lines.
    pub fn cover_lines(&self) -> &Covers<D>
        ensures { result.now ≡ self.now.covers }
    {
        &self.list.covers
    }

    /// How many keys there are.
    pub fn keys(&self) -> usize
        ensures { result ≡ length self.now.keys }
    {
        self.list.keys.len()
    }

    /// The lines of the key at a place below the number of keys.
    pub fn key(&self, at: usize) -> &KeyLines
        requires { at < length self.now.keys }
        ensures { slice_get self.now.keys at ≡ Some result.now }
    {
        self.list.keys.get(at)
    }

    /// The lines of all keys.
    pub(crate) fn all_keys(&self) -> &[KeyLines]
        ensures { result.now ≡ self.now.keys }
    {
        self.list.keys.as_slice()
    }
}
