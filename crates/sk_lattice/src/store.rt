//! Abstract stores.

ghost use Rattle.std.specs.Prelude.{◌≡◌, IsTrue, IfOk};
ghost use Rattle.sk_lattice.specs.Covers.{store_covers};
ghost use Rattle.sk_lattice.specs.Empty.{store_of};
ghost use Rattle.sk_lattice.specs.Merge.{way_of, store_merge};
ghost use Rattle.sk_lattice.specs.Order.{store_leq, stores_fit};

use crate::cell::{CellList, cells_cover, cells_leq, merge_cells, some_cell_empty};
use crate::domain::NumDom;
use crate::merge::Merge;
use sk_base::{NoMemory, Seq};
use sk_value::Store;
use std::alloc::Global;

/// No store, or the stores that are covered cell by cell.
#[derive(Drop)]
pub enum AbsStore<D> {
    Empty,
    Cells(CellList<D>),
}

impl<D: NumDom> AbsStore<D> {
    /// Cell by cell; the empty store lies below all.
    pub fn leq(&self, other: &Self) -> bool
        ensures { result ≡ store_leq D.domain self.now other.now }
    {
        match (self, other) {
            (AbsStore::Empty, _) => true,
            (AbsStore::Cells(_), AbsStore::Empty) => false,
            (AbsStore::Cells(cells), AbsStore::Cells(others)) => cells_leq(cells, others),
        }
    }

    /// Whether each name's cell covers what the store has for it.
    pub fn covers(&self, store: &Store) -> bool
        ensures { result ≡ store_covers D.domain self.now store.now }
    {
        match self {
            AbsStore::Empty => false,
            AbsStore::Cells(cells) => cells_cover(cells, store),
        }
    }

    /// The store of these cells; it is empty where a cell is.
    pub fn of(cells: CellList<D>) -> Self
        ensures { result ≡ store_of D.domain cells }
    {
        if some_cell_empty(&cells) {
            AbsStore::Empty
        } else {
            AbsStore::Cells(cells)
        }
    }

    pub(crate) fn copy(&self, alloc: Global) -> Result<Self, NoMemory>
        ensures { IfOk result (λ copy. copy ≡ self.now) }
    {
        match self {
            AbsStore::Empty => Ok(AbsStore::Empty),
            AbsStore::Cells(cells) => {
                Ok(AbsStore::Cells(Seq::from_slice(alloc, cells.as_slice())?))
            }
        }
    }

    pub(crate) fn merge(&self, alloc: Global, merge: Merge, other: &Self) -> Result<Self, NoMemory>
        requires { IsTrue (stores_fit self.now other.now) }
        ensures { IfOk result (λ merged. merged ≡ store_merge D.domain (way_of merge.entry) self.now other.now) }
    {
        match (merge, self, other) {
            (Merge::Meet, AbsStore::Cells(cells), AbsStore::Cells(others)) => {
                Ok(AbsStore::of(merge_cells(alloc, merge, cells, others)?))
            }
            (Merge::Meet, _, _) => Ok(AbsStore::Empty),
            (_, AbsStore::Empty, _) => other.copy(alloc),
            (_, _, AbsStore::Empty) => self.copy(alloc),
            (_, AbsStore::Cells(cells), AbsStore::Cells(others)) => {
                Ok(AbsStore::Cells(merge_cells(alloc, merge, cells, others)?))
            }
        }
    }
}
