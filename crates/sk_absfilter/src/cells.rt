//! The cells of abstract stores.
ghost use Rattle.std.specs.Prelude.{◌≡◌, ◌∷◌, [], IfOk, replicate, slice_set};
ghost use Rattle.sk_lattice.specs.declared.flow.AbsFlow.{AbsFlow};
ghost use Rattle.sk_lattice.specs.declared.store.AbsStore.{AbsStore};
ghost use Rattle.sk_lattice.specs.Padding.{unset_cell};
ghost use Rattle.sk_absfilter.specs.Abstract.{proper_tuple, cell_at, set_cell, may_be_set};

use crate::outcome::one;
use sk_base::{NoMemory, Seq};
use sk_lattice::{AbsBool, AbsCell, AbsFlow, AbsStore, AbsTuple, AbsVal, CellList, NumDom};
use std::alloc::Global;

/// The cell of a name that is set to the val.
pub(crate) fn set_cell<D: NumDom>(val: AbsVal<D>) -> AbsCell<D>
    ensures { result ≡ set_cell val }
{
    AbsCell { val, unset: false }
}

/// The cell of a name; past the last one no name is set.
pub(crate) fn cell_at<D: NumDom>(cells: &CellList<D>, name: u8) -> AbsCell<D>
    ensures { result ≡ cell_at D.domain cells.now name }
{
    let place = usize::from(name);
    if place < cells.len() {
        *cells.get(place)
    } else {
        AbsCell::unset()
    }
}

/// Whether a name is set.
pub(crate) fn may_be_set<D: NumDom>(cell: AbsCell<D>) -> AbsBool
    ensures { result ≡ may_be_set D.domain cell }
{
    AbsBool {
        has_true: !cell.val.is_empty(),
        has_false: cell.unset,
    }
}

/// The store over so many names in which none is set.
pub(crate) fn empty<D: NumDom>(alloc: Global, names: usize) -> Result<Option<AbsTuple<D>>, NoMemory>
    ensures { IfOk result (λ outcome.
        outcome ≡ proper_tuple D.domain (AbsFlow.Store (AbsStore.Cells (replicate names (unset_cell D.domain))) ∷ [])) }
{
    let mut cells = CellList::new(alloc);
    for _name in 0..names {
        cells.push(AbsCell::unset())?;
    }
    one(alloc, AbsFlow::Store(AbsStore::Cells(cells)))
}

/// The store with this cell in the name's place.
pub(crate) fn write<D: NumDom>(
    alloc: Global,
    cells: &CellList<D>,
    name: u8,
    cell: AbsCell<D>,
) -> Result<Option<AbsTuple<D>>, NoMemory>
    ensures { IfOk result (λ outcome.
        outcome ≡ proper_tuple D.domain (AbsFlow.Store (AbsStore.Cells (slice_set cells.now name cell)) ∷ [])) }
{
    let mut copy = Seq::from_slice(alloc, cells.as_slice())?;
    copy.put(usize::from(name), cell);
    one(alloc, AbsFlow::Store(AbsStore::Cells(copy)))
}

/// The store itself.
pub(crate) fn keep<D: NumDom>(
    alloc: Global,
    store: &AbsStore<D>,
) -> Result<Option<AbsTuple<D>>, NoMemory>
    ensures { IfOk result (λ outcome. outcome ≡ proper_tuple D.domain (AbsFlow.Store store.now ∷ [])) }
{
    match store {
        AbsStore::Empty => Ok(None),
        AbsStore::Cells(cells) => {
            let copy = Seq::from_slice(alloc, cells.as_slice())?;
            one(alloc, AbsFlow::Store(AbsStore::Cells(copy)))
        }
    }
}
