//! Whether any part of a flow or a pair is empty.
ghost use Rattle.std.specs.Prelude.{◌≡◌, not};
ghost use Rattle.std.specs.List.{list_all};
ghost use Rattle.sk_lattice.specs.Empty.{cell_is_empty, flow_is_proper};
ghost use Rattle.sk_absfilter.specs.Abstract.{some_pair};

use sk_lattice::{AbsFlow, AbsStore, CellList, NumDom};

/// Whether the flow isn't empty, and no cell of its store is.
pub(crate) fn is_proper<D: NumDom>(flow: &AbsFlow<D>) -> bool
    ensures { result ≡ flow_is_proper D.domain flow.now }
{
    match flow {
        AbsFlow::Int(a) => !a.is_empty(),
        AbsFlow::Bool(a) => !a.is_empty(),
        AbsFlow::Val(a) => !a.is_empty(),
        AbsFlow::Store(AbsStore::Empty) => false,
        AbsFlow::Store(AbsStore::Cells(cells)) => all_filled(cells),
    }
}

/// Whether no cell is empty.
fn all_filled<D: NumDom>(cells: &CellList<D>) -> bool
    ensures { result ≡ list_all (λ c. not (cell_is_empty D.domain c)) cells.now }
{
    cells.as_slice().iter().all(|cell| !cell.is_empty())
}

/// Whether neither side of a refined pair is empty.
pub(crate) fn some_pair<D: NumDom>(pair: (D, D)) -> bool
    ensures { result ≡ some_pair D.domain pair }
{
    !pair.0.is_empty() && !pair.1.is_empty()
}
