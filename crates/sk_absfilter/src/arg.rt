//! The abstract arguments of filters.
ghost use Rattle.std.specs.Prelude.{◌≡◌};
ghost use Rattle.std.specs.List.{list_all};
ghost use Rattle.std.specs.Option.{option_map, option_copied};
ghost use Rattle.sk_absfilter.specs.Abstract.{arg_is_proper};
ghost use Rattle.sk_absfilter.specs.Arguments.{the_number, the_int, the_ints, the_bool, the_bools, the_val, the_store, the_cell, the_cell_and_val};

use crate::proper::is_proper;
use sk_lattice::{AbsBool, AbsFlow, AbsStore, AbsVal, CellList, NumDom};

/// What a filter is given: a leaf of the program, or what may flow.
#[derive(Drop)]
pub enum AbsArg<D> {
    Number(i64),
    Name(u8),
    Flow(AbsFlow<D>),
}

impl<D: NumDom> AbsArg<D> {
    /// Whether the argument isn't empty, and no cell of its store is.
    fn is_proper(&self) -> bool
        ensures { result ≡ arg_is_proper D.domain self.now }
    {
        match self {
            AbsArg::Number(_) | AbsArg::Name(_) => true,
            AbsArg::Flow(flow) => is_proper(flow),
        }
    }
}

/// Whether no argument is empty.
pub(crate) fn all_proper<D: NumDom>(args: &[AbsArg<D>]) -> bool
    ensures { result ≡ list_all (arg_is_proper D.domain) args.now }
{
    args.iter().all(|arg| arg.is_proper())
}

/// The number that is the one argument.
pub(crate) fn the_number<D: NumDom>(args: &[AbsArg<D>]) -> Option<i64>
    ensures { result ≡ the_number args.now }
{
    match args {
        [AbsArg::Number(number)] => Some(*number),
        _ => None,
    }
}

/// The element that is the one argument.
pub(crate) fn the_int<D: NumDom>(args: &[AbsArg<D>]) -> Option<D>
    ensures { result ≡ the_int args.now }
{
    match args {
        [AbsArg::Flow(AbsFlow::Int(a))] => Some(*a),
        _ => None,
    }
}

/// The two elements that are the arguments.
pub(crate) fn the_ints<D: NumDom>(args: &[AbsArg<D>]) -> Option<(D, D)>
    ensures { result ≡ the_ints args.now }
{
    match args {
        [AbsArg::Flow(AbsFlow::Int(a)), AbsArg::Flow(AbsFlow::Int(b))] => Some((*a, *b)),
        _ => None,
    }
}

/// The set of truth values that is the one argument.
pub(crate) fn the_bool<D: NumDom>(args: &[AbsArg<D>]) -> Option<AbsBool>
    ensures { result ≡ the_bool args.now }
{
    match args {
        [AbsArg::Flow(AbsFlow::Bool(a))] => Some(*a),
        _ => None,
    }
}

/// The two sets of truth values that are the arguments.
pub(crate) fn the_bools<D: NumDom>(args: &[AbsArg<D>]) -> Option<(AbsBool, AbsBool)>
    ensures { result ≡ the_bools args.now }
{
    match args {
        [
            AbsArg::Flow(AbsFlow::Bool(a)),
            AbsArg::Flow(AbsFlow::Bool(b)),
        ] => Some((*a, *b)),
        _ => None,
    }
}

/// The val that is the one argument.
pub(crate) fn the_val<D: NumDom>(args: &[AbsArg<D>]) -> Option<AbsVal<D>>
    ensures { result ≡ the_val args.now }
{
    match args {
        [AbsArg::Flow(AbsFlow::Val(val))] => Some(*val),
        _ => None,
    }
}

/// The store that is the one argument.
pub(crate) fn the_store<D: NumDom>(args: &[AbsArg<D>]) -> Option<&AbsStore<D>>
    ensures { option_copied result ≡ the_store args.now }
{
    match args {
        [AbsArg::Flow(AbsFlow::Store(store))] => Some(store),
        _ => None,
    }
}

/// The cells of the store, and the name of it, that are the arguments.
pub(crate) fn the_cell<D: NumDom>(args: &[AbsArg<D>]) -> Option<(&CellList<D>, u8)>
    ensures { option_map (λ cell. (cell.0.now, cell.1)) result ≡ the_cell args.now }
{
    match args {
        [
            AbsArg::Flow(AbsFlow::Store(AbsStore::Cells(cells))),
            AbsArg::Name(name),
        ] => Some((cells, *name)),
        _ => None,
    }
}

/// The cells of the store, the name of it and the val that are the arguments.
pub(crate) fn the_cell_and_val<D: NumDom>(
    args: &[AbsArg<D>],
) -> Option<(&CellList<D>, u8, AbsVal<D>)>
    ensures { option_map (λ cell. (cell.0.now, cell.1, cell.2)) result ≡ the_cell_and_val args.now }
{
    match args {
        [
            AbsArg::Flow(AbsFlow::Store(AbsStore::Cells(cells))),
            AbsArg::Name(name),
            AbsArg::Flow(AbsFlow::Val(val)),
        ] => Some((cells, *name, *val)),
        _ => None,
    }
}
