//! Abstract cells, one for each name of a store.

ghost use Rattle.std.specs.Prelude.{◌≡◌, ◌++◌, Some, length, IfOk, OnOk, OnErr};
ghost use Rattle.std.specs.List.{list_any};
ghost use lib.Pointwise.{pointwise};
ghost use Rattle.sk_base.specs.Lists.{zip_with};
ghost use Rattle.sk_base.specs.Sink.{AppendsPrefix};
ghost use Rattle.sk_lattice.specs.Covers.{cell_covers};
ghost use Rattle.sk_lattice.specs.Empty.{cell_is_empty};
ghost use Rattle.sk_lattice.specs.Merge.{way_of, cell_merge};
ghost use Rattle.sk_lattice.specs.Order.{cell_leq};
ghost use Rattle.sk_lattice.specs.Texts.{cells_text, entry_text, mark_text};
ghost use Rattle.sk_lattice.specs.Padding.{unset_cell, padded_cells, IsPartlyPadded};

use crate::domain::NumDom;
use crate::merge::Merge;
use crate::truth::AbsBool;
use crate::value::AbsVal;
use sk_base::{Ident, Names, NoMemory, Seq};
use sk_value::{Store, Value, put_between, put_bytes};
use std::alloc::Global;

/// What a name may hold, and whether it may be unset.
#[derive(Clone, Copy)]
pub struct AbsCell<D> {
    pub val: AbsVal<D>,
    pub unset: bool,
}

/// One cell per name.
pub type CellList<D> = Seq<AbsCell<D>>;

impl<D: NumDom> AbsCell<D> {
    /// The cell of a name that is surely unset.
    pub fn unset() -> Self
        ensures { result ≡ unset_cell D.domain }
    {
        AbsCell {
            val: AbsVal {
                num: D::empty(),
                truth: AbsBool {
                    has_true: false,
                    has_false: false,
                },
            },
            unset: true,
        }
    }

    /// Part by part.
    pub fn leq(&self, other: &Self) -> bool
        ensures { result ≡ cell_leq D.domain self.now other.now }
    {
        self.val.leq(&other.val) && (!self.unset || other.unset)
    }

    /// Whether the name can neither be set nor unset.
    pub fn is_empty(&self) -> bool
        ensures { result ≡ cell_is_empty D.domain self.now }
    {
        self.val.is_empty() && !self.unset
    }

    /// Whether the set value is covered, or the unset name may be so.
    pub(crate) fn covers(&self, value: &Option<Value>) -> bool
        ensures { result ≡ cell_covers D.domain self.now value.now }
    {
        match value {
            Some(value) => self.val.covers(value),
            None => self.unset,
        }
    }

    pub(crate) fn merge(&self, merge: Merge, other: &Self) -> Self
        ensures { result ≡ cell_merge D.domain (way_of merge.entry) self.now other.now }
    {
        AbsCell {
            val: self.val.merge(merge, &other.val),
            unset: merge.marks(self.unset, other.unset),
        }
    }
}

pub(crate) fn cells_leq<D: NumDom>(cells: &CellList<D>, others: &CellList<D>) -> bool
    ensures { result ≡ pointwise (cell_leq D.domain) cells.now others.now }
{
    if cells.len() != others.len() {
        return false;
    }
    for at in 0..cells.len() {
        if !cells.get(at).leq(others.get(at)) {
            return false;
        }
    }
    true
}

pub(crate) fn cells_cover<D: NumDom>(cells: &CellList<D>, store: &Store) -> bool
    ensures { result ≡ pointwise (cell_covers D.domain) cells.now store.now }
{
    if cells.len() != store.len() {
        return false;
    }
    for at in 0..cells.len() {
        if !cells.get(at).covers(store.get(at)) {
            return false;
        }
    }
    true
}

pub(crate) fn some_cell_empty<D: NumDom>(cells: &CellList<D>) -> bool
    ensures { result ≡ list_any (cell_is_empty D.domain) cells.now }
{
    cells.as_slice().iter().any(|cell| cell.is_empty())
}

pub(crate) fn merge_cells<D: NumDom>(
    alloc: Global,
    merge: Merge,
    cells: &CellList<D>,
    others: &CellList<D>,
) -> Result<CellList<D>, NoMemory>
    requires { length cells.now ≡ length others.now }
    ensures { IfOk result
        (λ merged. merged ≡ zip_with (cell_merge D.domain (way_of merge.entry)) cells.now others.now) }
{
    let mut merged = Seq::new(alloc);
    for at in 0..cells.len() {
        merged.push(cells.get(at).merge(merge, others.get(at)))?;
    }
    Ok(merged)
}

/// The store gains cells of unset names until it has one for each name.
pub(crate) fn pad_cells<D: NumDom>(cells: &mut CellList<D>, names: usize) -> Result<(), NoMemory>
    ensures ok { OnOk result (cells.new ≡ padded_cells D.domain names cells.old) }
    ensures err { OnErr result (IsPartlyPadded D.domain names cells.old cells.new) }
{
    for _name in cells.len()..names {
        cells.push(AbsCell::unset())?;
    }
    Ok(())
}

/// Appends the mark of a name that may be unset.
fn put_mark(out: &mut Vec<u8>, unset: bool) -> Result<(), NoMemory>
    ensures ok { OnOk result (out.new.items ≡ out.old.items ++ mark_text unset) }
    ensures err { OnErr result (out.new.items ≡ out.old.items) }
{
    put_bytes(out, if unset { b"?" } else { b"" })
}

/// Appends a name with its cell.
fn put_entry<D: NumDom>(out: &mut Vec<u8>, name: &Ident, cell: &AbsCell<D>) -> Result<(), NoMemory>
    ensures ok { OnOk result (out.new.items ≡ out.old.items ++ entry_text D.texts (name.now, cell.now)) }
    ensures err { OnErr result (AppendsPrefix (Some out.old.items) (Some out.new.items) (entry_text D.texts (name.now, cell.now))) }
{
    put_bytes(out, name.as_bytes())?;
    put_bytes(out, b"=")?;
    cell.val.put_text(out)?;
    put_mark(out, cell.unset)
}

/// Appends the names that may be set, with their cells.
pub(crate) fn put_cells<D: NumDom>(
    out: &mut Vec<u8>,
    names: &Names,
    cells: &CellList<D>,
) -> Result<(), NoMemory>
    ensures ok { OnOk result (out.new.items ≡ out.old.items ++ cells_text D.domain D.texts names.now cells.now) }
    ensures err { OnErr result (AppendsPrefix (Some out.old.items) (Some out.new.items) (cells_text D.domain D.texts names.now cells.now)) }
{
    put_bytes(out, b"{")?;
    let mut is_first = true;
    for at in 0..cells.len().min(names.count()) {
        let cell = cells.get(at);
        if !cell.val.is_empty() {
            put_between(out, is_first)?;
            put_entry(out, names.name(at as u8), cell)?;
            is_first = false;
        }
    }
    put_bytes(out, b"}")
}
