//! Abstract flows.

ghost use Rattle.std.specs.Prelude.{◌≡◌, ◌++◌, Some, IsTrue, IfOk, OnOk, OnErr};
ghost use Rattle.sk_base.specs.Sink.{AppendsPrefix};
ghost use Rattle.sk_lattice.specs.Covers.{flow_covers};
ghost use Rattle.sk_lattice.specs.Empty.{flow_is_empty};
ghost use Rattle.sk_lattice.specs.Merge.{way_of, flow_merge};
ghost use Rattle.sk_lattice.specs.Order.{flow_leq, flows_fit};
ghost use Rattle.sk_lattice.specs.Padding.{padded_flow, FlowIsPartlyPadded};
ghost use Rattle.sk_lattice.specs.Texts.{flow_text};

use crate::cell::{pad_cells, put_cells};
use crate::domain::NumDom;
use crate::merge::Merge;
use crate::store::AbsStore;
use crate::truth::AbsBool;
use crate::value::AbsVal;
use sk_base::{Names, NoMemory};
use sk_value::{Flow, put_bytes};
use std::alloc::Global;

/// What a variable of a rule may hold.
#[derive(Drop)]
pub enum AbsFlow<D> {
    Int(D),
    Bool(AbsBool),
    Val(AbsVal<D>),
    Store(AbsStore<D>),
}

impl<D: NumDom> AbsFlow<D> {
    /// Part by part; flows of different sorts are not below each other.
    pub fn leq(&self, other: &Self) -> bool
        ensures { result ≡ flow_leq D.domain self.now other.now }
    {
        match (self, other) {
            (AbsFlow::Int(a), AbsFlow::Int(b)) => a.leq(*b),
            (AbsFlow::Bool(a), AbsFlow::Bool(b)) => a.leq(b),
            (AbsFlow::Val(a), AbsFlow::Val(b)) => a.leq(b),
            (AbsFlow::Store(a), AbsFlow::Store(b)) => a.leq(b),
            _ => false,
        }
    }

    /// Whether the flow's part has it; a flow of another sort is not covered.
    pub fn covers(&self, flow: &Flow) -> bool
        ensures { result ≡ flow_covers D.domain self.now flow.now }
    {
        match (self, flow) {
            (AbsFlow::Int(a), Flow::Int(number)) => a.holds(*number),
            (AbsFlow::Bool(a), Flow::Bool(truth)) => a.holds(*truth),
            (AbsFlow::Val(a), Flow::Val(value)) => a.covers(value),
            (AbsFlow::Store(a), Flow::Store(store)) => a.covers(store),
            _ => false,
        }
    }

    /// Whether it is the empty one of its sort: no element, no truth value, neither of a val, or the empty store. A store that
    /// isn't empty has cells, of which none is empty where it stands in a tuple.
    pub fn is_empty(&self) -> bool
        ensures { result ≡ flow_is_empty D.domain self.now }
    {
        match self {
            AbsFlow::Int(a) => a.is_empty(),
            AbsFlow::Bool(a) => a.is_empty(),
            AbsFlow::Val(a) => a.is_empty(),
            AbsFlow::Store(AbsStore::Empty) => true,
            AbsFlow::Store(AbsStore::Cells(_)) => false,
        }
    }

    /// An equal flow.
    pub fn copy(&self, alloc: Global) -> Result<Self, NoMemory>
        ensures { IfOk result (λ copy. copy ≡ self.now) }
    {
        Ok(match self {
            AbsFlow::Int(a) => AbsFlow::Int(*a),
            AbsFlow::Bool(a) => AbsFlow::Bool(*a),
            AbsFlow::Val(a) => AbsFlow::Val(*a),
            AbsFlow::Store(a) => AbsFlow::Store(a.copy(alloc)?),
        })
    }

    /// A store with fewer cells than names gains cells of unset names until it has so many; any other flow stays. After
    /// a refusal the store has its old cells and some of the new ones.
    pub fn pad(&mut self, names: usize) -> Result<(), NoMemory>
        ensures ok { OnOk result (self.new ≡ padded_flow D.domain names self.old) }
        ensures err { OnErr result (FlowIsPartlyPadded D.domain names self.old self.new) }
    {
        match self {
            AbsFlow::Store(AbsStore::Cells(cells)) => pad_cells(cells, names),
            _ => Ok(()),
        }
    }

    /// Appends the text, in which a store lists the names that may be set. After a refusal a prefix of it was appended.
    pub fn put_text(&self, names: &Names, out: &mut Vec<u8>) -> Result<(), NoMemory>
        ensures ok { OnOk result (out.new.items ≡ out.old.items ++ flow_text D.domain D.texts names.now self.now) }
        ensures err { OnErr result (AppendsPrefix (Some out.old.items) (Some out.new.items) (flow_text D.domain D.texts names.now self.now)) }
    {
        match self {
            AbsFlow::Int(a) => a.put_text(out),
            AbsFlow::Bool(a) => a.put_text(out),
            AbsFlow::Val(a) => a.put_text(out),
            AbsFlow::Store(AbsStore::Empty) => put_bytes(out, b"none"),
            AbsFlow::Store(AbsStore::Cells(cells)) => put_cells(out, names, cells),
        }
    }

    pub(crate) fn merge(&self, alloc: Global, merge: Merge, other: &Self) -> Result<Self, NoMemory>
        requires { IsTrue (flows_fit self.now other.now) }
        ensures { IfOk result (λ merged. merged ≡ flow_merge D.domain (way_of merge.entry) self.now other.now) }
    {
        Ok(match (self, other) {
            (AbsFlow::Int(a), AbsFlow::Int(b)) => AbsFlow::Int(merge.nums(*a, *b)),
            (AbsFlow::Bool(a), AbsFlow::Bool(b)) => AbsFlow::Bool(merge.bools(*a, *b)),
            (AbsFlow::Val(a), AbsFlow::Val(b)) => AbsFlow::Val(a.merge(merge, b)),
            (AbsFlow::Store(a), AbsFlow::Store(b)) => AbsFlow::Store(a.merge(alloc, merge, b)?),
            _ => unreachable!(),
        })
    }
}
