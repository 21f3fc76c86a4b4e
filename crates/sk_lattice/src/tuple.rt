//! Abstract tuples.

ghost use Rattle.std.specs.Prelude.{◌≡◌, ◌<◌, [], ◌∷◌, ◌++◌, length, slice_get, Some, IsTrue, IfOk, OnOk, OnErr, map};
ghost use Rattle.std.specs.List.{AllZip, list_any};
ghost use lib.Pointwise.{pointwise};
ghost use Rattle.sk_base.specs.Sink.{AppendsPrefix};
ghost use Rattle.sk_lattice.specs.Covers.{flow_covers, tuple_covers};
ghost use Rattle.sk_lattice.specs.Empty.{IsTuple, flow_is_empty, flow_is_proper};
ghost use Rattle.sk_lattice.specs.Merge.{way_of, tuple_merge, tuple_meet, Join, Widen};
ghost use Rattle.sk_lattice.specs.Order.{flow_leq, tuple_leq, tuples_fit};
ghost use Rattle.sk_lattice.specs.Padding.{padded_flow, FlowIsPartlyPadded};
ghost use Rattle.sk_lattice.specs.Texts.{tuple_text};

use crate::domain::NumDom;
use crate::flow::AbsFlow;
use crate::merge::Merge;
use crate::thresholds::Thresholds;
use sk_base::{Names, NoMemory};
use sk_value::{Flow, Tuple, put_between, put_bytes};
use std::alloc::Global;
use std::marker::Model;

/// At most 8 flows, no part of which is empty. Contracts see the list.
#[derive(Drop)]
pub struct AbsTuple<D: NumDom> {
    flows: Vec<AbsFlow<D>>,
}

impl<D: NumDom> Model for AbsTuple<D> {
    ghost use Rattle.std.specs.Prelude.{List};
    ghost use Rattle.sk_lattice.specs.declared.flow.AbsFlow.{AbsFlow};

    ghost Value = { List (AbsFlow D) };

    ghost view = { λ tuple. tuple.flows.items };

    ghost use Rattle.sk_lattice.specs.Empty.{IsTuple};

    ghost invariant = { λ tuple. IsTuple D.domain tuple.flows.items };
}

impl<D: NumDom> AbsTuple<D> {
    /// The empty tuple.
    pub fn new(alloc: Global) -> Self
        ensures { result ≡ [] }
    {
        AbsTuple {
            flows: Vec::new(alloc),
        }
    }

    /// How many flows there are.
    pub fn len(&self) -> usize
        ensures value { result ≡ length self.now }
        ensures good { IsTuple D.domain self.now }
    {
        self.flows.len()
    }

    /// The flow at a place.
    pub fn get(&self, at: usize) -> &AbsFlow<D>
        requires { at < length self.now }
        ensures { slice_get self.now at ≡ Some result.now }
    {
        &self.flows[at]
    }

    /// Puts a flow at the end. Where memory is refused it is dropped, and the tuple is as before.
    pub fn push(&mut self, flow: AbsFlow<D>) -> Result<(), NoMemory>
        requires room { length self.old < 8 }
        requires proper { IsTrue (flow_is_proper D.domain flow) }
        ensures ok { OnOk result (self.new ≡ self.old ++ flow ∷ []) }
        ensures err { OnErr result (self.new ≡ self.old) }
    {
        self.flows.push(flow)?;
        Ok(())
    }

    /// An equal tuple.
    pub fn copy(&self, alloc: Global) -> Result<Self, NoMemory>
        ensures { IfOk result (λ copy. copy ≡ self.now) }
    {
        let mut flows = Vec::new(alloc);
        for flow in &self.flows {
            flows.push(flow.copy(alloc)?)?;
        }
        Ok(AbsTuple { flows })
    }

    /// Each store with fewer cells than names gains cells of unset names until it has so many; all else stays. After a
    /// refusal each store has its old cells and some of the new ones.
    pub fn pad(&mut self, names: usize) -> Result<(), NoMemory>
        ensures ok { OnOk result (self.new ≡ map (padded_flow D.domain names) self.old) }
        ensures err { OnErr result (AllZip (FlowIsPartlyPadded D.domain names) self.old self.new) }
    {
        pad_flows(&mut self.flows, names)
    }

    /// Appends the flows in parentheses; a store lists the names that may be set, in the order of the names. After a
    /// refusal a prefix of this text was appended.
    pub fn put_text(&self, names: &Names, out: &mut Vec<u8>) -> Result<(), NoMemory>
        ensures ok { OnOk result (out.new.items ≡ out.old.items ++ tuple_text D.domain D.texts names.now self.now) }
        ensures err { OnErr result (AppendsPrefix (Some out.old.items) (Some out.new.items) (tuple_text D.domain D.texts names.now self.now)) }
    {
        put_flows(&self.flows, names, out)
    }

    /// Flow by flow.
    pub fn leq(&self, other: &Self) -> bool
        ensures { result ≡ tuple_leq D.domain self.now other.now }
    {
        flows_leq(&self.flows, &other.flows)
    }

    /// Whether each flow covers the tuple's flow there.
    pub fn covers(&self, tuple: &Tuple) -> bool
        ensures { result ≡ tuple_covers D.domain self.now tuple.now }
    {
        flows_cover(&self.flows, tuple.as_slice())
    }

    /// The least tuple above both.
    pub fn join(&self, alloc: Global, other: &Self) -> Result<Self, NoMemory>
        requires { IsTrue (tuples_fit self.now other.now) }
        ensures { IfOk result (λ joined. joined ≡ tuple_merge D.domain Join self.now other.now) }
    {
        Ok(AbsTuple {
            flows: merge_flows(alloc, Merge::Join, &self.flows, &other.flows)?,
        })
    }

    /// A tuple above both, by the widening of each part.
    pub fn widen(&self, alloc: Global, new: &Self, marks: &Thresholds) -> Result<Self, NoMemory>
        requires { IsTrue (tuples_fit self.now new.now) }
        ensures { IfOk result (λ widened. widened ≡ tuple_merge D.domain (Widen marks.now) self.now new.now) }
    {
        marks.increase();
        Ok(AbsTuple {
            flows: merge_flows(alloc, Merge::Widen(marks), &self.flows, &new.flows)?,
        })
    }

    /// The greatest tuple below both, or none where a flow of it is empty.
    pub fn meet(&self, alloc: Global, other: &Self) -> Result<Option<Self>, NoMemory>
        requires { IsTrue (tuples_fit self.now other.now) }
        ensures { IfOk result (λ met. met ≡ tuple_meet D.domain self.now other.now) }
    {
        let flows = merge_flows(alloc, Merge::Meet, &self.flows, &other.flows)?;
        if some_flow_empty(&flows) {
            Ok(None)
        } else {
            Ok(Some(AbsTuple { flows }))
        }
    }
}

fn pad_flows<D: NumDom>(flows: &mut [AbsFlow<D>], names: usize) -> Result<(), NoMemory>
    ensures ok { OnOk result (flows.new ≡ map (padded_flow D.domain names) flows.old) }
    ensures err { OnErr result (AllZip (FlowIsPartlyPadded D.domain names) flows.old flows.new) }
{
    for flow in flows {
        flow.pad(names)?;
    }
    Ok(())
}

fn put_flows<D: NumDom>(
    flows: &[AbsFlow<D>],
    names: &Names,
    out: &mut Vec<u8>,
) -> Result<(), NoMemory>
    ensures ok { OnOk result (out.new.items ≡ out.old.items ++ tuple_text D.domain D.texts names.now flows.now) }
    ensures err { OnErr result (AppendsPrefix (Some out.old.items) (Some out.new.items) (tuple_text D.domain D.texts names.now flows.now)) }
{
    put_bytes(out, b"(")?;
    let mut is_first = true;
    for flow in flows {
        put_between(out, is_first)?;
        flow.put_text(names, out)?;
        is_first = false;
    }
    put_bytes(out, b")")
}

fn flows_leq<D: NumDom>(flows: &[AbsFlow<D>], others: &[AbsFlow<D>]) -> bool
    ensures { result ≡ pointwise (flow_leq D.domain) flows.now others.now }
{
    if flows.len() != others.len() {
        return false;
    }
    for at in 0..flows.len() {
        if !flows[at].leq(&others[at]) {
            return false;
        }
    }
    true
}

fn flows_cover<D: NumDom>(flows: &[AbsFlow<D>], tuple: &[Flow]) -> bool
    ensures { result ≡ pointwise (flow_covers D.domain) flows.now tuple.now }
{
    if flows.len() != tuple.len() {
        return false;
    }
    for at in 0..flows.len() {
        if !flows[at].covers(&tuple[at]) {
            return false;
        }
    }
    true
}

fn some_flow_empty<D: NumDom>(flows: &[AbsFlow<D>]) -> bool
    ensures { result ≡ list_any (flow_is_empty D.domain) flows.now }
{
    flows.iter().any(|flow| flow.is_empty())
}

fn merge_flows<D: NumDom>(
    alloc: Global,
    merge: Merge,
    flows: &[AbsFlow<D>],
    others: &[AbsFlow<D>],
) -> Result<Vec<AbsFlow<D>>, NoMemory>
    requires { IsTrue (tuples_fit flows.now others.now) }
    ensures { IfOk result
        (λ merged. merged.items ≡ tuple_merge D.domain (way_of merge.entry) flows.now others.now) }
{
    let mut merged = Vec::new(alloc);
    for at in 0..flows.len() {
        merged.push(flows[at].merge(alloc, merge, &others[at])?)?;
    }
    Ok(merged)
}
