//! Tuples of flowing values.
ghost use Rattle.std.specs.Prelude.{◌≡◌, ◌<◌, ◌≤◌, [], ◌∷◌, ◌++◌, Ok, Some, length, map, slice_get, IfOk, OnOk, OnErr};
ghost use Rattle.std.specs.List.{AllZip};
ghost use Rattle.sk_base.specs.Sink.{AppendsPrefix};
ghost use Rattle.sk_value.specs.Texts.{tuple_text};
ghost use Rattle.sk_value.specs.Padding.{padded_flow, FlowIsPartlyPadded};

use crate::Flow;
use crate::text::{put_between, put_bytes};
use sk_base::{Names, NoMemory};
use smallvec::SmallVec;
use std::alloc::Global;
use std::marker::Model;

/// A tuple of at most 4 flowing values, which lie inline. Contracts see the list of them.
#[derive(Drop)]
pub struct Tuple {
    flows: SmallVec<Flow, 4>,
}

impl Model for Tuple {
    ghost use Rattle.std.specs.Prelude.{◌≤◌, List, length};
    ghost use Rattle.sk_value.specs.declared.flow.Flow.{Flow};

    ghost Value = { List Flow };

    ghost view = { λ tuple. tuple.flows.items };

    ghost invariant = { λ tuple. (length tuple.flows.items ≤ 4) × (4 ≤ tuple.flows.capacity) };
}

impl Tuple {
    /// The empty tuple.
    pub fn new(alloc: Global) -> Tuple
        ensures { result ≡ [] }
    {
        Tuple {
            flows: SmallVec::new(alloc),
        }
    }

    /// How many values it has, at most 4.
    pub fn len(&self) -> usize
        ensures len { result ≡ length self.now }
        ensures few { result ≤ 4 }
    {
        self.flows.len()
    }

    /// The value at a place below the length.
    pub fn get(&self, at: usize) -> &Flow
        requires { at < length self.now }
        ensures { slice_get self.now at ≡ Some result.now }
    {
        &self.as_slice()[at]
    }

    /// The values as a slice.
    pub fn as_slice(&self) -> &[Flow]
        ensures flows { result.now ≡ self.now }
        ensures few { length result.now ≤ 4 }
    {
        self.flows.as_slice()
    }

    /// Appends a value to fewer than 4. It takes no memory, and so is never refused.
    pub fn push(&mut self, flow: Flow) -> Result<(), NoMemory>
        requires { length self.old < 4 }
        ensures pushed { self.new ≡ self.old ++ flow ∷ [] }
        ensures ok { result ≡ Ok tt }
    {
        self.flows.push_reserved(flow);
        Ok(())
    }

    /// An equal tuple.
    pub fn copy(&self, alloc: Global) -> Result<Tuple, NoMemory>
        ensures { IfOk result (λ tuple. tuple ≡ self.now) }
    {
        let mut copy = Tuple::new(alloc);
        for flow in self.as_slice() {
            copy.push(flow.copy(alloc)?)?;
        }
        Ok(copy)
    }

    /// Each store with fewer places than names gains unset ones until it has so many; all else stays. After a
    /// refusal each store has its old places and some of the new ones.
    pub fn pad(&mut self, names: usize) -> Result<(), NoMemory>
        ensures ok { OnOk result (self.new ≡ map (padded_flow names) self.old) }
        ensures err { OnErr result (AllZip (FlowIsPartlyPadded names) self.old self.new) }
    {
        for flow in self.flows.as_mut_slice() {
            flow.pad(names)?;
        }
        Ok(())
    }

    /// Appends the values in parentheses; a store lists the names that are set, in the order of the names. After a
    /// refusal a prefix of this text was appended.
    pub fn put_text(&self, names: &Names, out: &mut Vec<u8>) -> Result<(), NoMemory>
        ensures ok { OnOk result (out.new.items ≡ out.old.items ++ tuple_text names.now self.now) }
        ensures err { OnErr result (AppendsPrefix (Some out.old.items) (Some out.new.items) (tuple_text names.now self.now)) }
    {
        put_bytes(out, b"(")?;
        let mut is_first = true;
        for flow in self.as_slice() {
            put_between(out, is_first)?;
            flow.put_text(names, out)?;
            is_first = false;
        }
        put_bytes(out, b")")
    }
}
