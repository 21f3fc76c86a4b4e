//! Lists of results.
ghost use Rattle.std.specs.Prelude.{◌≡◌, ◌<◌, ◌≤◌, [], ◌∷◌, ◌++◌, Some, length, slice_get, IfOk, OnOk, OnErr};

use sk_base::NoMemory;
use sk_value::{Flow, Tuple};
use std::alloc::Global;
use std::marker::Model;

/// The results of a filter: at most 64 tuples, in order. Contracts see the list of them.
#[derive(Drop)]
pub struct Results {
    tuples: Vec<Tuple>,
}

impl Model for Results {
    ghost use Rattle.std.specs.Prelude.{◌≤◌, List, length};
    ghost use Rattle.sk_value.specs.declared.flow.Flow.{Flow};

    ghost Value = { List (List Flow) };

    ghost view = { λ results. results.tuples.items };

    ghost invariant = { λ results. length results.tuples.items ≤ 64 };
}

impl Results {
    /// No result.
    pub(crate) fn new(alloc: Global) -> Results
        ensures { result ≡ [] }
    {
        Results {
            tuples: Vec::new(alloc),
        }
    }

    /// How many results there are, at most 64.
    pub fn len(&self) -> usize
        ensures len { result ≡ length self.now }
        ensures few { result ≤ 64 }
    {
        self.tuples.len()
    }

    /// The result at a place below the length.
    pub fn get(&self, at: usize) -> &Tuple
        requires { at < length self.now }
        ensures { slice_get self.now at ≡ Some result.now }
    {
        &self.tuples[at]
    }

    /// The results as a slice.
    pub fn as_slice(&self) -> &[Tuple]
        ensures results { result.now ≡ self.now }
        ensures few { length result.now ≤ 64 }
    {
        self.tuples.as_slice()
    }

    /// Appends a result to fewer than 64.
    pub(crate) fn push_tuple(&mut self, tuple: Tuple) -> Result<(), NoMemory>
        requires { length self.old < 64 }
        ensures ok { OnOk result (self.new ≡ self.old ++ tuple ∷ []) }
        ensures err { OnErr result (self.new ≡ self.old) }
    {
        self.tuples.push(tuple)?;
        Ok(())
    }

    /// Appends a result of one value to fewer than 64.
    pub(crate) fn push(&mut self, alloc: Global, flow: Flow) -> Result<(), NoMemory>
        requires { length self.old < 64 }
        ensures ok { OnOk result (self.new ≡ self.old ++ (flow ∷ []) ∷ []) }
        ensures err { OnErr result (self.new ≡ self.old) }
    {
        let mut tuple = Tuple::new(alloc);
        tuple.push(flow)?;
        self.push_tuple(tuple)
    }
}
