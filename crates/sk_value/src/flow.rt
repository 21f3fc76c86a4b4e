//! What flows between the steps of a rule.
ghost use Rattle.std.specs.Prelude.{◌≡◌, ◌++◌, Some, IfOk, OnOk, OnErr};
ghost use Rattle.sk_base.specs.Sink.{AppendsPrefix};
ghost use Rattle.sk_value.specs.Texts.{setting_text, store_text, flow_text};
ghost use Rattle.sk_value.specs.Padding.{padded_flow, padded_store, FlowIsPartlyPadded, IsPartlyPadded};

use crate::text::{put_between, put_bytes, put_number, put_truth, put_value};
use crate::{Store, Value};
use sk_base::{Ident, Names, NoMemory, Seq};
use std::alloc::Global;

/// A value that flows: it has one of the four flow sorts.
#[derive(Drop)]
pub enum Flow {
    Int(i64),
    Bool(bool),
    Val(Value),
    Store(Store),
}

impl Default for Flow {
    /// What fills a place that a tuple doesn't use.
    fn default() -> Flow {
        Flow::Int(0)
    }
}

impl Flow {
    /// An equal value.
    pub fn copy(&self, alloc: Global) -> Result<Flow, NoMemory>
        ensures { IfOk result (λ flow. flow ≡ self.now) }
    {
        Ok(match self {
            Flow::Int(number) => Flow::Int(*number),
            Flow::Bool(truth) => Flow::Bool(*truth),
            Flow::Val(value) => Flow::Val(*value),
            Flow::Store(store) => Flow::Store(Seq::from_slice(alloc, store.as_slice())?),
        })
    }

    /// A store with fewer places than names gains unset ones until it has so many; any other value stays. After a
    /// refusal the store has its old places and some of the new ones.
    pub fn pad(&mut self, names: usize) -> Result<(), NoMemory>
        ensures ok { OnOk result (self.new ≡ padded_flow names self.old) }
        ensures err { OnErr result (FlowIsPartlyPadded names self.old self.new) }
    {
        match self {
            Flow::Store(store) => pad_store(store, names),
            _ => Ok(()),
        }
    }

    /// Appends the text, in which a store lists the names that are set. After a refusal a prefix of it was appended.
    pub fn put_text(&self, names: &Names, out: &mut Vec<u8>) -> Result<(), NoMemory>
        ensures ok { OnOk result (out.new.items ≡ out.old.items ++ flow_text names.now self.now) }
        ensures err { OnErr result (AppendsPrefix (Some out.old.items) (Some out.new.items) (flow_text names.now self.now)) }
    {
        match self {
            Flow::Int(number) => put_number(out, *number),
            Flow::Bool(truth) => put_truth(out, *truth),
            Flow::Val(value) => put_value(out, *value),
            Flow::Store(store) => put_store(out, names, store),
        }
    }
}

/// The store gains unset places until it has one for each name.
fn pad_store(store: &mut Store, names: usize) -> Result<(), NoMemory>
    ensures ok { OnOk result (store.new ≡ padded_store names store.old) }
    ensures err { OnErr result (IsPartlyPadded names store.old store.new) }
{
    for _place in store.len()..names {
        store.push(None)?;
    }
    Ok(())
}

/// Appends the names that are set with their values.
fn put_store(out: &mut Vec<u8>, names: &Names, store: &Store) -> Result<(), NoMemory>
    ensures ok { OnOk result (out.new.items ≡ out.old.items ++ store_text names.now store.now) }
    ensures err { OnErr result (AppendsPrefix (Some out.old.items) (Some out.new.items) (store_text names.now store.now)) }
{
    put_bytes(out, b"{")?;
    let mut is_first = true;
    for at in 0..store.len().min(names.count()) {
        if let Some(value) = store.get(at) {
            put_between(out, is_first)?;
            put_setting(out, names.name(at as u8), *value)?;
            is_first = false;
        }
    }
    put_bytes(out, b"}")
}

/// Appends a name with its value.
fn put_setting(out: &mut Vec<u8>, name: &Ident, value: Value) -> Result<(), NoMemory>
    ensures ok { OnOk result (out.new.items ≡ out.old.items ++ setting_text (name.now, value)) }
    ensures err { OnErr result (AppendsPrefix (Some out.old.items) (Some out.new.items) (setting_text (name.now, value))) }
{
    put_bytes(out, name.as_bytes())?;
    put_bytes(out, b"=")?;
    put_value(out, value)
}
