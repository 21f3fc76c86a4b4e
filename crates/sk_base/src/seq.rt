//! A list whose contracts see its entries alone.
ghost use Rattle.std.specs.Prelude.{◌≡◌, ◌<◌, [], ◌∷◌, ◌++◌, ◌==◌, Some, length, slice_get, slice_set, IfOk, OnOk, OnErr, MatchOption};

use crate::NoMemory;
use std::alloc::Global;
use std::marker::Model;
use std::mem;

/// Entries in order: the one list type, of which the named list types are aliases. Contracts see the list.
#[derive(Drop)]
pub struct Seq<E> {
    entries: Vec<E>,
}

impl<E> Model for Seq<E> {
    ghost use Rattle.std.specs.Prelude.{List};

    ghost Value = { List E };

    ghost view = { λ list. list.entries.items };
}

impl<E> Seq<E> {
    /// The list of these entries.
    pub fn of(entries: Vec<E>) -> Seq<E>
        ensures { result ≡ entries.items }
    {
        Seq { entries }
    }

    /// The empty list.
    pub fn new(alloc: Global) -> Seq<E>
        ensures { result ≡ [] }
    {
        Seq {
            entries: Vec::new(alloc),
        }
    }

    /// How many entries there are.
    pub fn len(&self) -> usize
        ensures { result ≡ length self.now }
    {
        self.entries.len()
    }

    /// Whether there is none.
    pub fn is_empty(&self) -> bool
        ensures { result ≡ (length self.now == 0) }
    {
        self.entries.is_empty()
    }

    /// The entry at a place below the length.
    pub fn get(&self, at: usize) -> &E
        requires { at < length self.now }
        ensures { slice_get self.now at ≡ Some result.now }
    {
        &self.entries[at]
    }

    /// The entries as a slice.
    pub fn as_slice(&self) -> &[E]
        ensures { result.now ≡ self.now }
    {
        self.entries.as_slice()
    }
}

impl<E: Drop> Seq<E> {
    /// Appends the entry. Where memory is refused it is dropped, and the list is as before.
    pub fn push(&mut self, entry: E) -> Result<(), NoMemory>
        ensures ok { OnOk result (self.new ≡ self.old ++ entry ∷ []) }
        ensures err { OnErr result (self.new ≡ self.old) }
    {
        self.entries.push(entry)?;
        Ok(())
    }

    /// Appends all entries of another list. Where memory is refused they are dropped, and the list is as before.
    pub fn append(&mut self, others: Seq<E>) -> Result<(), NoMemory>
        ensures ok { OnOk result (self.new ≡ self.old ++ others) }
        ensures err { OnErr result (self.new ≡ self.old) }
    {
        let mut others = others.entries;
        self.entries.append(&mut others)?;
        Ok(())
    }

    /// Puts an entry in another one's place, where there is one.
    pub fn put(&mut self, at: usize, entry: E)
        ensures { self.new ≡ slice_set self.old at entry }
    {
        if at < self.entries.len() {
            self.entries[at] = entry;
        }
    }

    /// Takes the last entry away, none where the list is empty.
    pub fn pop(&mut self) -> Option<E>
        ensures { MatchOption result ((self.old ≡ []) × (self.new ≡ [])) (λ entry. self.old ≡ self.new ++ entry ∷ []) }
    {
        self.entries.pop()
    }

    /// All entries; the empty list stays.
    pub fn take(&mut self, alloc: Global) -> Seq<E>
        ensures value { result ≡ self.old }
        ensures after { self.new ≡ [] }
    {
        Seq {
            entries: mem::replace(&mut self.entries, Vec::new(alloc)),
        }
    }
}

impl<E: Copy + Drop> Seq<E> {
    /// A list of the same entries.
    pub fn from_slice(alloc: Global, entries: &[E]) -> Result<Seq<E>, NoMemory>
        ensures { IfOk result (λ made. made ≡ entries.now) }
    {
        Ok(Seq {
            entries: Vec::from_slice(alloc, entries)?,
        })
    }
}
