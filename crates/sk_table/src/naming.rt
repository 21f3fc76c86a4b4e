//! The names that a tuple may speak of.

ghost use Rattle.std.specs.Prelude.{◌≡◌, ◌<◌, ◌≤◌, length, true, false, OnErr};
ghost use Rattle.sk_base.specs.Answer.{Gives};
ghost use Rattle.sk_term.specs.Meets.{HasGrown};
ghost use Rattle.sk_table.specs.Meets.{are_known, error_of, names_in};
ghost use Rattle.sk_table.specs.Tuples.{place_for};

use crate::fault::{Refusal, TableError};
use sk_base::{Ident, Names, NamesFault};
use std::alloc::Global;

/// The names that stand.
#[derive(Drop)]
pub(crate) enum Naming<'a> {
    /// New ones are added to them.
    Adding(Names),
    /// No others are known.
    Known(&'a Names),
}

impl<'a> Naming<'a> {
    /// How many names stand.
    pub(crate) fn count(&self) -> usize
        ensures { result ≡ length (names_in self.now) }
    {
        match self {
            Naming::Adding(names) => names.count(),
            Naming::Known(names) => names.count(),
        }
    }

    /// The names with those that were added; where none could be added, an empty list.
    pub(crate) fn added(self, alloc: Global) -> Names
        ensures { are_known self.entry ≡ false → result ≡ names_in self.entry }
    {
        match self {
            Naming::Adding(names) => names,
            Naming::Known(_) => Names::new(alloc),
        }
    }

    /// The place of a word among the names.
    pub(crate) fn place(&mut self, alloc: Global, word: &[u8]) -> Result<u8, Refusal>
        requires some { 0 < length word.now }
        requires short { length word.now ≤ 64 }
        ensures gives { Gives (λ place. (place, names_in self.new)) error_of result (place_for (are_known self.old) (names_in self.old) word.now) }
        ensures known { are_known self.new ≡ are_known self.old }
        ensures grown { HasGrown (names_in self.old) (names_in self.new) }
        ensures refused { OnErr result (names_in self.new ≡ names_in self.old) }
        ensures same { are_known self.old ≡ true → names_in self.new ≡ names_in self.old }
    {
        let word = Ident::of(alloc, word)?;
        match self {
            Naming::Adding(names) => match names.add(&word) {
                Ok(place) => Ok(place),
                Err(NamesFault::Full) => Err(Refusal::Bad(TableError::TooManyNames)),
                Err(NamesFault::NoMemory) => Err(Refusal::NoMemory),
            },
            Naming::Known(names) => match names.find(&word) {
                Some(place) => Ok(place),
                None => Err(Refusal::Bad(TableError::UnknownName)),
            },
        }
    }
}
