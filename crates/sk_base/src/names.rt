//! Lists of different identifiers.
ghost use Rattle.std.specs.Prelude.{◌≡◌, ◌+◌, ◌<◌, ◌≤◌, ◌↔◌, [], ◌∷◌, ◌++◌, None, Some, length, slice_get, IfOk, OnErr, IsErrOf, is_some};
ghost use Rattle.std.specs.List.{IsDistinct, list_any};
ghost use Rattle.std.specs.Str.{bytes_eq};
ghost use Rattle.sk_base.specs.Names.{place_of_name, with_name};

use crate::{Ident, NamesFault, NoMemory, Seq};
use indexmap::IndexSet;
use std::alloc::Global;
use std::marker::Model;
use std::mem;

/// The greatest number of names in one list.
const MOST: usize = 64;

/// At most 64 different names in the order in which they were added. Contracts see the list of them.
#[derive(Drop)]
pub struct Names {
    alloc: Global,
    names: IndexSet<Ident>,
}

impl Model for Names {
    ghost use Rattle.std.specs.Prelude.{ℕ, ◌≤◌, List, length};

    ghost Value = { List (List ℕ) };

    ghost view = { λ list. list.names.keys };

    ghost invariant = { λ list. length list.names.keys ≤ 64 };
}

impl Names {
    /// The empty list.
    pub fn new(alloc: Global) -> Names
        ensures { result ≡ [] }
    {
        Names {
            alloc,
            names: IndexSet::new(alloc),
        }
    }

    /// How many names there are.
    pub fn count(&self) -> usize
        ensures count { result ≡ length self.now }
        ensures few { result ≤ 64 }
        ensures different { IsDistinct bytes_eq self.now }
    {
        self.names.len()
    }

    /// The place of a name, none exactly where it isn't there.
    pub fn find(&self, name: &Ident) -> Option<u8>
        ensures place { result ≡ place_of_name self.now name.now }
        ensures found { is_some result ≡ list_any (bytes_eq name.now) self.now }
    {
        self.names.get_index_of(name).map(|place| place as u8)
    }

    /// The name at a place below the count.
    pub fn name(&self, id: u8) -> &Ident
        requires { id < length self.now }
        ensures { slice_get self.now id ≡ Some result.now }
    {
        self.names.get_index(id as usize).unwrap()
    }

    /// The place of a name, which goes last where it is new. `Full` says that it is new and 64 others stand. After a
    /// refusal the names are as before.
    pub fn add(&mut self, name: &Ident) -> Result<u8, NamesFault>
        ensures ok { IfOk result (λ place. with_name self.old name.now ≡ Some (place, self.new)) }
        ensures err { OnErr result (self.new ≡ self.old) }
        ensures full { IsErrOf result NamesFault.Full ↔ (length self.old ≡ 64) × (place_of_name self.old name.now ≡ None) }
        ensures none { IsErrOf result NamesFault.Full → with_name self.old name.now ≡ None }
    {
        if let Some(place) = self.find(name) {
            return Ok(place);
        }
        let place = self.count();
        if place == MOST {
            return Err(NamesFault::Full);
        }
        self.names.insert(name.copy(self.alloc)?)?;
        Ok(place as u8)
    }

    /// All names as a list; none stay. Where memory is refused they are dropped.
    pub fn take(&mut self) -> Result<Seq<Ident>, NoMemory>
        ensures value { IfOk result (λ taken. taken ≡ self.old) }
        ensures after { self.new ≡ [] }
    {
        let taken = mem::replace(&mut self.names, IndexSet::new(self.alloc));
        let entries = taken.into_iter().collect(self.alloc)?;
        Ok(Seq::of(entries))
    }
}
