//! Identifiers.
ghost use Rattle.std.specs.Prelude.{◌≡◌, ◌<◌, ◌≤◌, Some, length, slice_get, IfOk};
ghost use Rattle.std.specs.Str.{bytes_eq};

use crate::NoMemory;
use std::alloc::Global;
use std::hash::{Hash, Hasher};
use std::marker::Model;

/// A name of 1 to 64 bytes. Contracts see the list of its bytes.
#[derive(Drop)]
pub struct Ident {
    bytes: Vec<u8>,
}

impl Model for Ident {
    ghost use Rattle.std.specs.Prelude.{ℕ, ◌≤◌, List, length};

    ghost Value = { List ℕ };

    ghost view = { λ name. name.bytes.items };

    ghost invariant = { λ name. (1 ≤ length name.bytes.items) × (length name.bytes.items ≤ 64) };
}

impl Ident {
    /// The identifier with these bytes, of which there are 1 to 64. Fails only where memory is refused.
    pub fn of(alloc: Global, bytes: &[u8]) -> Result<Ident, NoMemory>
        requires some { 1 ≤ length bytes.now }
        requires few { length bytes.now ≤ 64 }
        ensures { IfOk result (λ name. name ≡ bytes.now) }
    {
        Ok(Ident {
            bytes: Vec::from_slice(alloc, bytes)?,
        })
    }

    /// How many bytes it has.
    pub fn len(&self) -> usize
        ensures len { result ≡ length self.now }
        ensures some { 1 ≤ result }
        ensures few { result ≤ 64 }
    {
        self.bytes.len()
    }

    /// The byte at a place below the length.
    pub fn get(&self, at: usize) -> &u8
        requires { at < length self.now }
        ensures { slice_get self.now at ≡ Some result.now }
    {
        &self.bytes[at]
    }

    /// Its bytes.
    pub fn as_bytes(&self) -> &[u8]
        ensures bytes { result.now ≡ self.now }
        ensures some { 1 ≤ length result.now }
        ensures few { length result.now ≤ 64 }
    {
        self.bytes.as_slice()
    }

    /// An equal identifier.
    pub fn copy(&self, alloc: Global) -> Result<Ident, NoMemory>
        ensures { IfOk result (λ name. name ≡ self.now) }
    {
        Ident::of(alloc, self.as_bytes())
    }

    /// Whether it has just these bytes.
    pub fn is(&self, bytes: &[u8]) -> bool
        ensures { result ≡ bytes_eq self.now bytes.now }
    {
        self.as_bytes() == bytes
    }
}

impl PartialEq for Ident {
    ghost use Rattle.std.specs.Cmp.Lexicographic.{nat_list_eq_equiv};
    ghost use Rattle.std.specs.Cmp.{partial_equiv_from_equiv};
    ghost use Rattle.std.specs.Str.{bytes_eq};

    ghost eq = { bytes_eq };

    ghost laws = { partial_equiv_from_equiv nat_list_eq_equiv };

    fn eq(&self, other: &Self) -> bool {
        self.as_bytes() == other.as_bytes()
    }
}

impl Eq for Ident {
    ghost use Rattle.std.specs.Cmp.Lexicographic.{nat_list_eq_equiv};

    ghost laws = { nat_list_eq_equiv };
}

impl Hash for Ident {
    ghost use Rattle.std.specs.Hash as fed;
    ghost use Rattle.std.specs.Hash.{items_Alike};
    ghost use Rattle.std.specs.Cmp.Rules.{hashing};
    ghost use Rattle.std.proofs.Common.{rules};

    ghost hash_input = { λ name. fed.slice fed.u8 name };

    ghost respects_eq = { Prim.search (hashing, rules) };

    fn hash<H: Hasher>(&self, state: &mut H) {
        self.as_bytes().hash(state);
    }
}
