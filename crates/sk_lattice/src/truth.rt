//! Sets of truth values.

ghost use Rattle.std.specs.Prelude.{◌≡◌, ◌++◌, OnOk, OnErr};
ghost use Rattle.sk_lattice.specs.Texts.{bool_text};
ghost use Rattle.sk_lattice.specs.Truth.{bool_leq, bool_holds, bool_is_empty};

use sk_base::NoMemory;
use sk_value::put_bytes;

/// A set of truth values.
#[derive(Clone, Copy, Debug, PartialEq, Eq)]
pub struct AbsBool {
    pub has_true: bool,
    pub has_false: bool,
}

impl AbsBool {
    /// Whether each truth value of this set is in the other.
    pub fn leq(&self, other: &AbsBool) -> bool
        ensures { result ≡ bool_leq self.now other.now }
    {
        (!self.has_true || other.has_true) && (!self.has_false || other.has_false)
    }

    /// Whether no truth value is in the set.
    pub fn is_empty(&self) -> bool
        ensures { result ≡ bool_is_empty self.now }
    {
        !self.has_true && !self.has_false
    }

    /// Whether a truth value is in the set.
    pub fn holds(&self, truth: bool) -> bool
        ensures { result ≡ bool_holds self.now truth }
    {
        if truth { self.has_true } else { self.has_false }
    }

    /// The word of the set.
    fn word(&self) -> &'static [u8]
        ensures { result.now ≡ bool_text self.now }
    {
        match (self.has_true, self.has_false) {
            (false, false) => b"none",
            (true, false) => b"true",
            (false, true) => b"false",
            (true, true) => b"any",
        }
    }

    /// Appends the word of the set. After a refusal nothing was appended.
    pub fn put_text(&self, out: &mut Vec<u8>) -> Result<(), NoMemory>
        ensures ok { OnOk result (out.new.items ≡ out.old.items ++ bool_text self.now) }
        ensures err { OnErr result (out.new.items ≡ out.old.items) }
    {
        put_bytes(out, self.word())
    }
}
