//! Abstract values.

ghost use Rattle.std.specs.Prelude.{◌≡◌, ◌++◌, Some, OnOk, OnErr};
ghost use Rattle.sk_base.specs.Sink.{AppendsPrefix};
ghost use Rattle.sk_lattice.specs.Covers.{val_covers};
ghost use Rattle.sk_lattice.specs.Empty.{val_is_empty};
ghost use Rattle.sk_lattice.specs.Merge.{way_of, val_merge};
ghost use Rattle.sk_lattice.specs.Order.{val_leq};
ghost use Rattle.sk_lattice.specs.Texts.{val_text};

use crate::domain::NumDom;
use crate::merge::Merge;
use crate::truth::AbsBool;
use sk_base::NoMemory;
use sk_value::{Value, put_bytes};

/// The numbers and the truth values that a value may be.
#[derive(Clone, Copy)]
pub struct AbsVal<D> {
    pub num: D,
    pub truth: AbsBool,
}

impl<D: NumDom> AbsVal<D> {
    /// Part by part.
    pub fn leq(&self, other: &Self) -> bool
        ensures { result ≡ val_leq D.domain self.now other.now }
    {
        self.num.leq(other.num) && self.truth.leq(&other.truth)
    }

    /// Whether the part of the value's kind has it.
    pub fn covers(&self, value: &Value) -> bool
        ensures { result ≡ val_covers D.domain self.now value.now }
    {
        match value {
            Value::Int(number) => self.num.holds(*number),
            Value::Bool(truth) => self.truth.holds(*truth),
        }
    }

    /// Whether both parts are empty.
    pub fn is_empty(&self) -> bool
        ensures { result ≡ val_is_empty D.domain self.now }
    {
        self.num.is_empty() && self.truth.is_empty()
    }

    /// Appends the text of both parts. After a refusal a prefix of it was appended.
    pub fn put_text(&self, out: &mut Vec<u8>) -> Result<(), NoMemory>
        ensures ok { OnOk result (out.new.items ≡ out.old.items ++ val_text D.texts self.now) }
        ensures err { OnErr result (AppendsPrefix (Some out.old.items) (Some out.new.items) (val_text D.texts self.now)) }
    {
        self.num.put_text(out)?;
        put_bytes(out, b"/")?;
        self.truth.put_text(out)
    }

    pub(crate) fn merge(&self, merge: Merge, other: &Self) -> Self
        ensures { result ≡ val_merge D.domain (way_of merge.entry) self.now other.now }
    {
        AbsVal {
            num: merge.nums(self.num, other.num),
            truth: merge.bools(self.truth, other.truth),
        }
    }
}
