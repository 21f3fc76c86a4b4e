//! Join, meet and widening of parts.

ghost use Rattle.std.specs.Prelude.{◌≡◌};
ghost use Rattle.sk_lattice.specs.Merge.{way_of, num_merge, mark_merge, bool_merge};

use crate::domain::NumDom;
use crate::thresholds::Thresholds;
use crate::truth::AbsBool;

/// How two values are put together.
#[derive(Clone, Copy)]
pub(crate) enum Merge<'a> {
    Join,
    Meet,
    Widen(&'a Thresholds),
}

impl Merge<'_> {
    pub(crate) fn nums<D: NumDom>(self, a: D, b: D) -> D
        ensures { result ≡ num_merge D.domain (way_of self.entry) a b }
    {
        match self {
            Merge::Join => a.join(b),
            Merge::Meet => a.meet(b),
            Merge::Widen(marks) => a.widen(b, marks),
        }
    }

    pub(crate) fn marks(self, a: bool, b: bool) -> bool
        ensures { result ≡ mark_merge (way_of self.entry) a b }
    {
        match self {
            Merge::Join | Merge::Widen(_) => a || b,
            Merge::Meet => a && b,
        }
    }

    pub(crate) fn bools(self, a: AbsBool, b: AbsBool) -> AbsBool
        ensures { result ≡ bool_merge (way_of self.entry) a b }
    {
        AbsBool {
            has_true: self.marks(a.has_true, b.has_true),
            has_false: self.marks(a.has_false, b.has_false),
        }
    }
}
