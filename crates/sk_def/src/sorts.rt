//! The sorts of constructors' arguments, of variables, and of filters' arguments and results.
ghost use Rattle.std.specs.Prelude.{◌≡◌};
ghost use Rattle.sk_def.specs.Same.{same_sort};
ghost use Rattle.sk_def.specs.Signatures.{sort_of_param};

use crate::SortId;
use sk_base::FlowSort;

/// The sort of a constructor's argument.
#[derive(Clone, Copy, Debug, PartialEq, Eq)]
pub enum ArgSort {
    Number,
    Name,
    Term(SortId),
}

/// The sort of a variable of a rule.
#[derive(Clone, Copy, Debug, PartialEq, Eq)]
pub enum VarSort {
    Number,
    Name,
    Term(SortId),
    Flow(FlowSort),
}

/// Whether the two sorts are one.
pub fn is_sort(found: VarSort, wanted: VarSort) -> bool
    ensures { result ≡ same_sort found wanted }
{
    found == wanted
}

/// The sort of a filter's argument: a leaf of the program, or a value that flows.
#[derive(Clone, Copy, Debug, PartialEq, Eq)]
pub enum ParamSort {
    Number,
    Name,
    Flow(FlowSort),
}

impl ParamSort {
    /// The sort of a variable that may stand in this place.
    pub fn sort(self) -> VarSort
        ensures { result ≡ sort_of_param self }
    {
        match self {
            ParamSort::Number => VarSort::Number,
            ParamSort::Name => VarSort::Name,
            ParamSort::Flow(sort) => VarSort::Flow(sort),
        }
    }
}

/// The sorts of a filter's arguments and results: in order, and then `None`.
#[derive(Clone, Copy, Debug, PartialEq, Eq)]
pub struct Signature {
    pub params: [Option<ParamSort>; 3],
    pub results: [Option<FlowSort>; 2],
}
