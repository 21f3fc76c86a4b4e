//! The laws of what the sort checks mean, and of verdicts that aren't yes.
ghost use Rattle.sk_reasons.specs.BonesSorted.{BonesAreSortedExactly};
ghost use Rattle.sk_reasons.specs.Defined.{AllSeenIsDefined, OnlySeenIsDefined};
ghost use Rattle.sk_reasons.specs.Good.{GoodHasNoFault};
ghost use Rattle.sk_reasons.specs.Noes.{UnjustifiedIsRight, CoverMissingIsRight};

use sk_lattice::NumDom;

/// Of bones that are laid out as they must be: before each bone, at the end of each branch and after the list a variable
/// has no sort but what the header gives it, or a bone that is seen from there.
pub fn only_seen_is_defined()
    ensures { OnlySeenIsDefined }
{}

/// Where all checks of such bones pass, a variable has each sort there that the header gives it, or a bone that is seen
/// from there; and each bone gives a sort to each variable that it defines.
pub fn all_seen_is_defined()
    ensures { AllSeenIsDefined }
{}

/// The checks of such bones all pass exactly where each bone is well sorted by what it sees: its arguments are defined
/// with the sorts that they must have, what it defines is new, and exports are defined at the end of each branch.
pub fn bones_are_sorted_exactly()
    ensures { BonesAreSortedExactly }
{}

/// A definition has no fault exactly where it is good: it is within its limits, each rule is good by what its bones and
/// its outputs see, and each hook has just one rule for each constructor of its sort.
pub fn good_has_no_fault()
    ensures { GoodHasNoFault }
{}

/// Over every domain, the verdict is that a triple isn't justified exactly where it is the first that isn't, with a cause
/// that is one: a call at which its walk stops and above which no triple of the table lies, or outputs in which its walk
/// ends and that don't lie below the triple's.
pub fn unjustified_is_right<D: NumDom>()
    ensures { UnjustifiedIsRight D.domain }
{}

/// Over every domain, the verdict is that a cover line lies below no triple exactly where all triples are justified and
/// this line is the first such one.
pub fn cover_missing_is_right<D: NumDom>()
    ensures { CoverMissingIsRight D.domain }
{}
