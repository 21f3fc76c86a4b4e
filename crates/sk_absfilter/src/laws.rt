//! What holds of the abstract filters over every domain.

ghost use Rattle.sk_absfilter.specs.Laws.{FiltersAreSound, FiltersAreMonotone};
ghost use Rattle.sk_absfilter.specs.Fits.{FiltersKeepSorts};

use sk_lattice::NumDom;

/// Over every domain, where each argument is covered, the abstract result covers each result of the filter.
pub fn filters_are_sound<D: NumDom>()
    ensures { FiltersAreSound D.domain }
{}

/// Over every domain greater arguments give a greater or equal result.
pub fn filters_are_monotone<D: NumDom>()
    ensures { FiltersAreMonotone D.domain }
{}

/// Over every domain, on arguments of the sorts that a filter takes, the abstract result has the sorts that it gives;
/// its stores have one cell per name.
pub fn filters_keep_sorts<D: NumDom>()
    ensures { FiltersKeepSorts D.domain }
{}
