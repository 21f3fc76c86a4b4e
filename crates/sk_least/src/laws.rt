//! What the domains and the filters give is the least that covers their results.
ghost use Rattle.sk_least.specs.Domains.{SignsAreLeast, IntervalsAreLeast, SpansAreLeast};
ghost use Rattle.sk_least.specs.Least.{LeastFiltersFollow, SignFiltersAreLeast, IntervalFiltersAreLeast};

use sk_absfilter::filters_are_sound;
use sk_interval::Interval;
use sk_lattice::NumDom;
use sk_sign::{Sign, order_is_inclusion, signs_are_best};

/// What each operation gives on sets of signs lies below every set that holds all results on numbers of its arguments.
pub fn signs_are_least()
    ensures { SignsAreLeast }
{
    signs_are_best();
    order_is_inclusion();
}

/// What each operation gives on intervals lies below every interval that holds all results on numbers of its arguments:
/// products and quotients where none leaves the range, remainders where zero is among the dividends, all else everywhere.
pub fn intervals_are_least()
    ensures { IntervalsAreLeast }
{}

/// Where results leave the range too, what arithmetic gives on intervals has no number outside two ends between which all
/// results lie; of remainders zero counts as a dividend.
pub fn spans_are_least()
    ensures { SpansAreLeast }
{}

/// Over every domain whose operations are least, the abstract result of every filter is the least outcome that covers its
/// results on all values that the arguments cover.
pub fn filters_are_least<D: NumDom>()
    ensures { LeastFiltersFollow D.domain }
{
    filters_are_sound::<D>();
}

/// Over signs the abstract result of every filter is the least outcome that covers its results.
pub fn sign_filters_are_least()
    ensures { SignFiltersAreLeast }
{
    signs_are_least();
    filters_are_least::<Sign>();
}

/// Over intervals the abstract result of every filter is the least outcome that covers its results, that of a product, a
/// quotient or a remainder where it is so on the intervals.
pub fn interval_filters_are_least()
    ensures { IntervalFiltersAreLeast }
{
    intervals_are_least();
    filters_are_least::<Interval>();
}
