//! What the solutions of constraints are to the analyser's rounds.
ghost use Rattle.sk_agree.specs.Agree.{SolutionsAreAbove, AcceptedAreSolutions, LeastSolutionsAreLeast, LeastSolutionsExist, SolutionsAgree};

use sk_absfilter::{filters_are_monotone, filters_keep_sorts};
use sk_abswalk::{readings_are_walks, walks_are_proper, walks_fit};
use sk_lattice::NumDom;

/// Over every domain the sides of the keys in an assignment that satisfies a program's constraints are accepted by the
/// rounds; on finite domains the analyser's table lies below them.
pub fn solutions_are_above<D: NumDom>()
    ensures { SolutionsAreAbove D.domain D.FINITE }
{
    filters_are_monotone::<D>();
    readings_are_walks::<D>();
}

/// Over every domain each table that fits the program and is accepted by the rounds has the sides of an assignment that
/// satisfies the program's constraints.
pub fn accepted_are_solutions<D: NumDom>()
    ensures { AcceptedAreSolutions D.domain D.FINITE }
{
    filters_keep_sorts::<D>();
    walks_fit::<D>();
    walks_are_proper::<D>();
}

/// Over every domain the sides of the least solution of a program's constraints are the least accepted table that fits the
/// program.
pub fn least_solutions_are_least<D: NumDom>()
    ensures { LeastSolutionsAreLeast D.domain D.FINITE }
{
    filters_are_monotone::<D>();
    filters_keep_sorts::<D>();
    walks_fit::<D>();
    walks_are_proper::<D>();
    readings_are_walks::<D>();
}

/// On a finite domain a program's constraints have a least solution.
pub fn least_solutions_exist<D: NumDom>()
    ensures { LeastSolutionsExist D.domain D.FINITE }
{
    filters_are_monotone::<D>();
    filters_keep_sorts::<D>();
    walks_fit::<D>();
    walks_are_proper::<D>();
    readings_are_walks::<D>();
}

/// On a finite domain the table of the least solution of a program's constraints is the analyser's: two readings of one
/// definition give one answer.
pub fn solutions_agree<D: NumDom>()
    ensures { SolutionsAgree D.domain D.FINITE }
{
    filters_are_monotone::<D>();
    filters_keep_sorts::<D>();
    walks_fit::<D>();
    walks_are_proper::<D>();
    readings_are_walks::<D>();
}
