//! The law that two readings of one definition give one answer.
ghost use Rattle.sk_bench.specs.Agreeing.{SolutionsAreAnalyses};

use sk_agree::solutions_agree;
use sk_lattice::NumDom;

/// On a finite domain the table of the least solution of a program's constraints is that of its analysis (`docs/map.md`).
pub fn solutions_are_analyses<D: NumDom>()
    ensures { SolutionsAreAnalyses D.domain D.FINITE }
{
    solutions_agree::<D>();
}
