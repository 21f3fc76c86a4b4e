//! What holds of abstract tuples over every domain.

ghost use Rattle.std.specs.Prelude.{ℤ, List, true, ◌≡◌};
ghost use Rattle.sk_lattice.specs.Laws.{TupleLaws};
ghost use Rattle.sk_lattice.specs.Thresholds.{IsThresholds};
ghost use Rattle.sk_lattice.specs.Ranks.{RankLaws};
ghost use Rattle.sk_lattice.specs.Shapes.{ShapeLaws};

use crate::domain::NumDom;

/// Over every domain the order of tuples is one, with least upper and greatest lower bounds, and what is covered
/// goes with it.
pub fn tuple_laws<D: NumDom>()
    ensures { TupleLaws D.domain }
{}

/// Over every domain the join, widening and meet of tuples of the same sorts have these sorts.
pub fn tuple_shape_laws<D: NumDom>()
    ensures { ShapeLaws D.domain }
{}

/// Over every domain a widening leaves a tuple as it is or lowers its rank, and is the join where the domain is finite.
pub fn tuple_rank_laws<D: NumDom>()
    ensures { (marks : List ℤ) → IsThresholds marks → RankLaws D.domain D.FINITE marks }
{}
