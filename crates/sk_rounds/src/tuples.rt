//! Abstract tuples are what the rounds stand on.
ghost use Rattle.std.specs.Prelude.{ℤ, List};
ghost use Rattle.sk_lattice.specs.Thresholds.{IsThresholds};
ghost use Rattle.sk_rounds.specs.Walks.{OrderLaws, WidenLaws};
ghost use Rattle.sk_rounds.specs.SecondPhase.{MeetLaws};
ghost use Rattle.sk_lattice.specs.Merge.{tuple_meet};
ghost use Rattle.sk_rounds.specs.Tuples.{Reading, ReadingLaws, walks_over};

use sk_lattice::NumDom;

/// Over every domain tuples are ordered as the rounds need it.
pub fn tuple_order<D: NumDom, K>()
    ensures { (marks : List ℤ) (r : Reading K D) → ReadingLaws r → OrderLaws (walks_over D.domain D.FINITE marks r) }
{}

/// Over every domain tuples are widened as the rounds need it.
pub fn tuple_widening<D: NumDom, K>()
    ensures { (marks : List ℤ) (r : Reading K D) → IsThresholds marks → ReadingLaws r → WidenLaws (walks_over D.domain D.FINITE marks r) }
{}

/// Over every domain tuples meet as the second phase needs it.
pub fn tuple_meeting<D: NumDom, K>()
    ensures { (marks : List ℤ) (r : Reading K D) → MeetLaws (walks_over D.domain D.FINITE marks r) (tuple_meet D.domain) }
{}
