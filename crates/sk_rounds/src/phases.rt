//! The laws of marked rounds and of the second phase.
ghost use Rattle.sk_rounds.specs.Walks.{Walks, WalksLaws};
ghost use Rattle.sk_rounds.specs.Marks.{Callers, CallerLaws};
ghost use Rattle.sk_rounds.specs.SecondPhase.{Meet, MeetLaws};
ghost use Rattle.sk_rounds.specs.SecondLaws.{MarkedLaws, SecondLaws, SecondMarkedLaws};

/// Rounds that walk the marked keys alone are the rounds, and their walks are counted by the changes.
pub fn marked_laws<K, E>()
    ensures { (w : Walks K E) → WalksLaws w → (callers : Callers K) → CallerLaws w callers → MarkedLaws w callers }
{}

/// Where the climbed table is lowered and its outputs are climbed again, that climb ends within its bound, and the
/// table of both is accepted and lies below the climbed one.
pub fn second_laws<K, E>()
    ensures { (w : Walks K E) → WalksLaws w → (meet : Meet E) → MeetLaws w meet → SecondLaws w meet }
{}

/// The second phase goes on with the marks, and its walks are counted by its changes.
pub fn second_marked_laws<K, E>()
    ensures { (w : Walks K E) → WalksLaws w → (callers : Callers K) → CallerLaws w callers → SecondMarkedLaws w callers }
{}
