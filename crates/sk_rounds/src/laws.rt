//! The laws of the rounds.
ghost use Rattle.std.specs.Prelude.{◌≡◌, true, Some};
ghost use Rattle.sk_rounds.specs.Walks.{Walks, WalksLaws, Inputs, Outputs};
ghost use Rattle.sk_rounds.specs.Rounds.{table_after, round_bound, IsAnalysed};
ghost use Rattle.sk_rounds.specs.Laws.{RoundsLaws, LeastLaws, TableLaws, ReplayLaws};
ghost use Rattle.sk_rounds.specs.Marks.{CallerLaws};
ghost use Rattle.sk_rounds.specs.SecondPhase.{MeetLaws};
ghost use Rattle.sk_rounds.specs.Example.{counting, counting_callers, lesser};

/// The rounds end within the bound, in one table, and that table is accepted.
pub fn rounds_laws<K, E>()
    ensures { (w : Walks K E) → WalksLaws w → RoundsLaws w }
{}

/// On a finite domain the analyser's table is the least accepted one.
pub fn least_laws<K, E>()
    ensures { (w : Walks K E) → WalksLaws w → w.is_finite ≡ true → LeastLaws w }
{}

/// On a finite domain every order in which keys are recomputed, until none is unstable, gives the analyser's table.
pub fn replay_laws<K, E>()
    ensures { (w : Walks K E) → WalksLaws w → w.is_finite ≡ true → ReplayLaws w }
{}

/// Acceptance over the answers of a table is acceptance over what its walks tell, and a table is what its rows say.
pub fn table_laws<K, E>()
    ensures { (w : Walks K E) → WalksLaws w → TableLaws w }
{}

/// The laws of walks, of callers and of meets can be met, on a finite domain, and the rounds compute: one key that calls
/// itself with one more, over the numbers up to 3.
pub fn example_laws()
    ensures laws { WalksLaws counting }
    ensures callers { CallerLaws counting counting_callers }
    ensures meets { MeetLaws counting lesser }
    ensures third { table_after counting 3 0 Outputs ≡ Some 2 }
    ensures last { IsAnalysed counting (table_after counting 4) 5 }
    ensures last_inputs { table_after counting 4 0 Inputs ≡ Some 3 }
    ensures last_outputs { table_after counting 4 0 Outputs ≡ Some 3 }
    ensures bound { round_bound counting ≡ 12 }
{}
