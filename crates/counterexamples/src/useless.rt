// Stores that are useless, of each of which a statement fails: each function carries a theorem, and does nothing else.
ghost use Rattle.counterexamples.specs.UselessChanges.{AnyFlowUseless, CopiesNothingUseless, CopiesWhatFitsUseless};
ghost use Rattle.counterexamples.specs.UselessChanges.{DeletesTwoUseless, EmptiesCachesUseless, OneCountUseless};
ghost use Rattle.counterexamples.specs.UselessChanges.{PutsLastUseless, RaisesAllUseless, RaisesFirstUseless};
ghost use Rattle.counterexamples.specs.UselessChanges.{RefusesAllUseless, RefusesCopiesUseless, RefusesWhenFullUseless};
ghost use Rattle.counterexamples.specs.UselessChanges.{RefusesWritesUseless, SaysDeletedUseless, SaysDoneUseless};
ghost use Rattle.counterexamples.specs.UselessChanges.{ServesAbsentUseless};
ghost use Rattle.counterexamples.specs.UselessQueries.{AnswersNothingUseless, AnyLengthUseless, KeepsEveryUseless};
ghost use Rattle.counterexamples.specs.UselessQueries.{LongRowFirstUseless, NineKeptUseless, NoCacheUseless};
ghost use Rattle.counterexamples.specs.UselessQueries.{NoneExaminedUseless, SevenKeptUseless, StaleAnswersUseless};

/// Everything is refused.
pub fn refuses_all_stands()
    ensures { RefusesAllUseless }
{}

/// Who isn't there is taken for user 0.
pub fn serves_absent_stands()
    ensures { ServesAbsentUseless }
{}

/// Every write is refused.
pub fn refuses_writes_stands()
    ensures { RefusesWritesUseless }
{}

/// A write is refused in a full compartment, though its key is there.
pub fn refuses_when_full_stands()
    ensures { RefusesWhenFullUseless }
{}

/// A write raises the version before it finds no room.
pub fn raises_first_stands()
    ensures { RaisesFirstUseless }
{}

/// Every write is said to be done, and changes nothing.
pub fn says_done_stands()
    ensures { SaysDoneUseless }
{}

/// A row is put behind the last one.
pub fn puts_last_stands()
    ensures { PutsLastUseless }
{}

/// A write empties the caches of all.
pub fn empties_caches_stands()
    ensures { EmptiesCachesUseless }
{}

/// A change raises the versions of all compartments.
pub fn raises_all_stands()
    ensures { RaisesAllUseless }
{}

/// Versions count the changes of all compartments.
pub fn one_count_stands()
    ensures { OneCountUseless }
{}

/// A delete is said to be done where there is no row.
pub fn says_deleted_stands()
    ensures { SaysDeletedUseless }
{}

/// The row behind the key goes too.
pub fn deletes_two_stands()
    ensures { DeletesTwoUseless }
{}

/// Every copy is refused.
pub fn refuses_copies_stands()
    ensures { RefusesCopiesUseless }
{}

/// A copy is allowed whether its rows may flow or not.
pub fn any_flow_stands()
    ensures { AnyFlowUseless }
{}

/// A copy is said to be done, and its rows don't come.
pub fn copies_nothing_stands()
    ensures { CopiesNothingUseless }
{}

/// A copy is said to be done, and the rows that fit come.
pub fn copies_what_fits_stands()
    ensures { CopiesWhatFitsUseless }
{}

/// Queries are answered as if there were no rows.
pub fn answers_nothing_stands()
    ensures { AnswersNothingUseless }
{}

/// It is always said that no row was examined.
pub fn none_examined_stands()
    ensures { NoneExaminedUseless }
{}

/// A query is answered though the row is too short.
pub fn any_length_stands()
    ensures { AnyLengthUseless }
{}

/// A long row is asked for also where a compartment isn't seen.
pub fn long_row_first_stands()
    ensures { LongRowFirstUseless }
{}

/// Nothing is kept.
pub fn no_cache_stands()
    ensures { NoCacheUseless }
{}

/// What was kept is told again after what the user sees was changed.
pub fn stale_answers_stands()
    ensures { StaleAnswersUseless }
{}

/// Seven answers are kept, where eight are promised.
pub fn seven_kept_stands()
    ensures { SevenKeptUseless }
{}

/// Nine are.
pub fn nine_kept_stands()
    ensures { NineKeptUseless }
{}

/// All are.
pub fn keeps_every_stands()
    ensures { KeepsEveryUseless }
{}
