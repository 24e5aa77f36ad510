// The theorems about the model of the store: each function carries a theorem, and does nothing else.
ghost use Rattle.model.specs.Effects.{AbsentUsers, CopyEffect, CopyTold, DeleteEffect, DeleteTold, EitherOrder};
ghost use Rattle.model.specs.Effects.{OnlyWriters, RefusalsChangeNothing, WriteEffect, WriteTold};
ghost use Rattle.model.specs.Example.{SoundnessNeeded, Worked};
ghost use Rattle.model.specs.Order.{Caches, Order};
ghost use Rattle.model.specs.Promises.{Again, Noninterference, NotSeen, RightAnswers, ShortRows, TwoTraces};
ghost use Rattle.model.specs.Sameness.{RulesAlike};

/// What a user is told does not depend on calls that are not relevant to them.
pub fn noninterference_stands()
    ensures { Noninterference }
{}

/// Traces that are equal when purged tell the user the same.
pub fn two_traces_stands()
    ensures { TwoTraces }
{}

/// Both need that everybody sees where they write.
pub fn soundness_needed_stands()
    ensures { SoundnessNeeded }
{}

/// Queries are answered rightly, and examine the rows that they have to.
pub fn right_answers_stands()
    ensures { RightAnswers }
{}

/// What isn't seen is answered 'not seen', with a row of any length.
pub fn not_seen_stands()
    ensures { NotSeen }
{}

/// A short answer row is refused.
pub fn short_rows_stands()
    ensures { ShortRows }
{}

/// A query that is asked again at once examines no row.
pub fn again_stands()
    ensures { Again }
{}

/// When a write is done, and how else it is refused.
pub fn write_told_stands()
    ensures { WriteTold }
{}

/// When a delete is done, and how else it is refused.
pub fn delete_told_stands()
    ensures { DeleteTold }
{}

/// When a copy is done, and how else it is refused.
pub fn copy_told_stands()
    ensures { CopyTold }
{}

/// What a write changes, and that it changes nothing else.
pub fn write_effect_stands()
    ensures { WriteEffect }
{}

/// What a delete changes, and that it changes nothing else.
pub fn delete_effect_stands()
    ensures { DeleteEffect }
{}

/// What a copy changes, and that it changes nothing else.
pub fn copy_effect_stands()
    ensures { CopyEffect }
{}

/// A refusal changes nothing.
pub fn refusals_stands()
    ensures { RefusalsChangeNothing }
{}

/// An unknown user is refused.
pub fn absent_users_stands()
    ensures { AbsentUsers }
{}

/// Compartments are changed by their writers alone, and caches by their users.
pub fn only_writers_stands()
    ensures { OnlyWriters }
{}

/// Rows are sorted and have room, and versions are below their limit.
pub fn order_stands()
    ensures { Order }
{}

/// Caches have at most eight entries, each of its query's kind.
pub fn caches_stands()
    ensures { Caches }
{}

/// Two users who write in different compartments may come in either order.
pub fn either_order_stands()
    ensures { EitherOrder }
{}

/// Every response of a small trace, worked out by hand.
pub fn example_stands()
    ensures { Worked }
{}

/// Rules that say the same tell the same.
pub fn rules_alike_stands()
    ensures { RulesAlike }
{}
