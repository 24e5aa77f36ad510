//! The theorems about the store's calls: each function carries one, and does nothing else.
ghost use Rattle.promises.specs.Effects.{AbsentUsers, Again, ChangesLeaveRow, CopyEffect, CopyTold, DeleteEffect, DeleteTold};
ghost use Rattle.promises.specs.Effects.{EitherOrder, NotSeen, OnePlace, OnlyWriters, Order, RestStays, ShortRows};
ghost use Rattle.promises.specs.Effects.{WriteEffect, WriteTold};
ghost use Rattle.promises.specs.Example.{WorkedExample};
ghost use Rattle.promises.specs.Promises.{FollowsTheModel, Noninterference, RightAnswers, TwoTraces};
ghost use Rattle.store.specs.Simulation.{RefusalLeaves};

/// What a user observes does not depend on calls that are not relevant to them.
pub fn noninterference_stands()
    ensures { Noninterference }
{}

/// Two traces with the same relevant calls are the same for a user.
pub fn two_traces_stands()
    ensures { TwoTraces }
{}

/// Memory holds the model's state.
pub fn follows_the_model_stands()
    ensures { FollowsTheModel }
{}

/// Queries are answered rightly, and examine the rows that they have to.
pub fn right_answers_stands()
    ensures { RightAnswers }
{}

/// Rows are sorted, and bounds are kept.
pub fn order_stands()
    ensures { Order }
{}

/// When a write is done, and why not.
pub fn write_told_stands()
    ensures { WriteTold }
{}

/// When a delete is done, and why not.
pub fn delete_told_stands()
    ensures { DeleteTold }
{}

/// When a copy is done, and why not.
pub fn copy_told_stands()
    ensures { CopyTold }
{}

/// What a write changes.
pub fn write_effect_stands()
    ensures { WriteEffect }
{}

/// What a delete changes.
pub fn delete_effect_stands()
    ensures { DeleteEffect }
{}

/// What a copy changes.
pub fn copy_effect_stands()
    ensures { CopyEffect }
{}

/// A refusal changes nothing.
pub fn refusals_change_nothing_stands()
    ensures { RefusalLeaves }
{}

/// A write, delete or copy leaves the answer row as it was.
pub fn changes_leave_row_stands()
    ensures { ChangesLeaveRow }
{}

/// Nobody but its writer changes a compartment.
pub fn only_writers_stands()
    ensures { OnlyWriters }
{}

/// A request changes one place of memory.
pub fn one_place_stands()
    ensures { OnePlace }
{}

/// What follows the policy's part of memory is never changed.
pub fn rest_stays_stands()
    ensures { RestStays }
{}

/// Changes of different compartments may be made in either order.
pub fn either_order_stands()
    ensures { EitherOrder }
{}

/// A query that is asked again is answered the same.
pub fn again_stands()
    ensures { Again }
{}

/// An unknown user is refused.
pub fn absent_users_stands()
    ensures { AbsentUsers }
{}

/// What a user does not see they are not told.
pub fn not_seen_stands()
    ensures { NotSeen }
{}

/// A query with an answer row that is too short is refused.
pub fn short_rows_stands()
    ensures { ShortRows }
{}

/// Every response of a small trace, worked out by hand.
pub fn example_stands()
    ensures { WorkedExample }
{}
