// Stores that leak, or change something where they refuse: each function carries a theorem, and does nothing else.
ghost use Rattle.counterexamples.specs.LeakingStores.{AllExaminedLeaks, AllowedIfEmptyLeaks, HalfACopyIsPut};
ghost use Rattle.counterexamples.specs.LeakingStores.{LookingFirstLeaks, OneCacheLeaks, OneCapacityLeaks};
ghost use Rattle.counterexamples.specs.LeakingStores.{OneOfEachKeyLeaks, RowNumbersLeak, SomeIdleCountLeaks};

/// Row numbers that count all users' rows.
pub fn row_numbers_stands()
    ensures { RowNumbersLeak }
{}

/// One cache for all who see the same.
pub fn one_cache_stands()
    ensures { OneCacheLeaks }
{}

/// One capacity for all compartments together.
pub fn one_capacity_stands()
    ensures { OneCapacityLeaks }
{}

/// 'Not allowed' only if there is something to copy.
pub fn allowed_if_empty_stands()
    ensures { AllowedIfEmptyLeaks }
{}

/// 'Not seen' only after looking.
pub fn looking_first_stands()
    ensures { LookingFirstLeaks }
{}

/// Rows of unseen compartments examined, and left out at the end.
pub fn all_examined_stands()
    ensures { AllExaminedLeaks }
{}

/// A key refused because another compartment has it.
pub fn one_of_each_key_stands()
    ensures { OneOfEachKeyLeaks }
{}

/// A write that changes no row counted as a change for some, and not for others.
pub fn some_idle_count_stands()
    ensures { SomeIdleCountLeaks }
{}

/// A copy that stops half way: a refusal that changes something.
pub fn half_a_copy_stands()
    ensures { HalfACopyIsPut }
{}
