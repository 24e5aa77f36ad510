// What the calls mean on rows that are sorted by key: each function carries theorems, and does nothing else.
ghost use Rattle.merge.specs.Laws.{NewKeysCounts, CountsAfter, PlanIsRange, MergeIsPutAll, CopyIsPutAll};

/// A count of new keys says how many rows there will be.
pub fn new_keys_stands()
    ensures all { NewKeysCounts }
    ensures range { CountsAfter }
{}

/// A plan has the numbers of a range.
pub fn plan_stands()
    ensures { PlanIsRange }
{}

/// A merge is put after put by key.
pub fn merge_stands()
    ensures { MergeIsPutAll }
{}

/// A copy is put after put by key.
pub fn copy_stands()
    ensures { CopyIsPutAll }
{}
