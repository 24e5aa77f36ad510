// What the calls mean on rows sorted by key: each function carries theorems, and does nothing else.
ghost use Rattle.rows.specs.Laws.{RowsAreMaps, SearchCounts, SearchFinds, ProbesSuffice, PutIsPut, PutKeys, PutSorted, DeleteIsWithout, DeleteKeys, DeleteSorted, RangeIsRowsIn, RangeKeys, RangeSorted, SharedIsAlsoIn, SharedKeys, SharedSorted, TotalIsSum, TotalIsExact};

/// Sorted rows are what their keys map to.
pub fn rows_stands()
    ensures { RowsAreMaps }
{}

/// Where a binary search ends, what it finds, and that 13 probes are enough for 4,096 rows.
pub fn position_stands()
    ensures counts { SearchCounts }
    ensures finds { SearchFinds }
    ensures probes { ProbesSuffice }
{}

/// A put on sorted rows, what every key maps to after it, and that they are sorted still.
pub fn put_stands()
    ensures same { PutIsPut }
    ensures maps { PutKeys }
    ensures rises { PutSorted }
{}

/// A delete from sorted rows, what every key maps to after it, and that they are sorted still.
pub fn delete_stands()
    ensures same { DeleteIsWithout }
    ensures maps { DeleteKeys }
    ensures rises { DeleteSorted }
{}

/// The rows of a key range, what every key maps to among them, and that they are sorted.
pub fn range_stands()
    ensures same { RangeIsRowsIn }
    ensures maps { RangeKeys }
    ensures rises { RangeSorted }
{}

/// The rows that two share, what every key maps to among them, and that they are sorted.
pub fn shared_stands()
    ensures same { SharedIsAlsoIn }
    ensures maps { SharedKeys }
    ensures rises { SharedSorted }
{}

/// The number of rows and the sum of their amounts.
pub fn total_stands()
    ensures same { TotalIsSum }
    ensures exact { TotalIsExact }
{}
