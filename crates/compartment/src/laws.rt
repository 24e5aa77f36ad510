// What the calls mean on a part that holds a version and rows: each function carries theorems, and does nothing else.
ghost use Rattle.compartment.specs.Holding.{EmptyHolds, CheckCounts, RowsAreFlat, RefusedChangeLeaves, WriteTells, WriteHolds, DeleteTells, DeleteHolds, CopyTells, CopyHolds, RefusedCopyLeaves, RefillTells, RefillLeaves, RefillHolds, RefilledHolds, RaiseTells, RaiseHolds};

/// Zeros hold no rows, and a part that holds rows is in bounds and has them in front.
pub fn holds_stands()
    ensures empty { EmptyHolds }
    ensures counts { CheckCounts }
    ensures rows { RowsAreFlat }
{}

/// Refusals leave the part.
pub fn refusal_stands()
    ensures change { RefusedChangeLeaves }
    ensures copy { RefusedCopyLeaves }
{}

/// A write is a put.
pub fn write_stands()
    ensures tells { WriteTells }
    ensures holds { WriteHolds }
{}

/// A delete takes one row away.
pub fn delete_stands()
    ensures tells { DeleteTells }
    ensures holds { DeleteHolds }
{}

/// A copy is put after put.
pub fn copy_stands()
    ensures tells { CopyTells }
    ensures holds { CopyHolds }
{}

/// A refill sets the number of rows, and a part with other rows in front holds these.
pub fn refill_stands()
    ensures tells { RefillTells }
    ensures leaves { RefillLeaves }
    ensures holds { RefillHolds }
    ensures refilled { RefilledHolds }
{}

/// A raise changes no row.
pub fn raise_stands()
    ensures tells { RaiseTells }
    ensures holds { RaiseHolds }
{}
