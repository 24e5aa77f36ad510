// Memory and the answer row along a trace are long enough: the laws, each on a contract.
ghost use Rattle.trace_player.specs.Enough.{MemoryEnough, RowEnough, NeverShort};

/// No policy of a trace asks for more memory than 8,224 numbers.
pub fn memory_enough_stands()
    ensures { MemoryEnough }
{}

/// No query of a user who is there needs a longer answer row than is lent.
pub fn row_enough_stands()
    ensures { RowEnough }
{}

/// No item of a trace is refused for a short answer row.
pub fn never_short_stands()
    ensures { NeverShort }
{}
