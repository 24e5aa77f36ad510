// The laws of the format of requests: each function carries a theorem, and does nothing else.
ghost use Rattle.request.specs.Format.{LowestFault, ReadWithoutFault, ReadsWhatStands, RoundTrip};

/// A request that is written is read again, whatever follows it.
pub fn round_trip_stands()
    ensures { RoundTrip }
{}

/// What is read is what stands there, within its bounds.
pub fn reads_what_stands()
    ensures { ReadsWhatStands }
{}

/// What is refused is refused at the lowest place at fault.
pub fn lowest_fault_stands()
    ensures { LowestFault }
{}

/// What is read has no place at fault: so numbers are read just where none is.
pub fn read_without_fault_stands()
    ensures { ReadWithoutFault }
{}
