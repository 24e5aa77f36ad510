// What is written into a trace is read again: each function carries a theorem, and does nothing else.
ghost use Rattle.trace_bytes.specs.Refused.{RefusedAtPlace};
ghost use Rattle.trace_bytes.specs.Written.{PolicyReads, PolicyRoundTrip, RequestRoundTrip, RequestStands};

/// A request that is written is the next one, whatever follows it.
pub fn request_round_trip_stands()
    ensures { RequestRoundTrip }
{}

/// What is read from bytes is the request that is written there.
pub fn request_stands()
    ensures { RequestStands }
{}

/// The numbers of a policy that is written are those that are read, and behind its bytes the requests begin. So it is
/// too where the numbers of all users stand as they are in front of the capacities.
pub fn policy_round_trip_stands()
    ensures round_trip { PolicyRoundTrip }
    ensures reads { PolicyReads }
{}

/// A request that ends the trace or is at fault is one whose numbers are refused, at that place.
pub fn refused_at_place_stands()
    ensures { RefusedAtPlace }
{}
