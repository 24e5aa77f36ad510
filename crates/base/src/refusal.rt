// Why something is refused: every case has a number and a place.

/// A refusal of a policy, of a request, or of what a request asks.
#[derive(Clone, Copy, PartialEq, Eq, Debug)]
pub enum Refusal {
    /// Numbers that are lent are too few, or the one at this place is out of bounds.
    OutOfBounds { place: usize },
    /// A user sees a compartment twice or one that is not there, or does not see the one in which they write.
    BadView { user: usize },
    /// The numbers are no request.
    NoRequest { place: usize },
    /// Unknown user.
    NoUser { user: usize },
    /// The user does not see the compartment, or its rows may not flow to where the user writes.
    NoFlow { compartment: u64 },
    /// The compartment would hold more rows than its capacity.
    NoRoom { capacity: usize },
    /// No row has the key.
    NoRow { key: u32 },
    /// The lent answer row is too short.
    ShortRow { length: usize },
    /// The compartment's version is as high as it may be.
    LastVersion { compartment: u64 },
}

mod told;
