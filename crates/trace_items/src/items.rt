// What follows the policy in a trace: what users bring, one after the other, until the trace ends.
ghost use Rattle.std.specs.Iterator.{YieldsFirst, item_count};
ghost use Rattle.std.specs.Prelude.{◌≡◌, ◌≤◌, length};
ghost use Rattle.trace_items.specs.Items.{first_by, item_user, left, outcomes_in};
ghost use Rattle.trace_bytes.specs.NextRequest.{next_in};

use base::Refusal;
use request::Request;
use trace_bytes::Next;

/// What a user brings: a request, or numbers that are none.
// A `Next` has more: how many bytes are taken, and the end of the trace.
#[derive(Clone, Copy, PartialEq, Eq, Debug)]
pub enum Item {
    /// A request, all of whose numbers are within their bounds.
    Request { request: Request },
    /// The number at this place is the first that is out of its bounds.
    NoRequest { user: usize, place: usize },
}

impl Item {
    /// The user who brings it.
    pub fn user(self) -> usize
        ensures { result ≡ item_user self }
    {
        match self {
            Item::Request { request } => request.user(),
            Item::NoRequest { user, .. } => user,
        }
    }
}

/// The items in bytes, one after the other; where the trace is broken off, the refusal comes last.
#[derive(Clone, Copy)]
pub struct Items<'a> {
    bytes: &'a [u8],
}

impl<'a> Items<'a> {
    /// Those in the bytes that follow the policy of a trace.
    pub fn of(requests: &'a [u8]) -> Items<'a>
        ensures { left result ≡ outcomes_in requests.now }
    {
        Items { bytes: requests }
    }
}

impl Iterator for Items<'_> {
    type Item = Result<Item, Refusal>;

    ghost next_gives = { YieldsFirst left };

    ghost remaining = { item_count left };

    fn next(&mut self) -> Option<Result<Item, Refusal>> {
        if self.bytes.is_empty() {
            return None;
        }
        let (item, length) = first_in(self.bytes);
        self.bytes = &self.bytes[length..];
        Some(item)
    }
}

// What comes next in the bytes, and how many of them it takes; where the trace is broken off, all.
fn first_in(bytes: &[u8]) -> (Result<Item, Refusal>, usize)
    ensures value { result ≡ first_by (next_in bytes.now) (length bytes.now) }
    ensures within { result.1 ≤ length bytes.now }
{
    match trace_bytes::next(bytes) {
        Next::Request { request, length } => (Ok(Item::Request { request }), length),
        Next::Fault {
            user,
            place,
            length,
        } => {
            let user = usize::from(user);
            (Ok(Item::NoRequest { user, place }), length)
        }
        Next::End { place } => (Err(Refusal::NoRequest { place }), bytes.len()),
    }
}
