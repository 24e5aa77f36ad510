// What comes next in a trace.
use request::Request;

/// What comes next in a trace, and how many bytes it takes.
#[derive(Clone, Copy, PartialEq, Eq, Debug)]
pub enum Next {
    /// A request.
    Request {
        request: Request,
        length: usize,
    },
    /// A request that is whole, but a number in it is out of its bounds: the trace goes on after it.
    Fault {
        user: u8,
        place: usize,
        length: usize,
    },
    /// A request of an unknown kind, or one that is truncated: the trace ends.
    End {
        place: usize,
    },
}
