// What a user is told of a request that isn't refused.
use query::Outcome;

/// What a request that isn't refused is told. No `Option<Outcome>`: its `None` would not say that a change is done.
#[derive(Clone, Copy, PartialEq, Eq, Debug)]
pub enum Reply {
    Done,
    // Rows of the answer stand in the answer row.
    Answered { outcome: Outcome },
}
