// A store on memory of its own, with the answer rows that are lent to it.
use crate::mix::LONGEST;
use crate::shape::{CAPACITY, COMPARTMENTS, USERS};
use crate::trace::Turn;
use anyhow::anyhow;
use std::alloc::{AllocError, Global};
use store::{Policy, Refusal, Reply};

// The memory of the largest policy: two numbers for each compartment and each of its rows, and 192 for each user's
// cache. Said here once more, as the bounds in shape.rt are.
const MEMORY: usize = (COMPARTMENTS * (2 + 2 * CAPACITY) + 192 * USERS) as usize;

// What a call tells.
pub(crate) type Response = Result<Reply, Refusal>;

#[derive(Drop)]
pub(crate) struct Side {
    memory: Vec<u64>,
    // The viewer's answer row, and one for everybody else.
    own: Vec<u64>,
    others: Vec<u64>,
}

impl Side {
    pub(crate) fn new(heap: Global) -> Result<Side, AllocError> {
        Ok(Side {
            memory: vec![in heap; 0; MEMORY]?,
            own: vec![in heap; 0; LONGEST]?,
            others: vec![in heap; 0; LONGEST]?,
        })
    }

    // Opens the store anew, over what an earlier trace left in memory.
    pub(crate) fn open(&mut self, policy: &Policy) -> anyhow::Result<()> {
        self.own.fill(7);
        store::open(policy, self.memory.as_mut_slice()).map_err(|_| anyhow!(
            "the store was not opened"
        ))
    }

    // Two methods, so that a call says by name whose answer row is lent; all they share is `serve`.
    // A call of the viewer.
    pub(crate) fn serve_own(&mut self, turn: Turn) -> Response {
        turn.serve(&mut self.memory, &mut self.own)
    }

    // A call of somebody else.
    pub(crate) fn serve_other(&mut self, turn: Turn) -> Response {
        turn.serve(&mut self.memory, &mut self.others)
    }

    // What the viewer's answer row holds.
    pub(crate) fn row(&self) -> &[u64] {
        self.own.as_slice()
    }
}

impl Turn<'_> {
    // The call on this memory, lent as much of the row as it asks for.
    fn serve(self, memory: &mut [u64], row: &mut [u64]) -> Response {
        let length = self.call.length.min(row.len());
        store::serve(self.policy, memory, &mut row[..length], self.call.request)
    }
}
