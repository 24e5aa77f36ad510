// Random requests: what one trace asks, and how often.
use crate::random::Random;
use crate::shape::{CAPACITY, COMPARTMENTS, Shape};
use std::alloc::{AllocError, Global};
use store::{KeyRange, Query, Request, Row};

// The numbers of an answer row before its rows, said here once more as the bounds in shape.rt are.
pub(crate) const HEADER: u32 = 32;

// The longest answer row that a policy asks for: a header, and two numbers for each row.
pub(crate) const LONGEST: usize = (HEADER + 2 * COMPARTMENTS * CAPACITY) as usize;

// How many requests of a trace are mostly changes, so that there is something to ask for.
const EARLY: usize = 15;

// A request, and the length of the answer row that is lent with it.
#[derive(Clone, Copy)]
pub(crate) struct Call {
    pub(crate) request: Request,
    pub(crate) length: usize,
}

// What all requests of a trace are drawn from.
#[derive(Clone, Copy)]
pub(crate) struct Mix {
    shape: Shape,
    // Keys are below this one, or the highest there is.
    keys: u32,
    // How many of a hundred requests are queries, but for the first few; how many of a hundred changes are writes;
    // and how many requests are made again.
    queries: u32,
    writes: u32,
    again: u32,
}

impl Mix {
    pub(crate) fn random(random: &mut Random, shape: Shape) -> Mix {
        if shape.large && random.happens(70) {
            Mix::filling(random, shape)
        } else {
            Mix::asking(random, shape)
        }
    }

    // Many writes of many keys, so that large compartments become full.
    fn filling(random: &mut Random, shape: Shape) -> Mix {
        Mix {
            shape,
            keys: random.between(60, 100),
            queries: random.below(15),
            writes: random.between(50, 99),
            again: random.below(5),
        }
    }

    // Few keys, and often what was asked before.
    fn asking(random: &mut Random, shape: Shape) -> Mix {
        let queries = match random.below(4) {
            0 => 20,
            1 => 50,
            2 => 80,
            _ => 97,
        };
        Mix {
            shape,
            keys: random.between(1, 13),
            queries,
            writes: 50,
            again: random.below(60),
        }
    }

    // 20 to 200 requests: the range counts them, and indexes nothing.
    pub(crate) fn calls(&self, random: &mut Random, heap: Global) -> Result<Vec<Call>, AllocError> {
        let mut calls = Vec::new(heap);
        for _ in 0..random.between(20, 200) {
            let call = self.call(random, calls.as_slice());
            calls.push(call)?;
        }
        Ok(calls)
    }

    // A new call, or one from before.
    fn call(&self, random: &mut Random, before: &[Call]) -> Call {
        let place = random.below(200) as usize;
        if random.happens(self.again) && place < before.len() {
            return before[place];
        }
        let user = self.user(random);
        let queries = if before.len() < EARLY {
            5
        } else {
            self.queries
        };
        let request = if random.happens(queries) {
            let query = self.query(random);
            Request::Query { user, query }
        } else {
            self.change(random, user)
        };
        let length = length(random);
        Call { request, length }
    }

    // A user of the policy, or the first number that is none.
    fn user(&self, random: &mut Random) -> usize {
        if random.happens(3) {
            self.shape.users as usize
        } else {
            random.below(self.shape.users) as usize
        }
    }

    fn change(&self, random: &mut Random, user: usize) -> Request {
        if random.happens(self.writes) {
            let row = self.row(random);
            return Request::Write { user, row };
        }
        if random.happens(40) {
            let key = self.key(random);
            return Request::Delete { user, key };
        }
        Request::Copy {
            user,
            compartment: self.compartment(random),
            range: self.range(random),
        }
    }

    fn query(&self, random: &mut Random) -> Query {
        match random.below(3) {
            0 => Query::Rows {
                range: self.range(random),
            },
            1 => Query::Total {
                range: self.range(random),
            },
            _ => Query::Shared {
                a: self.compartment(random),
                b: self.compartment(random),
                range: self.range(random),
            },
        }
    }

    // Mostly one of the policy; often one of those that everybody may see.
    fn compartment(&self, random: &mut Random) -> u64 {
        let bound = match random.below(20) {
            0 => COMPARTMENTS,
            1..=8 => self.shape.compartments.min(2),
            _ => self.shape.compartments,
        };
        u64::from(random.below(bound))
    }

    // Few amounts, so that the same row is written again.
    fn row(&self, random: &mut Random) -> Row {
        let key = self.key(random);
        let amount = match random.below(8) {
            0 => u32::MAX,
            _ => random.below(3),
        };
        Row { key, amount }
    }

    fn key(&self, random: &mut Random) -> u32 {
        if random.happens(8) {
            u32::MAX
        } else {
            random.below(self.keys)
        }
    }

    // All keys, some, or any two ends, which may run backward.
    fn range(&self, random: &mut Random) -> KeyRange {
        let a = self.key(random);
        let b = self.key(random);
        match random.below(10) {
            0 | 1 => KeyRange { from: a, to: b },
            2..=5 => KeyRange {
                from: 0,
                to: u32::MAX,
            },
            _ => KeyRange {
                from: a.min(b),
                to: a.max(b),
            },
        }
    }
}

// Mostly long enough.
fn length(random: &mut Random) -> usize {
    match random.below(10) {
        0 => random.below(HEADER + 2) as usize,
        1 => random.between(HEADER, 91) as usize,
        _ => LONGEST,
    }
}
