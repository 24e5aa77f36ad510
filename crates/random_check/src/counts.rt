// How often each kind of thing happened.
use crate::event::{ALL, EVENTS, Event};
use crate::shape::{CAPACITY, USERS};
use crate::side::Response;
use crate::trace::{Trace, Turn};
use std::fmt;
use store::{Reply, Request};

#[derive(Drop)]
pub(crate) struct Counts {
    // A count for each event, in the order of `ALL`, which is the enum's; an array, since a map allocates.
    counts: [u64; EVENTS],
}

impl Counts {
    pub(crate) fn new() -> Counts {
        Counts {
            counts: [0; EVENTS],
        }
    }

    pub(crate) fn add(&mut self, event: Event) {
        if let Some(count) = self.counts.get_mut(event as usize) {
            *count = count.saturating_add(1);
        }
    }

    pub(crate) fn add_if(&mut self, happened: bool, event: Event) {
        if happened {
            self.add(event);
        }
    }

    pub(crate) fn add_trace(&mut self, trace: &Trace) {
        self.add(Event::Trace);
        self.add_if(trace.users() == 1, Event::OneUser);
        self.add_if(trace.users() == USERS as usize, Event::MostUsers);
        self.add_capacities(trace.rules.capacities.as_slice());
    }

    fn add_capacities(&mut self, capacities: &[u64]) {
        for capacity in capacities {
            self.add_if(*capacity == 1, Event::LeastCapacity);
            self.add_if(*capacity == u64::from(CAPACITY), Event::MostCapacity);
        }
    }

    // A request, and what came of it.
    pub(crate) fn add_told(&mut self, turn: Turn, response: Response, row: &[u64]) {
        self.add(Event::Request);
        self.add(turn.event(response, row));
        let request = turn.call.request;
        if let (Request::Write { row, .. }, Ok(Reply::Done)) = (request, response) {
            self.add_if(row.key == 0, Event::LowestKey);
            self.add_if(row.key == u32::MAX, Event::HighestKey);
        }
        let range = match request {
            Request::Copy { range, .. } => range,
            Request::Query { query, .. } => query.range(),
            Request::Write { .. } | Request::Delete { .. } => return,
        };
        self.add_if(range.from > range.to, Event::Backward);
    }
}

impl fmt::Display for Counts {
    fn fmt<W: fmt::Write>(&self, f: &mut fmt::Formatter<W>) -> fmt::Result {
        for (event, count) in ALL.iter().zip(&self.counts) {
            writeln!(f, "{event} {count}")?;
        }
        Ok(())
    }
}
