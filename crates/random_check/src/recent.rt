// The queries that a user was answered since what they see was changed.
use crate::side::Response;
use std::alloc::{AllocError, Global};
use store::{Query, Reply, Request};

#[derive(Drop)]
pub(crate) struct Recent {
    queries: Vec<Query>,
}

impl Recent {
    pub(crate) fn new(heap: Global) -> Recent {
        Recent {
            queries: Vec::new(heap),
        }
    }

    // What the user sees was changed, if this was done.
    pub(crate) fn changed(&mut self, response: Response) {
        if response == Ok(Reply::Done) {
            self.forget();
        }
    }

    pub(crate) fn forget(&mut self) {
        self.queries.clear();
    }

    // True if the user asks one of these again, and rows were examined anew: it fell out of the cache.
    pub(crate) fn fell_out(
        &mut self,
        request: Request,
        response: Response,
    ) -> Result<bool, AllocError> {
        let Request::Query { query, .. } = request else {
            return Ok(false);
        };
        let Ok(Reply::Answered { outcome }) = response else {
            return Ok(false);
        };
        if self.queries.contains(&query) {
            return Ok(outcome.examined > 0);
        }
        self.queries.push(query)?;
        Ok(false)
    }
}
