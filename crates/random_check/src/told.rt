// What comes of a request, by the name under which it is counted.
use crate::event::Event;
use crate::mix::HEADER;
use crate::shape::CAPACITY;
use crate::side::Response;
use crate::trace::Turn;
use store::{AnswerSummary, Outcome, Refusal, Reply, Request};

impl Turn<'_> {
    // What came of the call; of an answer of rows the lent row says whether there are any.
    pub(crate) fn event(self, response: Response, row: &[u64]) -> Event {
        match response {
            Ok(Reply::Done) => self.done(),
            Err(refusal) => self.refused(refusal),
            Ok(Reply::Answered { outcome }) => answered(outcome, row),
        }
    }

    fn done(self) -> Event {
        match self.call.request {
            Request::Write { .. } => Event::Written,
            Request::Delete { .. } => Event::Deleted,
            Request::Copy {
                user,
                compartment,
                ..
            } => self.copied(user, compartment),
            Request::Query { .. } => Event::Unforeseen,
        }
    }

    fn copied(self, user: usize, compartment: u64) -> Event {
        if self.rules.written(user) == Some(compartment) {
            Event::CopiedToItself
        } else {
            Event::Copied
        }
    }

    fn refused(self, refusal: Refusal) -> Event {
        match refusal {
            Refusal::NoUser { .. } => Event::Absent,
            Refusal::NoFlow { compartment } => self.refused_copy(compartment),
            Refusal::NoRoom { capacity } if capacity == CAPACITY as usize => Event::NoRoomOfMost,
            Refusal::NoRoom { .. } if matches!(self.call.request, Request::Copy { .. }) => {
                Event::NoRoomToCopy
            }
            Refusal::NoRoom { .. } => Event::NoRoomToWrite,
            Refusal::NoRow { .. } => Event::NoRow,
            Refusal::ShortRow { .. } => Event::ShortRow,
            _ => Event::Unforeseen,
        }
    }

    fn refused_copy(self, compartment: u64) -> Event {
        let user = self.call.request.user();
        if !self.rules.has_user(user) {
            Event::Absent
        } else if !self.rules.sees(user, compartment) {
            Event::UnseenCopy
        } else {
            Event::NoFlow
        }
    }
}

fn answered(outcome: Outcome, row: &[u64]) -> Event {
    let examined = outcome.examined > 0;
    match outcome.answered {
        AnswerSummary::Total { .. } if examined => Event::TotalWorkedOut,
        AnswerSummary::Total { rows: 0, .. } => Event::TotalEmpty,
        AnswerSummary::Total { .. } => Event::TotalFromCache,
        AnswerSummary::Rows { .. } if examined => Event::RowsWorkedOut,
        AnswerSummary::Rows { .. } if no_rows(row) => Event::RowsEmpty,
        AnswerSummary::Rows { .. } => Event::RowsFromCache,
        AnswerSummary::Shared { .. } if examined => Event::SharedWorkedOut,
        AnswerSummary::Shared { rows: 0 } => Event::SharedEmpty,
        AnswerSummary::Shared { .. } => Event::SharedFromCache,
        AnswerSummary::NotSeen => Event::NotSeen,
    }
}

// The header of the answer row counts no rows.
fn no_rows(row: &[u64]) -> bool {
    row.iter().take(HEADER as usize).all(|count| *count == 0)
}
