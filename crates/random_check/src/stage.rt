// Two stores, on which a trace is played for each user: whole on the one, purged on the other.
use crate::counts::Counts;
use crate::event::Event;
use crate::recent::Recent;
use crate::side::Side;
use crate::trace::{Trace, Turn};
use std::alloc::{AllocError, Global};

#[derive(Drop)]
pub(crate) struct Stage {
    whole: Side,
    purged: Side,
    recent: Recent,
}

// The first request of which a user was told otherwise, both counted from 0. It is what a run looks for, and no
// error, which keeps a run from looking.
#[derive(Clone, Copy)]
pub(crate) struct Difference {
    pub(crate) user: usize,
    pub(crate) request: usize,
}

impl Stage {
    pub(crate) fn new(heap: Global) -> Result<Stage, AllocError> {
        Ok(Stage {
            whole: Side::new(heap)?,
            purged: Side::new(heap)?,
            recent: Recent::new(heap),
        })
    }

    // For every user of the policy and one unknown user: the range counts users, and indexes nothing.
    pub(crate) fn play(
        &mut self,
        trace: &Trace,
        counts: &mut Counts,
    ) -> anyhow::Result<Option<Difference>> {
        for user in 0..=trace.users() {
            if let Some(request) = self.play_for(trace, user, counts)? {
                return Ok(Some(Difference { user, request }));
            }
        }
        Ok(None)
    }

    fn play_for(
        &mut self,
        trace: &Trace,
        viewer: usize,
        counts: &mut Counts,
    ) -> anyhow::Result<Option<usize>> {
        self.whole.open(&trace.policy)?;
        self.purged.open(&trace.policy)?;
        self.recent.forget();
        for (i, call) in trace.calls.iter().enumerate() {
            let turn = trace.turn(*call);
            if call.request.user() != viewer {
                self.play_other(turn, viewer, counts);
            } else if !self.play_own(turn, counts)? {
                return Ok(Some(i));
            }
        }
        Ok(None)
    }

    // A request of somebody else is purged unless it is relevant.
    fn play_other(&mut self, turn: Turn, viewer: usize, counts: &mut Counts) {
        let response = self.whole.serve_other(turn);
        if turn.rules.is_relevant(viewer, turn.call.request) {
            let _ = self.purged.serve_other(turn);
            self.recent.changed(response);
        } else {
            counts.add(Event::Purged);
        }
    }

    // Whether the viewer is told the same on both.
    fn play_own(&mut self, turn: Turn, counts: &mut Counts) -> Result<bool, AllocError> {
        let told = self.whole.serve_own(turn);
        let purged = self.purged.serve_own(turn);
        counts.add_told(turn, told, self.whole.row());
        let fell_out = self.recent.fell_out(turn.call.request, told)?;
        counts.add_if(fell_out, Event::FellOut);
        self.recent.changed(told);
        Ok(told == purged && self.whole.row() == self.purged.row())
    }
}
