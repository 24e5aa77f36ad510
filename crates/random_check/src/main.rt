//! Plays random traces whole and purged for every user, and compares all that the user is told: responses and answer
//! rows.
#![tactic(auto)]

mod counts;
mod event;
mod mix;
mod random;
mod recent;
mod rules;
mod shape;
mod side;
mod stage;
mod told;
mod trace;

use anyhow::anyhow;
use counts::Counts;
use random::Random;
use stage::{Difference, Stage};
use trace::Trace;

const SEED: u64 = 0x9e37_79b9_7f4a_7c15;

const TRACES: u32 = 10_000;

// Ends at the first difference. The counts in the file `stdout` say how much is tried; what is asked of a run is its
// last line.
fn main(rt: HostRuntime) -> anyhow::Result<()> {
    let heap = rt.alloc();
    let mut random = Random::new(SEED);
    let mut stage = Stage::new(heap)?;
    let mut counts = Counts::new();
    for number in 1..=TRACES {
        let trace = Trace::random(&mut random, heap)?;
        counts.add_trace(&trace);
        if let Some(Difference { user, request }) = stage.play(&trace, &mut counts)? {
            println!(rt; "first difference: trace {number}, user {user}, request {request}")?;
            return Err(anyhow!("a user was told of what is not relevant to them"));
        }
    }
    println!(rt; "{counts}differences 0")?;
    Ok(())
}
