// A trace whose policy is read: memory is opened, and what follows the policy is played.
ghost use Rattle.std.specs.Prelude.{◌≡◌, length, IfOk, OnOk, OnErr};
ghost use Rattle.output.specs.Output.{WritesAll};
ghost use Rattle.trace_items.specs.Items.{outcomes_in, items_in, end_in};
ghost use Rattle.trace_player.specs.Playing.{text_of, play_end, LeavesOf, Breaks};
ghost use Rattle.trace_player.specs.Turns.{open_and_play, end_after_open, StopsAfterOpen};

use super::turns::play_items;
use base::Refusal;
use output::Output;
use policy::Policy;
use std::io::{self, Write};
use trace_bytes::{CAPACITY, Opening};
use trace_items::Items;

// Plays for one viewer, or for everyone.
pub(crate) fn play_to<W: Write>(
    out: &mut Output<W>,
    memory: &mut [u64],
    viewer: Option<usize>,
    bytes: &[u8],
) -> io::Result<Option<Refusal>>
    ensures end { IfOk result (λ end. end ≡ play_end (length memory.old) bytes.now) }
    ensures text { OnOk result (WritesAll out.old out.new (text_of viewer (length memory.old) bytes.now)) }
    ensures after { OnOk result (LeavesOf viewer bytes.now memory.old memory.new) }
    ensures broken { OnErr result (Breaks viewer bytes.now out.old out.new memory.old memory.new) }
{
    match trace_bytes::open(bytes, CAPACITY) {
        Ok(Opening { policy, requests }) => play_requests(out, &policy, memory, viewer, requests),
        Err(refusal) => Ok(Some(refusal)),
    }
}

// Opens memory, and plays what is in the bytes that follow the policy.
fn play_requests<W: Write>(
    out: &mut Output<W>,
    policy: &Policy,
    memory: &mut [u64],
    viewer: Option<usize>,
    requests: &[u8],
) -> io::Result<Option<Refusal>>
    ensures end { IfOk result (λ end. end ≡ end_after_open policy.now memory.old (end_in (outcomes_in requests.now))) }
    ensures text { OnOk result
        (WritesAll out.old out.new
        (open_and_play policy.now viewer memory.old (items_in (outcomes_in requests.now))).text) }
    ensures after { OnOk result
        (memory.new ≡ (open_and_play policy.now viewer memory.old (items_in (outcomes_in requests.now))).memory) }
    ensures broken { OnErr result
        (StopsAfterOpen policy.now viewer memory.old (items_in (outcomes_in requests.now)) out.old out.new memory.new) }
{
    match store::open(policy, memory) {
        Ok(()) => play_items(out, policy, memory, viewer, Items::of(requests)),
        Err(refusal) => Ok(Some(refusal)),
    }
}
