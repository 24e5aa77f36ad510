//! Playing a trace, for everyone or purged for one user: what is told, line by line, and how the trace ends.
#![tactic(auto)]

ghost use Rattle.std.specs.Prelude.{◌≡◌, length, None, Some, IfOk, OnOk, OnErr};
ghost use Rattle.output.specs.Output.{WritesAll};
ghost use Rattle.trace_player.specs.Playing.{text_of, play_end, LeavesOf, Breaks};

mod concerns;
pub mod laws;
mod opening;
mod turns;

use base::Refusal;
use opening::play_to;
use output::Output;
use std::io::{self, Write};

/// As many numbers as the largest policy of a trace asks for.
pub const MEMORY: usize = 8224;

// The law `memory_enough` is about this number.
const _: () = prove!(MEMORY == 8224);

/// Plays the trace in the bytes for everyone, and says why it was refused or broken off, if it was.
///
/// It fails only if the writer fails.
pub fn play<W: Write>(
    out: &mut Output<W>,
    memory: &mut [u64],
    bytes: &[u8],
) -> io::Result<Option<Refusal>>
    ensures end { IfOk result (λ end. end ≡ play_end (length memory.old) bytes.now) }
    ensures text { OnOk result (WritesAll out.old out.new (text_of None (length memory.old) bytes.now)) }
    ensures after { OnOk result (LeavesOf None bytes.now memory.old memory.new) }
    ensures broken { OnErr result (Breaks None bytes.now out.old out.new memory.old memory.new) }
{
    play_to(out, memory, None, bytes)
}

/// Plays only what is relevant to one user; what they are told is what the whole trace tells them.
///
/// It fails only if the writer fails.
pub fn play_for<W: Write>(
    out: &mut Output<W>,
    memory: &mut [u64],
    user: usize,
    bytes: &[u8],
) -> io::Result<Option<Refusal>>
    ensures end { IfOk result (λ end. end ≡ play_end (length memory.old) bytes.now) }
    ensures text { OnOk result (WritesAll out.old out.new (text_of (Some user) (length memory.old) bytes.now)) }
    ensures after { OnOk result (LeavesOf (Some user) bytes.now memory.old memory.new) }
    ensures broken { OnErr result (Breaks (Some user) bytes.now out.old out.new memory.old memory.new) }
{
    play_to(out, memory, Some(user), bytes)
}
