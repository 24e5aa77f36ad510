//! Plays what is relevant to one user of a trace: prints their lines, and says on standard error if it is refused.
#![tactic(auto)]

use command_line::{Program, Stop};
use output::Output;
use std::io::{BufWriter, IsTerminal, LineWriter, Write};
use std::process::ExitCode;
use trace_player::MEMORY;

const PLAY_FOR: Program = Program {
    name: "play_for",
    words: "USER [FILE] (USER from 0 to 255)",
    about: "Plays what is relevant to USER of the trace in FILE, or on standard input.",
};

fn main(rt: HostRuntime) -> ExitCode {
    let done = play_for(&rt);
    // Where standard error cannot be written, the status alone tells.
    let _ = PLAY_FOR.tell(&mut rt.stderr(), &done);
    command_line::status(&done)
}

fn play_for(rt: &HostRuntime) -> Result<(), Stop> {
    let words = PLAY_FOR.words(rt, &mut rt.stdout())?;
    let [user, file @ ..] = words.as_slice() else {
        return Err(Stop::Usage);
    };
    let user = user_of(user.as_str()).ok_or(Stop::Usage)?;
    let bytes = command_line::read(rt, command_line::file_of(file)?)?;
    warn_of(rt, user, bytes.as_slice());
    let stdout = rt.stdout();
    // At a terminal a line goes out as soon as it is made.
    if stdout.is_terminal() {
        play_to(LineWriter::new(rt.alloc(), stdout)?, user, bytes.as_slice())
    } else {
        play_to(BufWriter::new(rt.alloc(), stdout)?, user, bytes.as_slice())
    }
}

fn play_to<W: Write + Drop>(writer: W, user: usize, bytes: &[u8]) -> Result<(), Stop> {
    let mut memory = [0; MEMORY];
    let mut out = Output::new(writer);
    let end = trace_player::play_for(&mut out, &mut memory, user, bytes)?;
    // All lines go out before a refusal is told.
    out.flush()?;
    match end {
        None => Ok(()),
        Some(refusal) => Err(Stop::at(refusal, bytes)),
    }
}

// A decimal number of a byte; std's `parse` would take a plus sign too.
fn user_of(word: &str) -> Option<usize> {
    if word.starts_with("+") {
        return None;
    }
    let user: u8 = word.parse().ok()?;
    Some(usize::from(user))
}

// A user whom the policy does not have is played for all the same: they may bring requests, which are refused.
fn warn_of(rt: &HostRuntime, user: usize, bytes: &[u8]) {
    let Ok(opening) = trace_bytes::open(bytes, trace_bytes::CAPACITY) else {
        return;
    };
    if !opening.policy.has_user(user) {
        let _ = eprintln!(rt; "the policy has no user {user}");
    }
}
