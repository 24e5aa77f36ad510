//! Plays a trace: prints a line for each request, and says on standard error if it is refused.
#![tactic(auto)]

use command_line::{Program, Stop};
use output::Output;
use std::io::{BufWriter, IsTerminal, LineWriter, Write};
use std::process::ExitCode;
use trace_player::MEMORY;

const PLAY: Program = Program {
    name: "play",
    words: "[FILE]",
    about: "Plays the trace in FILE, or on standard input: a line for each request.",
};

fn main(rt: HostRuntime) -> ExitCode {
    let done = play(&rt);
    // Where standard error cannot be written, the status alone tells.
    let _ = PLAY.tell(&mut rt.stderr(), &done);
    command_line::status(&done)
}

fn play(rt: &HostRuntime) -> Result<(), Stop> {
    let words = PLAY.words(rt, &mut rt.stdout())?;
    let bytes = command_line::read(rt, command_line::file_of(words.as_slice())?)?;
    let stdout = rt.stdout();
    // At a terminal a line goes out as soon as it is made.
    if stdout.is_terminal() {
        play_to(LineWriter::new(rt.alloc(), stdout)?, bytes.as_slice())
    } else {
        play_to(BufWriter::new(rt.alloc(), stdout)?, bytes.as_slice())
    }
}

fn play_to<W: Write + Drop>(writer: W, bytes: &[u8]) -> Result<(), Stop> {
    let mut memory = [0; MEMORY];
    let mut out = Output::new(writer);
    let end = trace_player::play(&mut out, &mut memory, bytes)?;
    // All lines go out before a refusal is told.
    out.flush()?;
    match end {
        None => Ok(()),
        Some(refusal) => Err(Stop::at(refusal, bytes)),
    }
}
