//! Writes the bytes of a trace as text; of a text that is no trace, the first line that is at fault.
#![tactic(auto)]

use command_line::{Program, Stop};
use std::io::Write;
use std::process::ExitCode;

const WRITE_TRACE: Program = Program {
    name: "write_trace",
    words: "[FILE]",
    about: "Writes the bytes of the trace as text in FILE, or on standard input.",
};

fn main(rt: HostRuntime) -> ExitCode {
    let done = write_trace(&rt);
    // Where standard error cannot be written, the status alone tells.
    let _ = WRITE_TRACE.tell(&mut rt.stderr(), &done);
    command_line::status(&done)
}

fn write_trace(rt: &HostRuntime) -> Result<(), Stop> {
    let words = WRITE_TRACE.words(rt, &mut rt.stdout())?;
    let text = command_line::read(rt, command_line::file_of(words.as_slice())?)?;
    let trace = trace_text::read(rt.alloc(), text.as_slice())?;
    let bytes = trace_bytes::write(
        rt.alloc(),
        trace.numbers.as_slice(),
        trace.requests.as_slice(),
    )?;
    rt.stdout().write_all(bytes.as_slice())?;
    Ok(())
}
