//! Shows the policy of a trace: as a table, or with the word `dot` as a graph for Graphviz.
#![tactic(auto)]

use command_line::{Program, Stop};
use output::Output;
use policy::Policy;
use std::io::{self, BufWriter, IsTerminal, LineWriter, Write};
use std::process::ExitCode;

const SHOW_POLICY: Program = Program {
    name: "show_policy",
    words: "[dot] [FILE]",
    about: "Shows the policy of the trace in FILE, or on standard input; with dot as a graph for Graphviz.",
};

fn main(rt: HostRuntime) -> ExitCode {
    let done = show_policy(&rt);
    // Where standard error cannot be written, the status alone tells.
    let _ = SHOW_POLICY.tell(&mut rt.stderr(), &done);
    command_line::status(&done)
}

fn show_policy(rt: &HostRuntime) -> Result<(), Stop> {
    let words = SHOW_POLICY.words(rt, &mut rt.stdout())?;
    let (is_graph, words) = form(words.as_slice());
    let bytes = command_line::read(rt, command_line::file_of(words)?)?;
    match trace_bytes::open(bytes.as_slice(), trace_bytes::CAPACITY) {
        Ok(opening) => Ok(show(rt, &opening.policy, is_graph)?),
        Err(refusal) => Err(Stop::at(refusal, bytes.as_slice())),
    }
}

// Whether a graph is asked for, and the words after that.
fn form(words: &[String]) -> (bool, &[String]) {
    match words {
        [word, rest @ ..] if word.as_str() == "dot" => (true, rest),
        _ => (false, words),
    }
}

fn show(rt: &HostRuntime, policy: &Policy, is_graph: bool) -> io::Result<()> {
    let stdout = rt.stdout();
    // At a terminal a line goes out as soon as it is made.
    if stdout.is_terminal() {
        show_to(LineWriter::new(rt.alloc(), stdout)?, policy, is_graph)
    } else {
        show_to(BufWriter::new(rt.alloc(), stdout)?, policy, is_graph)
    }
}

fn show_to<W: Write + Drop>(writer: W, policy: &Policy, is_graph: bool) -> io::Result<()> {
    let mut out = Output::new(writer);
    if is_graph {
        policy_text::write_graph(&mut out, policy)?;
    } else {
        policy_text::write_table(&mut out, policy)?;
    }
    out.flush()
}
