// A program: what it says of itself, and of how it ends.
ghost use Rattle.std.specs.Io.KnownBytes.{Appends};
ghost use Rattle.std.specs.Prelude.{◌≡◌, ◌↔◌, IfOk, IfSome, IsOk, OnOk, map};
ghost use Rattle.std.specs.String.{string_bytes};
ghost use Rattle.command_line.specs.Programs.{UnlessWriteFails, answer_text, stop_text, end_text};
ghost use Rattle.command_line.specs.Words.{flag_in};

use crate::reason::Reason;
use crate::{Flag, Stop};
use std::env;
use std::io::{self, Write};
use std::rt::Env;

/// The version of the repository, which its programs share.
pub const VERSION: &str = "0.2.0";

/// A program, as it speaks of itself.
#[derive(Clone, Copy)]
pub struct Program {
    pub name: &'static str,
    /// The words that it takes, as its usage shows them.
    pub words: &'static str,
    /// What it does.
    pub about: &'static str,
}

impl Program {
    /// The words after the program's name, unless they begin with an option, which is answered on `out`.
    pub fn words<R: Env + AllocGlobal, O: Write>(
        &self,
        rt: &R,
        out: &mut O,
    ) -> Result<Vec<String>, Stop>
        ensures { IfOk result (λ words. flag_in (map string_bytes words.items) ≡ None) }
    {
        let Ok(arguments) = env::args(rt) else {
            return Err(Stop::Usage);
        };
        let words: Vec<String> = arguments.skip(1).collect(rt.alloc())?;
        self.answer(out, Flag::first(words.as_slice()))?;
        Ok(words)
    }

    /// Answers an option: the program stops then. With none it goes on.
    pub fn answer<O: Write>(&self, out: &mut O, flag: Option<Flag>) -> Result<(), Stop>
        ensures goes_on { IsOk result ↔ (flag ≡ None) }
        ensures unknown { flag ≡ Some Flag.Unknown → result ≡ Err Stop.Usage }
        ensures told { UnlessWriteFails result
            (Appends (O.contents out.old) (O.contents out.new) (answer_text self.now flag)) }
    {
        let Program { name, words, about } = *self;
        match flag {
            None => return Ok(()),
            Some(Flag::Unknown) => return Err(Stop::Usage),
            Some(Flag::Version) => writeln!(out, "{name} {VERSION}")?,
            Some(Flag::Help) => writeln!(
                out,
                "{about}\n\nusage: {name} {words}\n       {name} --help | --version"
            )?,
        }
        Err(Stop::AnswerSummary)
    }

    /// Says on `err` why the program stopped, if it did.
    pub fn tell<E: Write>(&self, err: &mut E, done: &Result<(), Stop>) -> io::Result<()>
        ensures { OnOk result
            (IfSome (end_text self.now done.now) (Appends (E.contents err.old) (E.contents err.new))) }
    {
        match done {
            Ok(()) => Ok(()),
            Err(stop) => self.tell_stop(err, stop),
        }
    }

    fn tell_stop<E: Write>(&self, err: &mut E, stop: &Stop) -> io::Result<()>
        ensures { OnOk result
            (IfSome (stop_text self.now stop.now) (Appends (E.contents err.old) (E.contents err.new))) }
    {
        let Program { name, words, .. } = *self;
        match stop {
            Stop::AnswerSummary => Ok(()),
            Stop::Usage => writeln!(err, "usage: {name} {words}"),
            Stop::Read { name, error } => {
                let reason = Reason { error: *error };
                writeln!(err, "cannot read {name}: {reason}")
            }
            Stop::Write { .. } if stop.status() == 0 => Ok(()),
            Stop::Write { error } => {
                let reason = Reason { error: *error };
                writeln!(err, "cannot write: {reason}")
            }
            Stop::Refused { refusal } => writeln!(err, "{refusal}"),
            Stop::IsText { refusal } => {
                writeln!(
                    err,
                    "{refusal}\nthis looks like a trace as text: write_trace makes bytes of it"
                )
            }
            Stop::Fault { fault } => writeln!(err, "{fault}"),
            Stop::OutOfMemory => writeln!(err, "out of memory"),
        }
    }
}
