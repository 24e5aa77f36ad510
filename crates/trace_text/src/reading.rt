// Reading a text line by line.
ghost use Rattle.trace_text.specs.Lines.{and_then};
ghost use Rattle.trace_text.specs.Said.{ReadsAs, join, entry_content, at_line, line_said, lines_said, content_of, check_end};
ghost use Rattle.trace_text.specs.Words.{lines};
ghost use Rattle.std.specs.Prelude.{◌≡◌, Ok, OnOk};

use crate::Trace;
use crate::entries::{Entry, entry_in};
use crate::fault::{Fault, ReadError, Reason};
use crate::line::Line;
use crate::stages::{Stage, stage_of};
use base::COMPARTMENTS;
use policy::Contract;
use std::alloc::AllocError;

impl Trace {
    // Adds what a user's line says: behind the view lies 0, up to a place for each compartment.
    fn add_contract(&mut self, contract: Contract) -> Result<(), AllocError>
        ensures { OnOk result (content_of self.new ≡ join (content_of self.old) (entry_content (Entry.User contract))) }
    {
        let view = contract.view();
        self.numbers.push(view.len() as u64)?;
        self.numbers.extend_from_slice(view)?;
        self.numbers
            .extend_from_slice(&[0; COMPARTMENTS][view.len()..])?;
        Ok(self.numbers.push(contract.writes())?)
    }

    // Adds what a line says.
    fn add(&mut self, entry: Entry) -> Result<(), AllocError>
        ensures { OnOk result (content_of self.new ≡ join (content_of self.old) (entry_content entry)) }
    {
        match entry {
            Entry::Count(number) => self.numbers.push(number)?,
            Entry::User(contract) => self.add_contract(contract)?,
            Entry::Request(request) => self.requests.push(request)?,
        }
        Ok(())
    }

    // Adds what the line of this number says, or says why it can't be read.
    fn read_line(&mut self, number: usize, line: Line) -> Result<(), ReadError>
        ensures { ReadsAs (λ _. content_of self.new) result
            (at_line number (line_said (content_of self.old) line.entry.bytes.now)) }
    {
        let entry = entry_in(self.numbers.as_slice(), line).map_err(|reason| Fault {
            line: number,
            reason,
        })?;
        if let Some(entry) = entry {
            self.add(entry)?;
        }
        Ok(())
    }

    // Whether the text may end behind the line of this number.
    fn check_end(&self, number: usize) -> Result<(), Fault>
        ensures { and_then result (λ _. Ok (content_of self.now)) ≡ at_line number (check_end (content_of self.now)) }
    {
        match stage_of(self.numbers.as_slice()) {
            Stage::Users | Stage::Compartments | Stage::User { .. } | Stage::Capacity { .. } => {
                Err(Fault {
                    line: number,
                    reason: Reason::Truncated,
                })
            }
            Stage::Requests => Ok(()),
        }
    }

    // Adds what the lines of a text say, or says which is the first that can't be read.
    pub(crate) fn read_lines(&mut self, text: &[u8]) -> Result<(), ReadError>
        ensures { ReadsAs (λ _. content_of self.new) result (lines_said 1 (content_of self.old) (lines text.now)) }
    {
        let mut last = 0;
        for (i, bytes) in text.split(|byte| *byte == b'\n').enumerate() {
            last = i + 1;
            self.read_line(last, Line { bytes })?;
        }
        Ok(self.check_end(last)?)
    }
}
