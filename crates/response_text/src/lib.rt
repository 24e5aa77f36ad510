//! What a user is told, as text: a line for each response, written to an output.
#![tactic(auto)]

ghost use Rattle.std.specs.Prelude.{◌++◌, codes, decimal};
ghost use Rattle.output.specs.Output.{Writes};
ghost use Rattle.response_text.specs.Lines.{line};
ghost use Rattle.store.specs.Served.{response_in};

mod answers;
mod lists;
mod reasons;
#[cfg(test)]
mod tests;

use answers::write_outcome;
use base::Refusal;
use output::{Output, Piece};
use reasons::write_reason;
use std::io::{self, Write};
use store::Reply;

/// Writes the line of a response. Rows of an answer stand in the answer row.
pub fn write_line<W: Write>(
    out: &mut Output<W>,
    user: usize,
    response: Result<Reply, Refusal>,
    row: &[u64],
) -> io::Result<()>
    ensures { Writes out.old out.new result (line user (response_in response row.now)) }
{
    match response {
        Ok(Reply::Done) => write_words(out, user, "done"),
        Ok(Reply::Answered { outcome }) => write_outcome(out, user, outcome, row),
        Err(refusal) => write_reason(out, user, refusal),
    }
}

// A line of words that are always the same.
#[inline(always)]
pub(crate) fn write_words<W: Write>(out: &mut Output<W>, user: usize, words: &str) -> io::Result<()>
    ensures { Writes out.old out.new result (decimal user ++ codes ": " ++ (words.now ++ codes "\n")) }
{
    out.write(&[
        Piece::Number(user as u128),
        Piece::Text(": "),
        Piece::Text(words),
        Piece::Text("\n"),
    ])
}
