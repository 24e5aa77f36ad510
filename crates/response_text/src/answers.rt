// An answer and the rows examined, read out of the answer row.
ghost use Rattle.std.specs.Prelude.{◌≡◌, map, drop};
ghost use Rattle.output.specs.Output.{Writes};
ghost use Rattle.query.specs.AnswerRows.{read_answer};
ghost use Rattle.model.specs.Model.{answered};
ghost use Rattle.response_text.specs.Lines.{answer_bytes, line, total_bytes};
ghost use Rattle.rows.specs.Halving.{pair_row, rows_of};

use super::lists::{write_list, write_lists};
use output::{Output, Piece};
use query::{AnswerSummary, HEADER, Outcome};
use std::io::{self, Write};

// The line of an answer.
pub(crate) fn write_outcome<W: Write>(
    out: &mut Output<W>,
    user: usize,
    outcome: Outcome,
    row: &[u64],
) -> io::Result<()>
    ensures { Writes out.old out.new result
        (line user (answered (read_answer outcome.answered row.now) outcome.examined)) }
{
    out.write(&[Piece::Number(user as u128), Piece::Text(": ")])?;
    write_answer(out, outcome.answered, row)?;
    out.write(&[
        Piece::Text(" looked at "),
        Piece::Number(outcome.examined as u128),
        Piece::Text("\n"),
    ])
}

fn write_answer<W: Write>(
    out: &mut Output<W>,
    answered: AnswerSummary,
    row: &[u64],
) -> io::Result<()>
    ensures { Writes out.old out.new result (answer_bytes (read_answer answered row.now)) }
{
    match answered {
        AnswerSummary::Rows { compartments } => {
            let counts = &row[..compartments.min(row.len())];
            write_lists(out, counts, behind_header(row))
        }
        AnswerSummary::Total { rows, amount } => write_total(out, rows, amount),
        AnswerSummary::Shared { rows: count } => {
            let rows = behind_header(row);
            write_list(out, &rows[..count.min(rows.len())])
        }
        AnswerSummary::NotSeen => out.write(&[Piece::Text("not seen")]),
    }
}

// A single row is one row.
fn write_total<W: Write>(out: &mut Output<W>, rows: usize, amount: u64) -> io::Result<()>
    ensures { Writes out.old out.new result (total_bytes rows amount) }
{
    let sum = Piece::Number(u128::from(amount));
    match rows {
        1 => out.write(&[Piece::Text("1 row "), sum]),
        _ => out.write(&[Piece::Number(rows as u128), Piece::Text(" rows "), sum]),
    }
}

// The rows behind the header, if there are any.
fn behind_header(row: &[u64]) -> &[[u64; 2]]
    ensures { map pair_row result.now ≡ rows_of (drop 32 row.now) }
{
    rows::pairs(row.get(HEADER..).unwrap_or(&[]))
}
