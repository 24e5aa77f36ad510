// Rows, and lists of rows.
ghost use Rattle.std.specs.Prelude.{◌++◌, map, codes};
ghost use Rattle.std.specs.List.{flat_map, join_by};
ghost use Rattle.output.specs.Output.{Writes};
ghost use Rattle.query.specs.AnswerRows.{split};
ghost use Rattle.response_text.specs.Lines.{row_bytes, list_bytes};
ghost use Rattle.rows.specs.Halving.{pair_row};

use output::{Output, Piece};
use std::io::{self, Write};

// A list for each count: as many rows as it says, or as there are left.
pub(crate) fn write_lists<W: Write>(
    out: &mut Output<W>,
    counts: &[u64],
    rows: &[[u64; 2]],
) -> io::Result<()>
    ensures { Writes out.old out.new result
        (join_by list_bytes (codes " ") (split counts.now (map pair_row rows.now))) }
{
    let mut left = rows;
    let mut blank = "";
    for count in counts {
        let (list, behind) = left.split_at((*count as usize).min(left.len()));
        write_next(out, blank, list)?;
        left = behind;
        blank = " ";
    }
    Ok(())
}

// Rows in brackets.
pub(crate) fn write_list<W: Write>(out: &mut Output<W>, rows: &[[u64; 2]]) -> io::Result<()>
    ensures { Writes out.old out.new result (list_bytes (map pair_row rows.now)) }
{
    write_next(out, "", rows)
}

// A list with the blank that separates it from the one before it.
fn write_next<W: Write>(out: &mut Output<W>, blank: &str, list: &[[u64; 2]]) -> io::Result<()>
    ensures { Writes out.old out.new result (blank.now ++ list_bytes (map pair_row list.now)) }
{
    let [first, rest @ ..] = list else {
        return out.write(&[Piece::Text(blank), Piece::Text("[]")]);
    };
    write_row(out, blank, "[", *first)?;
    write_rows(out, rest)?;
    out.write(&[Piece::Text("]")])
}

// Rows, each with a blank before it.
fn write_rows<W: Write>(out: &mut Output<W>, rows: &[[u64; 2]]) -> io::Result<()>
    ensures { Writes out.old out.new result
        (flat_map (λ row. codes " " ++ row_bytes row) (map pair_row rows.now)) }
{
    for row in rows {
        write_row(out, "", " ", *row)?;
    }
    Ok(())
}

// A key and an amount, with what stands before them.
#[inline(always)]
fn write_row<'a, W: Write>(
    out: &mut Output<W>,
    blank: &'a str,
    opening: &'a str,
    row: [u64; 2],
) -> io::Result<()>
    ensures { Writes out.old out.new result (blank.now ++ (opening.now ++ row_bytes (pair_row row))) }
{
    let [key, amount] = row;
    out.write(&[
        Piece::Text(blank),
        Piece::Text(opening),
        Piece::Number(u128::from(key)),
        Piece::Text(":"),
        Piece::Number(u128::from(amount)),
    ])
}
