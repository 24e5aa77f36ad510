// Why a request is refused.
ghost use Rattle.base.specs.Refusals.{refusal_line};
ghost use Rattle.std.specs.Prelude.{◌++◌, codes, decimal};
ghost use Rattle.output.specs.Output.{Writes};
ghost use Rattle.model.specs.Model.{refused};
ghost use Rattle.response_text.specs.Lines.{line};

use super::write_words;
use base::Refusal;
use output::{Output, Piece};
use std::io::{self, Write};

// The line of a refusal.
pub(crate) fn write_reason<W: Write>(
    out: &mut Output<W>,
    user: usize,
    refusal: Refusal,
) -> io::Result<()>
    ensures { Writes out.old out.new result (line user (refused refusal)) }
{
    match refusal {
        Refusal::NoRequest { place } => write_no_request(out, user, place),
        Refusal::NoUser { .. } | Refusal::NoFlow { .. } => write_words(out, user, "not allowed"),
        Refusal::NoRoom { .. } => write_words(out, user, "no room"),
        Refusal::NoRow { .. } => write_words(out, user, "no row"),
        _ => write_refusal(out, user, refusal),
    }
}

// Where no request stands.
fn write_no_request<W: Write>(out: &mut Output<W>, user: usize, place: usize) -> io::Result<()>
    ensures { Writes out.old out.new result
        (decimal user ++ codes ": " ++ ((codes "no deed at " ++ decimal place) ++ codes "\n")) }
{
    out.write(&[
        Piece::Number(user as u128),
        Piece::Text(": no deed at "),
        Piece::Number(place as u128),
        Piece::Text("\n"),
    ])
}

// A refusal by its number and its place.
fn write_refusal<W: Write>(out: &mut Output<W>, user: usize, refusal: Refusal) -> io::Result<()>
    ensures { Writes out.old out.new result (decimal user ++ codes ": " ++ (refusal_line refusal ++ codes "\n")) }
{
    out.write(&[
        Piece::Number(user as u128),
        Piece::Text(": refused "),
        Piece::Number(u128::from(refusal.number())),
        Piece::Text(" at "),
        Piece::Number(refusal.place()),
        Piece::Text("\n"),
    ])
}
