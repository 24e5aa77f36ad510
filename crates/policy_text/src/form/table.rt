// The table: a line for each user and for each compartment.
ghost use Rattle.policy_text.specs.Forms.{table};

use super::Form;
use output::{Output, Piece};
use std::io::{self, Write};

pub(crate) struct Table;

impl Form for Table {
    ghost shape = { table };

    fn begin<W: Write>(out: &mut Output<W>) -> io::Result<()> {
        out.write(&[])
    }

    fn write_user<W: Write>(out: &mut Output<W>, user: usize, _writes: u64) -> io::Result<()> {
        out.write(&[
            Piece::Text("user "),
            Piece::Number(user as u128),
            Piece::Text(" sees"),
        ])
    }

    fn write_seen<W: Write>(out: &mut Output<W>, _user: usize, compartment: u64) -> io::Result<()> {
        out.write(&[Piece::Text(" "), Piece::Number(compartment as u128)])
    }

    fn end_user<W: Write>(out: &mut Output<W>, writes: u64) -> io::Result<()> {
        out.write(&[
            Piece::Text(", writes in "),
            Piece::Number(writes as u128),
            Piece::Text("\n"),
        ])
    }

    fn write_compartment<W: Write>(
        out: &mut Output<W>,
        compartment: usize,
        capacity: usize,
    ) -> io::Result<()> {
        let compartment = Piece::Number(compartment as u128);
        if capacity == 1 {
            let room = Piece::Text(" has room for 1 row, which may flow to");
            out.write(&[Piece::Text("compartment "), compartment, room])
        } else {
            let room = Piece::Text(" has room for ");
            let capacity = Piece::Number(capacity as u128);
            let rows = Piece::Text(" rows, which may flow to");
            out.write(&[
                Piece::Text("compartment "),
                compartment,
                room,
                capacity,
                rows,
            ])
        }
    }

    fn shows(_from: usize, _to: usize) -> bool {
        true
    }

    fn write_flow<W: Write>(out: &mut Output<W>, _from: usize, to: usize) -> io::Result<()> {
        out.write(&[Piece::Text(" "), Piece::Number(to as u128)])
    }

    fn end_compartment<W: Write>(out: &mut Output<W>) -> io::Result<()> {
        out.write(&[Piece::Text("\n")])
    }

    fn end<W: Write>(out: &mut Output<W>) -> io::Result<()> {
        out.write(&[])
    }
}
