// The graph: a node for each user and for each compartment, and an edge for whatever there is between two of them.
ghost use Rattle.policy_text.specs.Forms.{graph};

use super::Form;
use output::{Output, Piece};
use std::io::{self, Write};

pub(crate) struct Graph;

impl Form for Graph {
    ghost shape = { graph };

    fn begin<W: Write>(out: &mut Output<W>) -> io::Result<()> {
        out.write(&[Piece::Text("digraph policy {\n")])
    }

    fn write_user<W: Write>(out: &mut Output<W>, user: usize, writes: u64) -> io::Result<()> {
        let user = Piece::Number(user as u128);
        out.write(&[
            Piece::Text("    \"user "),
            user,
            Piece::Text("\";\n    \"user "),
            user,
            Piece::Text("\" -> \"compartment "),
            Piece::Number(writes as u128),
            Piece::Text("\";\n"),
        ])
    }

    fn write_seen<W: Write>(out: &mut Output<W>, user: usize, compartment: u64) -> io::Result<()> {
        out.write(&[
            Piece::Text("    \"compartment "),
            Piece::Number(compartment as u128),
            Piece::Text("\" -> \"user "),
            Piece::Number(user as u128),
            Piece::Text("\" [style=dashed];\n"),
        ])
    }

    fn end_user<W: Write>(out: &mut Output<W>, _writes: u64) -> io::Result<()> {
        out.write(&[])
    }

    fn write_compartment<W: Write>(
        out: &mut Output<W>,
        compartment: usize,
        _capacity: usize,
    ) -> io::Result<()> {
        out.write(&[
            Piece::Text("    \"compartment "),
            Piece::Number(compartment as u128),
            Piece::Text("\" [shape=box];\n"),
        ])
    }

    // Every compartment flows to itself, and the graph leaves that out.
    fn shows(from: usize, to: usize) -> bool {
        from != to
    }

    fn write_flow<W: Write>(out: &mut Output<W>, from: usize, to: usize) -> io::Result<()> {
        out.write(&[
            Piece::Text("    \"compartment "),
            Piece::Number(from as u128),
            Piece::Text("\" -> \"compartment "),
            Piece::Number(to as u128),
            Piece::Text("\" [color=blue];\n"),
        ])
    }

    fn end_compartment<W: Write>(out: &mut Output<W>) -> io::Result<()> {
        out.write(&[])
    }

    fn end<W: Write>(out: &mut Output<W>) -> io::Result<()> {
        out.write(&[Piece::Text("}\n")])
    }
}
