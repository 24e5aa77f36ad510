// The forms in which a policy is shown: each says in its own way who is who, who sees what, and where rows may flow.
ghost use Rattle.std.specs.Prelude.{◌≡◌};
ghost use Rattle.output.specs.Output.{Writes};
ghost use Rattle.policy_text.specs.Forms.{Shape};

use output::Output;
use std::io::{self, Write};

mod graph;
mod table;

pub(crate) use graph::Graph;
pub(crate) use table::Table;

pub(crate) trait Form {
    // The texts that each function writes.
    ghost shape: { Shape };

    // Before all that is shown.
    fn begin<W: Write>(out: &mut Output<W>) -> io::Result<()>
        ensures { Writes out.old out.new result (shape.first) };

    // Who a user is, before what they see.
    fn write_user<W: Write>(out: &mut Output<W>, user: usize, writes: u64) -> io::Result<()>
        ensures { Writes out.old out.new result (shape.user user writes) };

    // A compartment that the user sees.
    fn write_seen<W: Write>(out: &mut Output<W>, user: usize, compartment: u64) -> io::Result<()>
        ensures { Writes out.old out.new result (shape.seen user compartment) };

    // After what a user sees.
    fn end_user<W: Write>(out: &mut Output<W>, writes: u64) -> io::Result<()>
        ensures { Writes out.old out.new result (shape.user_end writes) };

    // What a compartment is, before where its rows may flow.
    fn write_compartment<W: Write>(
        out: &mut Output<W>,
        compartment: usize,
        capacity: usize,
    ) -> io::Result<()>
        ensures { Writes out.old out.new result (shape.compartment compartment capacity) };

    // Whether the form shows that rows may flow there.
    fn shows(from: usize, to: usize) -> bool
        ensures { result ≡ shape.shows from to };

    // A compartment to which rows may flow.
    fn write_flow<W: Write>(out: &mut Output<W>, from: usize, to: usize) -> io::Result<()>
        ensures { Writes out.old out.new result (shape.flow from to) };

    // After where a compartment's rows may flow.
    fn end_compartment<W: Write>(out: &mut Output<W>) -> io::Result<()>
        ensures { Writes out.old out.new result (shape.compartment_end) };

    // After all that is shown.
    fn end<W: Write>(out: &mut Output<W>) -> io::Result<()>
        ensures { Writes out.old out.new result (shape.last) };
}
