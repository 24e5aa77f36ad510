// A user's contract, from a line.
ghost use Rattle.std.specs.Prelude.{◌≡◌, ◌≤◌, length, Ok, IfOk};
ghost use Rattle.request.specs.Decoded.{and_then};
ghost use Rattle.trace_text.specs.Lines.{check_compartment, user_said, check_view, view_from, view_said, check_writes};
ghost use Rattle.trace_text.specs.Said.{user_view};

use crate::fault::Reason;
use crate::line::Line;
use crate::names::Name;
use base::{ArrayList, COMPARTMENTS};
use policy::Contract;

// The compartments behind `sees`, up to the word `writes`.
// By place and not over the words: where the line ends too soon, a word is missing.
fn view_in(line: Line) -> Result<ArrayList<u64, COMPARTMENTS>, Reason>
    ensures value { and_then result (λ view. Ok view.items) ≡ view_from 16 line.entry.bytes.now 3 }
    ensures few { IfOk result (λ view. length view.items ≤ 16) }
{
    let mut view = ArrayList::new(0);
    for place in 3..3 + COMPARTMENTS as u8 {
        if line.is_named(place, Name::Writes) {
            return Ok(view);
        }
        view.push(line.below(place, COMPARTMENTS)?).unwrap();
    }
    Ok(view)
}

// A compartment that a user sees is there, and isn't among those that follow it in the view.
fn check_compartment(
    compartment: u64,
    others: &[u64],
    user: usize,
    compartments: u64,
) -> Result<(), Reason>
    ensures { result ≡ check_compartment compartments user compartment others.now }
{
    if compartment >= compartments {
        return Err(Reason::NoCompartment { compartment });
    }
    if others.contains(&compartment) {
        return Err(Reason::SeenTwice { user, compartment });
    }
    Ok(())
}

fn check_view(view: &[u64], user: usize, compartments: u64) -> Result<(), Reason>
    ensures { result ≡ check_view compartments user view.now }
{
    for (place, compartment) in view.iter().enumerate() {
        check_compartment(*compartment, &view[place + 1..], user, compartments)?;
    }
    Ok(())
}

// The user sees something, and what they write in.
fn check_writes(view: &[u64], writes: u64, user: usize) -> Result<(), Reason>
    ensures { result ≡ check_writes user view.now writes }
{
    if view.is_empty() {
        return Err(Reason::SeesNothing { user });
    }
    if !view.contains(&writes) {
        return Err(Reason::WritesUnseen {
            user,
            compartment: writes,
        });
    }
    Ok(())
}

// The view and the compartment written in, after `sees`.
fn contract_in(line: Line, user: usize, compartments: u64) -> Result<Contract, Reason>
    ensures { and_then result (λ c. Ok (user_view c)) ≡ view_said user compartments line.entry.bytes.now }
{
    let view = view_in(line)?;
    let place = 3 + view.as_slice().len() as u8;
    line.expect_name(place, Name::Writes)?;
    let writes = line.below(place + 1, COMPARTMENTS)?;
    line.ends(place + 2)?;
    check_view(view.as_slice(), user, compartments)?;
    check_writes(view.as_slice(), writes, user)?;
    Ok(Contract::new(view, writes))
}

pub(crate) fn user_in(line: Line, user: usize, compartments: u64) -> Result<Contract, Reason>
    ensures { and_then result (λ c. Ok (user_view c)) ≡ user_said user compartments line.entry.bytes.now }
{
    line.expect_name(0, Name::User)?;
    line.next_number(1, user)?;
    line.expect_name(2, Name::Sees)?;
    contract_in(line, user, compartments)
}
