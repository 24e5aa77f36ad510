// Each kind of response, with its words worked out by hand.
ghost use Rattle.std.specs.Prelude.{◌≡◌, ◌++◌, IfOk};
ghost use Rattle.response_text.specs.Lines.{line};
ghost use Rattle.store.specs.Served.{response_in};

use super::*;
use query::{AnswerSummary, Outcome};
use std::test::Fail;

// A caller goes on with a text of their own: the line stands behind what they had.
fn with_line(
    text: Vec<u8>,
    user: usize,
    response: Result<Reply, Refusal>,
    row: &[u64],
) -> io::Result<Vec<u8>>
    ensures { IfOk result (λ new. new.items ≡ text.items ++ line user (response_in response row.now)) }
{
    let mut out = Output::new(text);
    write_line(&mut out, user, response, row)?;
    Ok(out.into_inner())
}

#[test]
fn gives_the_text_back(rt: HostRuntime) -> Result<(), Fail> {
    let text = with_line(Vec::new(rt.alloc()), 0, Ok(Reply::Done), &[])?;
    let text = with_line(text, 9, Err(Refusal::NoUser { user: 9 }), &[])?;
    assert!(rt; text.as_slice() == b"0: done\n9: not allowed\n".as_slice());
    Ok(())
}

#[test]
fn tells_what_is_done(rt: HostRuntime) -> Result<(), Fail> {
    let mut text = Vec::new(rt.alloc());
    let mut out = Output::new(&mut text);
    write_line(&mut out, 0, Ok(Reply::Done), &[])?;
    write_line(&mut out, 31, Ok(Reply::Done), &[])?;
    assert!(rt; text.as_slice() == b"0: done\n31: done\n".as_slice());
    Ok(())
}

#[test]
fn tells_refusals(rt: HostRuntime) -> Result<(), Fail> {
    let mut text = Vec::new(rt.alloc());
    let mut out = Output::new(&mut text);
    write_line(&mut out, 9, Err(Refusal::NoUser { user: 9 }), &[])?;
    write_line(&mut out, 1, Err(Refusal::NoFlow { compartment: 3 }), &[])?;
    write_line(&mut out, 1, Err(Refusal::NoRoom { capacity: 64 }), &[])?;
    write_line(&mut out, 1, Err(Refusal::NoRow { key: 5 }), &[])?;
    write_line(&mut out, 77, Err(Refusal::NoRequest { place: 1 }), &[])?;
    assert!(rt;
        text.as_slice()
            == b"9: not allowed\n1: not allowed\n1: no room\n1: no row\n77: no deed at 1\n".as_slice()
    );
    Ok(())
}

#[test]
fn tells_other_refusals_by_number(rt: HostRuntime) -> Result<(), Fail> {
    let mut text = Vec::new(rt.alloc());
    let mut out = Output::new(&mut text);
    write_line(&mut out, 1, Err(Refusal::OutOfBounds { place: 20 }), &[])?;
    write_line(&mut out, 1, Err(Refusal::BadView { user: 2 }), &[])?;
    write_line(&mut out, 1, Err(Refusal::ShortRow { length: 40 }), &[])?;
    write_line(
        &mut out,
        1,
        Err(Refusal::LastVersion { compartment: 15 }),
        &[],
    )?;
    assert!(rt;
        text.as_slice()
            == b"1: refused 1 at 20\n1: refused 2 at 2\n1: refused 7 at 40\n1: refused 8 at 15\n".as_slice()
    );
    Ok(())
}

fn write_answer_line<W: Write>(
    out: &mut Output<W>,
    answered: AnswerSummary,
    examined: usize,
    row: &[u64],
) -> io::Result<()> {
    let outcome = Outcome { answered, examined };
    write_line(out, 2, Ok(Reply::Answered { outcome }), row)
}

#[test]
fn tells_totals(rt: HostRuntime) -> Result<(), Fail> {
    let mut text = Vec::new(rt.alloc());
    let mut out = Output::new(&mut text);
    let (rows, amount) = (3, 160);
    write_answer_line(&mut out, AnswerSummary::Total { rows, amount }, 3, &[])?;
    let (rows, amount) = (1, 10);
    write_answer_line(&mut out, AnswerSummary::Total { rows, amount }, 0, &[])?;
    let (rows, amount) = (0, 0);
    write_answer_line(&mut out, AnswerSummary::Total { rows, amount }, 0, &[])?;
    assert!(rt;
        text.as_slice()
            == b"2: 3 rows 160 looked at 3\n2: 1 row 10 looked at 0\n2: 0 rows 0 looked at 0\n".as_slice()
    );
    Ok(())
}

// A header with counts of 2, 0 and 1, three rows behind it, and a number that belongs to no row.
fn example() -> [u64; 39] {
    let mut row = [0; 39];
    row[0] = 2;
    row[2] = 1;
    row[32..39].copy_from_slice(&[5, 70, 6, 80, 5, 10, 9]);
    row
}

#[test]
fn tells_lists(rt: HostRuntime) -> Result<(), Fail> {
    let mut text = Vec::new(rt.alloc());
    let mut out = Output::new(&mut text);
    let row = example();
    write_answer_line(&mut out, AnswerSummary::Rows { compartments: 3 }, 3, &row)?;
    write_answer_line(&mut out, AnswerSummary::Rows { compartments: 2 }, 2, &row)?;
    write_answer_line(&mut out, AnswerSummary::Rows { compartments: 0 }, 0, &row)?;
    assert!(rt;
        text.as_slice()
            == b"2: [5:70 6:80] [] [5:10] looked at 3\n2: [5:70 6:80] [] looked at 2\n2:  looked at 0\n".as_slice()
    );
    Ok(())
}

#[test]
fn tells_what_is_shared(rt: HostRuntime) -> Result<(), Fail> {
    let mut text = Vec::new(rt.alloc());
    let mut out = Output::new(&mut text);
    let row = example();
    write_answer_line(&mut out, AnswerSummary::Shared { rows: 1 }, 5, &row)?;
    write_answer_line(&mut out, AnswerSummary::Shared { rows: 0 }, 5, &row)?;
    write_answer_line(&mut out, AnswerSummary::NotSeen, 0, &row)?;
    assert!(rt;
        text.as_slice()
            == b"2: [5:70] looked at 5\n2: [] looked at 5\n2: not seen looked at 0\n".as_slice()
    );
    Ok(())
}

// Counts of more rows than there are, and a header that is truncated.
#[test]
fn tells_what_is_there(rt: HostRuntime) -> Result<(), Fail> {
    let mut text = Vec::new(rt.alloc());
    let mut out = Output::new(&mut text);
    let mut row = example();
    write_answer_line(&mut out, AnswerSummary::Shared { rows: 4 }, 0, &row)?;
    row[0] = u64::MAX;
    write_answer_line(&mut out, AnswerSummary::Rows { compartments: 2 }, 0, &row)?;
    write_answer_line(&mut out, AnswerSummary::Rows { compartments: 2 }, 0, &[7])?;
    assert!(rt;
        text.as_slice()
            == b"2: [5:70 6:80 5:10] looked at 0\n2: [5:70 6:80 5:10] [] looked at 0\n2: [] looked at 0\n".as_slice()
    );
    Ok(())
}
