// Pieces come as they are, and what a full writer took is a beginning.
use super::{Output, Piece};
use std::test::Fail;

#[test]
fn writes_pieces(rt: HostRuntime) -> Result<(), Fail> {
    let mut text = Vec::new(rt.alloc());
    let mut out = Output::new(&mut text);
    out.write(&[
        Piece::Number(31),
        Piece::Text(": done\n"),
        Piece::Number(0),
        Piece::Number(u128::MAX),
    ])?;
    out.write(&[])?;
    out.flush()?;
    assert!(rt;
        text.as_slice() == b"31: done\n0340282366920938463463374607431768211455".as_slice()
    );
    Ok(())
}

// More than is gathered for one write.
#[test]
fn writes_long_texts(rt: HostRuntime) -> Result<(), Fail> {
    let line = "0123456789012345678901234567890123456789012345678901234567890123456789\n";
    let mut out = Output::new(Vec::new(rt.alloc()));
    out.write(&[Piece::Number(1), Piece::Text(line), Piece::Text(line)])?;
    let text = out.into_inner();
    assert!(rt;
        text.as_slice()
            == concat!(
                "1",
                "0123456789012345678901234567890123456789012345678901234567890123456789\n",
                "0123456789012345678901234567890123456789012345678901234567890123456789\n"
            )
            .as_bytes()
    );
    Ok(())
}

#[test]
fn writes_a_beginning(rt: HostRuntime) -> Result<(), Fail> {
    let mut room = [b'.'; 12];
    let mut out = Output::new(&mut room[..9]);
    assert!(rt;
        out.write(&[Piece::Number(12345), Piece::Text(": done\n")])
            .is_err()
    );
    assert!(rt; out.write(&[]).is_ok());
    assert!(rt; out.write(&[Piece::Number(7)]).is_err());
    assert!(rt; room.as_slice() == b"12345: do...".as_slice());
    Ok(())
}
