//! Text and numbers written to a writer piece by piece: all of them, or a beginning where the writer fails.
#![tactic(auto)]

ghost use Rattle.std.specs.Prelude.{◌≡◌, ◌<◌, ◌≤◌, ◌++◌, decimal, length, drop, IfSome, OnOk, OnErr, false};
ghost use Rattle.std.specs.Io.{WritesAtMost};
ghost use Rattle.std.specs.Io.KnownBytes.{Appends, WriteAppends};
ghost use Rattle.output.specs.Output.{OutputState, AppendsPart, Writes, Flushes, piece_bytes, bytes_of, taken};

#[cfg(test)]
mod tests;

use std::io::{self, ErrorKind, Write};
use std::marker::Model;

/// A part of a text.
#[derive(Clone, Copy)]
pub enum Piece<'a> {
    /// A text as it is.
    Text(&'a str),
    /// A number in decimal.
    Number(u128),
}

// Room to gather the pieces of a write: those of a row, and of most lines.
const ROOM: usize = 128;

// The digits of the largest number of 64 bits.
const DIGITS: usize = 20;

/// A writer, and whether a write to it has failed. After a failure nothing more is written.
#[derive(Drop)]
pub struct Output<W: Write> {
    writer: W,
    failed: bool,
}

impl<W: Write> Model for Output<W> {
    ghost Value = { OutputState };

    ghost view = { λ o. record { contents = W.contents o.writer; failed = o.failed } };
}

impl<W: Write> Output<W> {
    /// An output to the writer, to which nothing has failed yet.
    pub fn new(writer: W) -> Output<W>
        ensures { result ≡ record { contents = W.contents writer; failed = false } }
    {
        Output {
            writer,
            failed: false,
        }
    }

    /// The writer, which holds what was written to it.
    pub fn into_inner(self) -> W
        ensures { W.contents result ≡ self.contents }
    {
        let Output { writer, .. } = self;
        writer
    }

    /// Writes the pieces one after the other.
    // Inlined down to each piece, so that texts of a known length are copied as such.
    #[inline(always)]
    pub fn write(&mut self, pieces: &[Piece]) -> io::Result<()>
        ensures { Writes self.old self.new result (bytes_of pieces.now) }
    {
        let mut room = [0; ROOM];
        match gather(&mut room, pieces) {
            Some(start) => self.write_bytes(&room[start..]),
            None => self.write_pieces(pieces),
        }
    }

    /// Flushes the writer.
    pub fn flush(&mut self) -> io::Result<()>
        ensures { Flushes self.old self.new result }
    {
        let result = self.writer.flush();
        self.failed = self.failed || result.is_err();
        result
    }

    // Each piece by itself, where there is no room for all of them.
    #[inline(always)]
    fn write_pieces(&mut self, pieces: &[Piece]) -> io::Result<()>
        ensures { Writes self.old self.new result (bytes_of pieces.now) }
    {
        for piece in pieces {
            self.write_piece(*piece)?;
        }
        Ok(())
    }

    #[cold]
    #[inline(never)]
    fn write_piece(&mut self, piece: Piece) -> io::Result<()>
        ensures { Writes self.old self.new result (piece_bytes piece.entry) }
    {
        match piece {
            Piece::Text(text) => self.write_bytes(text.as_bytes()),
            Piece::Number(number) => {
                let mut digits = itoa::Buffer::new();
                self.write_bytes(digits.format(number).as_bytes())
            }
        }
    }

    #[inline(always)]
    fn write_bytes(&mut self, bytes: &[u8]) -> io::Result<()>
        ensures { Writes self.old self.new result bytes.now }
    {
        if bytes.is_empty() {
            return Ok(());
        }
        if self.failed {
            return Err(ErrorKind::Other.into());
        }
        let first = self.writer.write(bytes);
        match first {
            Ok(count) if count == bytes.len() => Ok(()),
            _ => self.write_rest(first, bytes),
        }
    }

    // What a first write did not take.
    #[cold]
    #[inline(never)]
    fn write_rest(&mut self, first: io::Result<usize>, bytes: &[u8]) -> io::Result<()>
        requires works { self.old.failed ≡ false }
        requires rest { taken first < length bytes.now }
        ensures { Writes self.old self.new result (drop (taken first) bytes.now) }
    {
        let result = write_on(&mut self.writer, first, bytes);
        self.failed = result.is_err();
        result
    }
}

// Gathers the pieces at the end of the room, the last one first, since a number's digits are made in that order.
// Gives where they start, or none where they don't fit.
#[inline(always)]
fn gather(room: &mut [u8], pieces: &[Piece]) -> Option<usize>
    ensures within { IfSome result (λ start. start ≤ length room.new) }
    ensures gathered { IfSome result (λ start. drop start room.new ≡ bytes_of pieces.now) }
{
    let mut start = room.len();
    let mut left = pieces.len();
    while left > 0 {
        left -= 1;
        start = put_before(room, start, pieces[left])?;
    }
    Some(start)
}

// Puts a piece before what stands from `end` on, and gives where it starts, or none where it doesn't fit there.
#[inline(always)]
fn put_before(room: &mut [u8], end: usize, piece: Piece) -> Option<usize>
    requires { end ≤ length room.old }
    ensures within { IfSome result (λ start. start ≤ length room.new) }
    ensures put { IfSome result (λ start. drop start room.new ≡ piece_bytes piece.entry ++ drop end room.old) }
{
    match piece {
        Piece::Text(text) => {
            let start = end.checked_sub(text.len())?;
            room[start..end].copy_from_slice(text.as_bytes());
            Some(start)
        }
        Piece::Number(number) => put_number_before(room, end, u64::try_from(number).ok()?),
    }
}

// Not inlined, so that the loop over a caller's pieces is short enough to be unrolled.
#[inline(never)]
fn put_number_before(room: &mut [u8], end: usize, number: u64) -> Option<usize>
    requires { end ≤ length room.old }
    ensures within { IfSome result (λ start. start ≤ length room.new) }
    ensures put { IfSome result (λ start. drop start room.new ≡ decimal number ++ drop end room.old) }
{
    if end < DIGITS {
        return None;
    }
    Some(itoa::write_digits(number, room, end))
}

// What a first write did not take, where it may go on.
fn write_on<W: Write>(writer: &mut W, first: io::Result<usize>, bytes: &[u8]) -> io::Result<()>
    requires { taken first < length bytes.now }
    ensures all { OnOk result
        (Appends (W.contents writer.old) (W.contents writer.new) (drop (taken first) bytes.now)) }
    ensures part { OnErr result
        (AppendsPart (W.contents writer.old) (W.contents writer.new) (drop (taken first) bytes.now)) }
{
    match first {
        Ok(0) => Err(ErrorKind::WriteZero.into()),
        Ok(count) => write_all(writer, &bytes[count..]),
        Err(error) if error.kind() == ErrorKind::Interrupted => write_all(writer, bytes),
        Err(error) => Err(error),
    }
}

// std's `write_all` says nothing of what was written before an error.
fn write_all<W: Write>(writer: &mut W, bytes: &[u8]) -> io::Result<()>
    ensures all { OnOk result (Appends (W.contents writer.old) (W.contents writer.new) bytes.now) }
    ensures part { OnErr result (AppendsPart (W.contents writer.old) (W.contents writer.new) bytes.now) }
{
    let mut written = 0;
    while written < bytes.len() {
        match write_some(writer, &bytes[written..])? {
            0 => return Err(ErrorKind::WriteZero.into()),
            count => written += count,
        }
    }
    Ok(())
}

// One write, tried again where a signal interrupts it. A function must end, and nothing says that signals do.
fn write_some<W: Write>(writer: &mut W, bytes: &[u8]) -> io::Result<usize>
    ensures bound { WritesAtMost result bytes.now }
    ensures written { WriteAppends (W.contents writer.old) (W.contents writer.new) result bytes.now }
{
    for _ in 0..u64::MAX {
        match writer.write(bytes) {
            Err(error) if error.kind() == ErrorKind::Interrupted => {}
            result => return result,
        }
    }
    Err(ErrorKind::TimedOut.into())
}
