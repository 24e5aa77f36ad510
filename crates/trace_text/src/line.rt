// A line of a text: its words, and what stands at their places.
ghost use Rattle.std.specs.Prelude.{◌≡◌, ◌+◌, ◌-◌, ◌<◌, ◌≤◌, Ok, IfOk};
ghost use Rattle.std.specs.Str.{bytes_eq};
ghost use Rattle.request.specs.Decoded.{and_then};
ghost use Rattle.trace_text.specs.Lines.{ends, key_at, kind_at, expect_name, next_at, number_at, some_word, is_silent, number_within};
ghost use Rattle.trace_text.specs.Names.{spelling};
ghost use Rattle.trace_text.specs.Words.{begins_comment, number_of, word_at};

use crate::fault::Reason;
use crate::names::{Name, kind_by_word};
use crate::pieces::{Pieces, is_blank};
use request::Kind;

// Any larger number counts as this one, which is out of all bounds.
const TOO_LARGE: u64 = 0x1_0000_0000;

// The decimal number that a word is, which isn't empty.
// By hand, since `str::parse` takes a `+` in front, and a number too large is none to it, where here it is out of
// bounds.
fn number_of(word: &[u8]) -> Option<u64>
    ensures { result ≡ number_of word.now }
{
    let mut number: u64 = 0;
    for byte in word {
        if !byte.is_ascii_digit() {
            return None;
        }
        number = (10 * number + u64::from(*byte - b'0')).min(TOO_LARGE);
    }
    Some(number)
}

// A missing first byte counts as 0.
fn begins_comment(piece: &[u8]) -> bool
    ensures { result ≡ begins_comment piece.now }
{
    piece.first() == Some(&b'#')
}

// The number by which the word at a place is told: from 1 on.
fn ordinal(place: u8) -> usize
    ensures { result ≡ place + 1 }
{
    usize::from(place) + 1
}

// A line's bytes. Its words count from 0; where none stands, the word is empty.
#[derive(Clone, Copy)]
pub(crate) struct Line<'a> {
    pub(crate) bytes: &'a [u8],
}

impl<'a> Line<'a> {
    // Never inlined: in a function of its own the loop over blanks is short.
    #[inline(never)]
    fn word(self, place: u8) -> &'a [u8]
        ensures { result.now ≡ word_at self.entry.bytes.now place }
    {
        Pieces { rest: self.bytes }
            .take_while(|piece| !begins_comment(piece))
            .nth(usize::from(place))
            .unwrap_or(&[])
    }

    // The word there, which is not empty.
    fn some_word(self, place: u8) -> Result<&'a [u8], Reason>
        ensures { and_then result (λ word. Ok word.now) ≡ some_word self.entry.bytes.now place }
    {
        let word = self.word(place);
        if word.is_empty() {
            return Err(Reason::Missing {
                word: ordinal(place),
            });
        }
        Ok(word)
    }

    // A blank line, or a comment.
    pub(crate) fn is_silent(self) -> bool
        ensures { result ≡ is_silent self.entry.bytes.now }
    {
        let Some(first) = self.bytes.iter().find(|byte| !is_blank(**byte)) else {
            return true;
        };
        *first == b'#'
    }

    pub(crate) fn is_named(self, place: u8, name: Name) -> bool
        ensures { result ≡ bytes_eq (word_at self.entry.bytes.now place) (spelling name) }
    {
        self.word(place) == name.spelling().as_bytes()
    }

    pub(crate) fn expect_name(self, place: u8, name: Name) -> Result<(), Reason>
        ensures { result ≡ expect_name name self.entry.bytes.now place }
    {
        if !self.is_named(place, name) {
            return Err(Reason::Expected { name });
        }
        Ok(())
    }

    // The kind of request that the word there asks for.
    pub(crate) fn kind(self, place: u8) -> Result<Kind, Reason>
        ensures { result ≡ kind_at self.entry.bytes.now place }
    {
        let Some(kind) = kind_by_word(self.some_word(place)?) else {
            return Err(Reason::NotARequest {
                word: ordinal(place),
            });
        };
        Ok(kind)
    }

    pub(crate) fn number(self, place: u8) -> Result<u64, Reason>
        ensures { result ≡ number_at self.entry.bytes.now place }
    {
        let Some(number) = number_of(self.some_word(place)?) else {
            return Err(Reason::NotANumber {
                word: ordinal(place),
            });
        };
        Ok(number)
    }

    // The number there, if it lies within its bounds.
    pub(crate) fn number_within(self, place: u8, low: u64, high: u64) -> Result<u64, Reason>
        ensures value { result ≡ number_within low high self.entry.bytes.now place }
        ensures bounds { IfOk result (λ n. (low ≤ n) × (n ≤ high)) }
    {
        let number = self.number(place)?;
        if number < low || high < number {
            return Err(Reason::OutOfBounds {
                word: ordinal(place),
            });
        }
        Ok(number)
    }

    // The number there, if it is below the bound: that of a user or a compartment.
    pub(crate) fn below(self, place: u8, bound: usize) -> Result<u64, Reason>
        requires { 0 < bound }
        ensures value { result ≡ number_within 0 (bound - 1) self.entry.bytes.now place }
        ensures below { IfOk result (λ n. n < bound) }
    {
        self.number_within(place, 0, bound as u64 - 1)
    }

    // A key or an amount.
    pub(crate) fn key(self, place: u8) -> Result<u32, Reason>
        ensures { result ≡ key_at self.entry.bytes.now place }
    {
        let Ok(key) = u32::try_from(self.number(place)?) else {
            return Err(Reason::OutOfBounds {
                word: ordinal(place),
            });
        };
        Ok(key)
    }

    // The number of a user or a compartment, which has to be the next one.
    pub(crate) fn next_number(self, place: u8, next: usize) -> Result<(), Reason>
        ensures { result ≡ next_at next self.entry.bytes.now place }
    {
        if self.number(place)? != next as u64 {
            return Err(Reason::NotNext { next });
        }
        Ok(())
    }

    // No word stands there any more.
    pub(crate) fn ends(self, place: u8) -> Result<(), Reason>
        ensures { result ≡ ends self.entry.bytes.now place }
    {
        if !self.word(place).is_empty() {
            return Err(Reason::TooMany {
                word: ordinal(place),
            });
        }
        Ok(())
    }
}
