// How numbers lie in bytes: reading them, and writing them.
ghost use Rattle.std.specs.Prelude.{◌≡◌, ◌+◌, ◌≤◌, ◌++◌, length, take, drop, OnOk};
ghost use Rattle.trace_bytes.specs.Bytes.{bytes_by, numbers_in, size};
ghost use Rattle.trace_bytes.specs.NextRequest.{byte_fields, request_layout};

use crate::numbers::{fill, push_numbers};
use request::Field;
use std::alloc::AllocError;

/// So many numbers of a byte each, then so many of `width` bytes each.
#[derive(Clone, Copy)]
pub struct Layout {
    pub single: u16,
    pub wide: u8,
    pub width: u8,
}

fn byte_fields(fields: &[Field]) -> usize
    ensures count { result ≡ byte_fields fields.now }
    ensures few { result ≤ length fields.now }
{
    fields.iter().filter(|field| field.width() == 1).count()
}

impl Layout {
    // That of a request with these fields.
    pub(crate) fn of(fields: &[Field]) -> Layout
        requires { length fields.now ≤ 7 }
        ensures value { result ≡ request_layout fields.now }
        ensures few { result.single + result.wide ≤ 7 }
    {
        let single = byte_fields(fields);
        Layout {
            single: single as u16,
            wide: (fields.len() - single) as u8,
            width: 4,
        }
    }

    // How many bytes all the numbers take.
    pub(crate) fn size(self) -> usize
        ensures { result ≡ size self }
    {
        usize::from(self.single) + usize::from(self.width) * usize::from(self.wide)
    }

    // Fills `numbers` with those that lie in the bytes, as far as they are there, and says how many these are.
    pub(crate) fn fill(self, bytes: &[u8], numbers: &mut [u64]) -> usize
        requires { self.single + self.wide ≤ length numbers.old }
        ensures count { result ≡ length (numbers_in self bytes.now) }
        ensures within { result ≤ length numbers.old }
        ensures after { numbers.new ≡ numbers_in self bytes.now ++ drop result numbers.old }
    {
        let wide = usize::from(self.wide);
        let singles = fill(bytes, 1, &mut numbers[..usize::from(self.single)]);
        let wides = fill(
            &bytes[singles..],
            usize::from(self.width),
            &mut numbers[singles..singles + wide],
        );
        singles + wides
    }

    // The numbers that lie in the bytes, as far as they are there: `numbers` is where they are read to.
    pub(crate) fn read<'a>(self, bytes: &[u8], numbers: &'a mut [u64]) -> &'a [u64]
        requires { self.single + self.wide ≤ length numbers.old }
        ensures { result.now ≡ numbers_in self bytes.now }
    {
        let count = self.fill(bytes, numbers);
        &numbers[..count]
    }

    // Writes as many of the numbers as have a place.
    pub(crate) fn push(self, bytes: &mut Vec<u8>, numbers: &[u64]) -> Result<(), AllocError>
        requires { self.width ≤ 8 }
        ensures { OnOk result (bytes.new.items ≡ bytes.old.items ++ bytes_by self numbers.now) }
    {
        let (single, others) = first_part(numbers, usize::from(self.single));
        let (wide, _) = first_part(others, usize::from(self.wide));
        push_numbers(bytes, 1, single)?;
        push_numbers(bytes, usize::from(self.width), wide)
    }
}

// The first so many numbers, as far as they are there, and the others.
pub(crate) fn first_part(numbers: &[u64], count: usize) -> (&[u64], &[u64])
    ensures first { result.0.now ≡ take count numbers.now }
    ensures others { result.1.now ≡ drop count numbers.now }
{
    numbers.split_at(count.min(numbers.len()))
}
