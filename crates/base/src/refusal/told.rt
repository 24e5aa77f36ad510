// The number and the place of a refusal, and how it is told.
ghost use Rattle.std.specs.Prelude.{◌≡◌, Some};
ghost use Rattle.base.specs.Refusals.{number_of, place_of, refusal_line};

use super::Refusal;
use crate::USERS;
use std::error::Error;
use std::fmt;

impl Refusal {
    /// The number that is told; two cases share 4.
    pub fn number(self) -> u64
        ensures { result ≡ number_of self }
    {
        match self {
            Refusal::OutOfBounds { .. } => 1,
            Refusal::BadView { .. } => 2,
            Refusal::NoRequest { .. } => 3,
            Refusal::NoUser { .. } | Refusal::NoFlow { .. } => 4,
            Refusal::NoRoom { .. } => 5,
            Refusal::NoRow { .. } => 6,
            Refusal::ShortRow { .. } => 7,
            Refusal::LastVersion { .. } => 8,
        }
    }

    /// The place that is told. A compartment whose rows may not be copied comes after the 32 users; the sum is wider
    /// than the compartment, so that it fits whatever that is.
    pub fn place(self) -> u128
        ensures { result ≡ place_of self }
    {
        match self {
            Refusal::OutOfBounds { place: n }
            | Refusal::BadView { user: n }
            | Refusal::NoRequest { place: n }
            | Refusal::NoUser { user: n }
            | Refusal::NoRoom { capacity: n }
            | Refusal::ShortRow { length: n } => n as u128,
            Refusal::LastVersion { compartment } => u128::from(compartment),
            Refusal::NoFlow { compartment } => USERS as u128 + u128::from(compartment),
            Refusal::NoRow { key } => u128::from(key),
        }
    }
}

impl Error for Refusal {}

impl fmt::Display for Refusal {
    ghost output = { λ r. Some (refusal_line r) };

    fn fmt<W: fmt::Write>(&self, f: &mut fmt::Formatter<W>) -> fmt::Result {
        let number = self.number();
        let place = self.place();
        write!(f, "refused {number} at {place}")
    }
}
