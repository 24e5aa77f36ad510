// What is copied between two compartments, and how many rows both have.
use policy::{Place, Written};
use rows::KeyRange;

/// The rows of a key range, from one compartment into another.
#[derive(Clone, Copy)]
pub struct Copying {
    pub from: Place,
    pub written: Written,
    pub range: KeyRange,
}

// How many rows both have, by name: a pair would not say which is which.
#[derive(Clone, Copy)]
pub struct Counts {
    pub source: usize,
    pub destination: usize,
}
