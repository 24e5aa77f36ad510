// Where a compartment lies in memory.

/// Every version is below it.
pub const VERSION_LIMIT: u64 = 1 << 40;

/// Two numbers, its version and its number of rows, then room for its capacity of rows.
#[repr(C)]
#[derive(Clone, Copy, PartialEq, Eq, Debug)]
pub struct Place {
    pub start: usize,
    pub capacity: usize,
}

/// The compartment in which a user writes, and where it lies.
#[derive(Clone, Copy, PartialEq, Eq, Debug)]
pub struct Written {
    pub compartment: u64,
    pub place: Place,
}
