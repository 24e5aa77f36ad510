// How many users and compartments there may be. Contracts say these as numbers, so that a clause is read by itself.

/// The most users that a policy may have.
pub const USERS: usize = 32;

/// The most compartments that a policy may have.
pub const COMPARTMENTS: usize = 16;
