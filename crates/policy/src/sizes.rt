// How many numbers the users and compartments of a policy take, and the largest capacity. Contracts say these as
// numbers, so that a clause is read by itself.
ghost use Rattle.std.specs.Prelude.{◌≡◌, ◌≤◌};
ghost use Rattle.policy.specs.Numbers.{user_at};

/// The counts of users and of compartments, the first numbers of a policy.
pub const COUNTS: usize = 2;

/// The numbers of a user, after the counts: how many compartments they see, sixteen places for these, and the one in
/// which they write.
pub const USER: usize = 18;

/// The most rows that a compartment may hold.
pub const CAPACITY: u64 = 4096;

/// How many numbers a user's cache takes in memory.
pub const CACHE: usize = 192;

// Where a user's numbers begin among those of a policy; after the last user's follow the capacities.
pub(crate) fn user_at(user: usize) -> usize
    requires { user ≤ 32 }
    ensures { result ≡ user_at user }
{
    COUNTS + USER * user
}
