// The numbers of a policy once they are judged: none is missing or out of bounds.
ghost use Rattle.std.specs.Prelude.{◌≡◌, ◌≤◌, take, drop, IfOk};
ghost use Rattle.policy.specs.Numbers.{users_in, compartments_in, user_at, place_fault, Fit};
ghost use Rattle.policy.specs.Read.{why};

use crate::judge::{Counted, count_at};
use crate::sizes::user_at;
use base::{COMPARTMENTS, Refusal, USERS};

#[derive(Clone, Copy)]
pub(crate) struct Numbers<'a> {
    pub(crate) all: &'a [u64],
    pub(crate) users: usize,
    pub(crate) compartments: usize,
    ghost users_are: { users ≡ users_in all.now },
    ghost compartments_are: { compartments ≡ compartments_in all.now },
    ghost fit: { Fit all.now },
}

impl<'a> Numbers<'a> {
    // Leaves with the lowest place at fault.
    pub(crate) fn judge(all: &'a [u64], most: u64) -> Result<Numbers<'a>, Refusal>
        requires { most ≤ 4096 }
        ensures refused { why result ≡ place_fault most all.now }
        ensures same { IfOk result (λ n. n.all.now ≡ all.now) }
    {
        let Some(users) = count_at(all, 0, USERS) else {
            return Err(Refusal::OutOfBounds { place: 0 });
        };
        let Some(compartments) = count_at(all, 1, COMPARTMENTS) else {
            return Err(Refusal::OutOfBounds { place: 1 });
        };
        let counted = Counted { all, users, most };
        match counted.lowest_fault(user_at(users) + compartments) {
            Some(place) => Err(Refusal::OutOfBounds { place }),
            None => Ok(Numbers {
                all,
                users,
                compartments,
            }),
        }
    }

    // The capacities follow the users.
    pub(crate) fn capacities(&self) -> &[u64]
        ensures { let all = self.now.all.now in
            result.now ≡ take (compartments_in all) (drop (user_at (users_in all)) all) }
    {
        let all = self.all;
        let at = user_at(self.users);
        &all[at..at + self.compartments]
    }
}
