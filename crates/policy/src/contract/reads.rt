// A user's contract from the numbers of a policy.
ghost use Rattle.std.specs.Prelude.{◌≡◌, ◌<◌, ◌≤◌, [], length};
ghost use Rattle.policy.specs.Numbers.{users_in};
ghost use Rattle.policy.specs.Read.{Says, Say};
ghost use Rattle.policy.specs.Views.{view_of};

use super::Contract;
use crate::numbers::Numbers;
use crate::sizes::{USER, user_at};
use base::USERS;
use std::array::from_fn;

impl Contract {
    // Whoever is not there sees nothing. What lies after a view is not looked at.
    fn of_user(numbers: &Numbers, user: usize) -> Contract
        ensures there { user < users_in numbers.now.all.now → Says numbers.now.all.now user result }
        ensures absent { users_in numbers.now.all.now ≤ user → (view_of result ≡ []) × (result.writes ≡ 0) }
    {
        if user >= numbers.users {
            return Contract::of(&[], 0);
        }
        let at = user_at(user);
        let all = numbers.all;
        let seen = all[at] as usize;
        Contract::of(&all[at + 1..at + 1 + seen], all[at + USER - 1])
    }

    // The contracts of all users.
    pub(crate) fn of_users(numbers: &Numbers) -> [Contract; USERS]
        ensures long { length result ≡ 32 }
        ensures say { Say numbers.now.all.now (users_in numbers.now.all.now) result }
    {
        from_fn(
            |user: usize| -> Contract
                ensures { user < users_in numbers.entry.now.all.now → Says numbers.entry.now.all.now user result }
            { Contract::of_user(numbers, user) },
        )
    }
}
