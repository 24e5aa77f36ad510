// Judging the numbers of a policy: the lowest place at fault, and the lowest user with a bad view.
ghost use Rattle.std.specs.Prelude.{◌≡◌, ◌-◌, ◌≤◌, not, length, position, IfOk};
ghost use Rattle.policy.specs.Numbers.{users_in, count_at, within, at_fault, first, view_fault};
ghost use Rattle.policy.specs.Read.{Stand, why};
ghost use Rattle.policy.specs.Views.{valid};

use super::Contract;
use crate::numbers::Numbers;
use crate::sizes::{COUNTS, USER, user_at};
use base::{COMPARTMENTS, Refusal, USERS};

// Hands on the contracts of all users, or leaves with the lowest user whose view may not stand.
pub(crate) fn contracts(numbers: &Numbers) -> Result<[Contract; USERS], Refusal>
    ensures refused { why result ≡ view_fault numbers.now.all.now }
    ensures stand { IfOk result (λ cs. Stand numbers.now.all.now cs) }
{
    let contracts = Contract::of_users(numbers);
    match bad_view(&contracts[..numbers.users], numbers.compartments as u64) {
        Some(user) => Err(Refusal::BadView { user }),
        None => Ok(contracts),
    }
}

// The lowest user whose view may not stand.
fn bad_view(contracts: &[Contract], compartments: u64) -> Option<usize>
    ensures { result ≡ position (λ c. not (valid compartments c)) contracts.now }
{
    contracts
        .iter()
        .position(|contract| !contract.is_valid(compartments))
}

// The number at a place, if there is one from 1 to `high`.
pub(crate) fn count_at(numbers: &[u64], place: usize, high: usize) -> Option<usize>
    ensures { result ≡ count_at numbers.now place high }
{
    let n = *numbers.get(place)?;
    (1..=high as u64).contains(&n).then_some(n as usize)
}

// Numbers whose two counts are within bounds, and the highest capacity that there may be.
#[derive(Clone, Copy)]
pub(crate) struct Counted<'a> {
    pub(crate) all: &'a [u64],
    pub(crate) users: usize,
    pub(crate) most: u64,
    ghost are: { users ≡ users_in all.now },
    ghost few: { users ≤ 32 },
}

impl Counted<'_> {
    // The lowest place after the counts at which a number is missing or out of bounds.
    pub(crate) fn lowest_fault(&self, end: usize) -> Option<usize>
        ensures { result ≡ first (at_fault self.now.most self.now.all.now) 2 (end - 2) }
    {
        (COUNTS..end).find(|place| self.is_fault(*place))
    }

    fn is_fault(&self, place: usize) -> bool
        ensures { result ≡ at_fault self.now.most self.now.all.now place }
    {
        match self.all.get(place) {
            Some(n) => !self.is_within(place, *n),
            None => true,
        }
    }

    // The bounds of the counts and of the capacities; no other number has any. The two counts in front are among
    // them, so that this is asked of any place.
    fn is_within(&self, place: usize, n: u64) -> bool
        ensures { result ≡ within self.now.most self.now.users place n }
    {
        let high = match place {
            0 => USERS as u64,
            1 => COMPARTMENTS as u64,
            _ if place >= user_at(self.users) => self.most,
            _ if (place - COUNTS) % USER == 0 => COMPARTMENTS as u64,
            _ => return true,
        };
        (1..=high).contains(&n)
    }
}
