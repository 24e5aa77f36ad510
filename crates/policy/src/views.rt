// A policy from views, places to write and capacities.
ghost use Rattle.std.specs.Prelude.{◌≡◌, ◌++◌, min, take, IfOk};
ghost use Rattle.policy.specs.Numbers.{policy_fault};
ghost use Rattle.policy.specs.Read.{ReadsPolicy, why};
ghost use Rattle.policy.specs.FromViews.{view_numbers, numbers_from_views};

use super::{CAPACITY, COUNTS, Policy, USER};
use base::{ArrayList, COMPARTMENTS, Refusal, USERS};

/// What a user sees, in their own order, and the compartment in which they write.
#[derive(Clone, Copy, PartialEq, Eq, Debug)]
pub struct View<'a> {
    pub sees: &'a [u64],
    pub writes: u64,
}

// No policy has more numbers.
const MOST: usize = COUNTS + USER * USERS + COMPARTMENTS;

impl Policy {
    /// The policy of a view for each user and a capacity for each compartment, judged as the numbers that they stand
    /// for.
    pub fn from_views(views: &[View], capacities: &[u64]) -> Result<Policy, Refusal>
        ensures refused { why result ≡ policy_fault 4096 (numbers_from_views views.now capacities.now) }
        ensures reads { IfOk result (ReadsPolicy (numbers_from_views views.now capacities.now)) }
    {
        Policy::read_views(views, capacities, CAPACITY)
    }

    // With capacities of at most `most` rows, as `read` has it.
    fn read_views(views: &[View], capacities: &[u64], most: u64) -> Result<Policy, Refusal>
        ensures refused { why result ≡ policy_fault (min most 4096) (numbers_from_views views.now capacities.now) }
        ensures reads { IfOk result (ReadsPolicy (numbers_from_views views.now capacities.now)) }
    {
        let numbers = numbers_from(views, capacities);
        Policy::read(numbers.as_slice(), most)
    }
}

// The first numbers of those that views and capacities stand for, as many as a policy has at most.
fn numbers_from(views: &[View], capacities: &[u64]) -> ArrayList<u64, MOST>
    ensures { result.items ≡ take 594 (numbers_from_views views.now capacities.now) }
{
    let mut numbers = ArrayList::new(0);
    numbers.extend(&[views.len() as u64, capacities.len() as u64]);
    for view in views {
        add_view(&mut numbers, *view);
    }
    numbers.extend(capacities);
    numbers
}

// A user's eighteen numbers.
fn add_view(numbers: &mut ArrayList<u64, MOST>, view: View)
    ensures { numbers.new.items ≡ take 594 (numbers.old.items ++ view_numbers view.entry) }
{
    let count = view.sees.len().min(COMPARTMENTS);
    numbers.extend(&[view.sees.len() as u64]);
    numbers.extend(&view.sees[..count]);
    numbers.extend(&[0; COMPARTMENTS][count..]);
    numbers.extend(&[view.writes]);
}

#[cfg(test)]
mod tests {
    use super::*;

    // User 0 sees 0 and 1, user 1 sees 1 alone; each writes in the compartment of their number.
    const FIRST: View = View {
        sees: &[0, 1],
        writes: 0,
    };

    const SECOND: View = View {
        sees: &[1],
        writes: 1,
    };

    // Why views and capacities are refused, if they are.
    fn refusal(views: &[View], capacities: &[u64]) -> Option<Refusal> {
        Policy::from_views(views, capacities).err()
    }

    #[test]
    fn makes_a_policy(rt: HostRuntime) {
        match Policy::from_views(&[FIRST, SECOND], &[3, 2]) {
            Ok(policy) => {
                assert!(rt; policy.contracts().len() == 2);
                assert!(rt; policy.sees(0, 1) && !policy.sees(1, 0));
                assert!(rt; policy.may_flow(1, 0) && !policy.may_flow(0, 1));
                assert!(rt; policy.places().len() == 2 && policy.places()[1].capacity == 2);
            }
            Err(_) => assert!(rt; false),
        }
    }

    #[test]
    fn refuses_views(rt: HostRuntime) {
        let twice = View {
            sees: &[1, 1],
            writes: 1,
        };
        let empty = View {
            sees: &[],
            writes: 0,
        };
        let long = View {
            sees: &[1; 17],
            writes: 1,
        };
        assert_eq!(rt; refusal(&[], &[3]), Some(Refusal::OutOfBounds { place: 0 }));
        assert_eq!(rt;
            refusal(&[FIRST; 33], &[3, 2]),
            Some(Refusal::OutOfBounds { place: 0 })
        );
        assert_eq!(rt;
            refusal(&[FIRST], &[]),
            Some(Refusal::OutOfBounds { place: 1 })
        );
        assert_eq!(rt;
            refusal(&[FIRST], &[3; 17]),
            Some(Refusal::OutOfBounds { place: 1 })
        );
        assert_eq!(rt;
            refusal(&[FIRST, empty], &[3, 2]),
            Some(Refusal::OutOfBounds { place: 20 })
        );
        assert_eq!(rt;
            refusal(&[FIRST, long], &[3, 2]),
            Some(Refusal::OutOfBounds { place: 20 })
        );
        assert_eq!(rt;
            refusal(&[FIRST, SECOND], &[3, 0]),
            Some(Refusal::OutOfBounds { place: 39 })
        );
        assert_eq!(rt;
            refusal(&[FIRST, twice], &[3, 4097]),
            Some(Refusal::OutOfBounds { place: 39 })
        );
        assert_eq!(rt;
            refusal(&[FIRST, twice], &[3, 4096]),
            Some(Refusal::BadView { user: 1 })
        );
        assert_eq!(rt;
            refusal(&[SECOND], &[3]),
            Some(Refusal::BadView { user: 0 })
        );
    }
}
