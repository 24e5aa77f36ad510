// What concerns a user for whom a trace is played.
ghost use Rattle.std.specs.Prelude.{◌≡◌};
ghost use Rattle.model.specs.Model.{lend, relevant};
ghost use Rattle.policy.specs.Access.{rules_of};
ghost use Rattle.trace_player.specs.Printed.{concerns_one, longest_row};

use policy::Policy;
use request::Request;
use trace_items::Item;

// Is this played for the user?
pub(crate) fn concerns(policy: &Policy, user: usize, item: Item) -> bool
    ensures { result ≡ concerns_one (rules_of policy.now) user item }
{
    match item {
        Item::Request { request } => is_relevant(policy, user, request),
        Item::NoRequest { user: other, .. } => other == user,
    }
}

// A request is relevant to its own user, and to whoever sees where it may change something.
fn is_relevant(policy: &Policy, user: usize, request: Request) -> bool
    ensures { result ≡ relevant (rules_of policy.now) user (lend request longest_row) }
{
    let other = request.user();
    if other == user {
        return true;
    }
    !request.is_query()
        && policy
            .written(other)
            .is_some_and(|written| policy.sees(user, written.compartment))
}
