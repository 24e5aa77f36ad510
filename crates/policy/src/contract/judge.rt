// Whether a user's contract may stand.
ghost use Rattle.std.specs.Prelude.{◌≡◌};
ghost use Rattle.policy.specs.Views.{distinct_below, valid};

use super::Contract;

impl Contract {
    /// Whether the view has no compartment twice, none that is not there, and the one written in.
    pub fn is_valid(&self, compartments: u64) -> bool
        ensures { result ≡ valid compartments self.now }
    {
        let view = self.view();
        is_distinct(view, compartments) && view.contains(&self.writes)
    }
}

fn is_distinct(view: &[u64], compartments: u64) -> bool
    ensures { result ≡ distinct_below compartments view.now }
{
    let mut view = view;
    while let [compartment, rest @ ..] = view {
        if *compartment >= compartments || rest.contains(compartment) {
            return false;
        }
        view = rest;
    }
    true
}
