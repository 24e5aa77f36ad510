// A contract of a view, and what the view holds.
ghost use Rattle.std.specs.Prelude.{◌≡◌, ◌≤◌, length};
ghost use Rattle.policy.specs.Rules.{has};
ghost use Rattle.policy.specs.Views.{view_of, writes_of};

use super::Contract;
use base::{ArrayList, COMPARTMENTS};

impl Contract {
    /// A view, and the compartment that is written in; `is_valid` says whether it may stand.
    pub fn new(list: ArrayList<u64, COMPARTMENTS>, writes: u64) -> Contract
        ensures view { view_of result ≡ list.items }
        ensures writes { writes_of result ≡ writes }
    {
        Contract::of(list.as_slice(), writes)
    }

    // The compartments lie at the front of the array, in their order.
    pub(crate) fn of(seen: &[u64], writes: u64) -> Contract
        requires { length seen.now ≤ 16 }
        ensures view { view_of result ≡ seen.now }
        ensures writes { writes_of result ≡ writes }
    {
        let count = seen.len();
        let mut view = [0; COMPARTMENTS];
        view[..count].copy_from_slice(seen);
        Contract {
            count,
            view,
            writes,
        }
    }

    /// The compartments that the user sees.
    pub fn view(&self) -> &[u64]
        ensures value { result.now ≡ view_of self.now }
        ensures few { length result.now ≤ 16 }
    {
        &self.view[..self.count]
    }

    /// The compartment in which the user writes.
    pub fn writes(&self) -> u64
        ensures { result ≡ writes_of self.now }
    {
        self.writes
    }

    /// Whether the user sees a compartment.
    pub fn sees(&self, compartment: u64) -> bool
        ensures { result ≡ has (view_of self.now) compartment }
    {
        self.view().contains(&compartment)
    }
}
