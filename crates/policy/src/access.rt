// What requests ask of a policy: each answer is a look into a table.
ghost use Rattle.std.specs.Prelude.{◌≡◌, ◌<◌, ◌≤◌, IfOk, IfSome, length, nat_lt};
ghost use Rattle.policy.specs.Rules.{flows};
ghost use Rattle.policy.specs.Access.{users_of, compartments_of, contracts_of, places_of, rules_of, contract_at, place_at, place_in, write_target_at, Inside, cache_at, may_flow, may_see, may_copy, memory_length, length_told};
ghost use Rattle.std.specs.Option.{option_map};

use super::{CACHE, Contract, Place, Policy, Written};
use base::Refusal;

impl Policy {
    /// The contracts of all users, by their numbers.
    pub fn contracts(&self) -> &[Contract]
        ensures { result.now ≡ contracts_of self.now }
    {
        &self.contracts[..self.users]
    }

    /// Where each compartment lies, and how many rows it may hold.
    pub fn places(&self) -> &[Place]
        ensures { result.now ≡ places_of self.now }
    {
        &self.places[..self.compartments]
    }

    /// The contract of a user, if they are there.
    pub fn contract(&self, user: usize) -> Option<&Contract>
        ensures { option_map (λ x. x.now) result ≡ contract_at self.now user }
    {
        self.contracts().get(user)
    }

    /// Whether a user is there.
    pub fn has_user(&self, user: usize) -> bool
        ensures { result ≡ nat_lt user (users_of self.now) }
    {
        user < self.users
    }

    /// Whether the user is there and sees the compartment.
    pub fn sees(&self, user: usize, compartment: u64) -> bool
        ensures { result ≡ may_see (rules_of self.now) user compartment }
    {
        self.contract(user)
            .is_some_and(|contract| contract.sees(compartment))
    }

    /// Whether the user sees the compartment, and its rows may flow to where the user writes.
    #[tactic(auto, using(crate::proofs::Proved::contract_found, crate::proofs::Proved::seen_there, crate::proofs::Proved::written_there))]
    pub fn may_copy(&self, user: usize, compartment: u64) -> bool
        ensures { result ≡ may_copy (rules_of self.now) user compartment }
    {
        let Some(contract) = self.contract(user) else {
            return false;
        };
        let writes = contract.writes() as usize;
        contract.sees(compartment) && self.flow(compartment as usize, writes)
    }

    /// Whether both compartments are there, and everybody who sees b sees a.
    pub fn may_flow(&self, a: u64, b: u64) -> bool
        ensures { result ≡ may_flow self.now a b }
    {
        let compartments = self.compartments as u64;
        a < compartments && b < compartments && self.flow(a as usize, b as usize)
    }

    fn flow(&self, a: usize, b: usize) -> bool
        requires a { a < 16 }
        requires b { b < 16 }
        ensures { result ≡ flows (rules_of self.now) a b }
    {
        self.flows[a][b]
    }

    /// Where a compartment lies, if it is there.
    pub fn place(&self, compartment: u64) -> Option<Place>
        ensures value { result ≡ place_at self.now compartment }
        ensures inside { IfSome result (Inside self.now) }
    {
        if compartment >= self.compartments as u64 {
            return None;
        }
        Some(self.place_in(compartment as usize))
    }

    fn place_in(&self, compartment: usize) -> Place
        requires { compartment < compartments_of self.now }
        ensures value { result ≡ place_in self.now compartment }
        ensures inside { Inside self.now result }
    {
        self.places[compartment]
    }

    /// The compartment in which a user writes, if they are there.
    #[tactic(auto, using(crate::proofs::Proved::written_found))]
    pub fn written(&self, user: usize) -> Option<Written>
        ensures value { result ≡ write_target_at self.now user }
        ensures inside { IfSome result (λ w. Inside self.now w.place) }
    {
        let compartment = self.contract(user)?.writes();
        // It is there, since nobody writes where they see nothing.
        let place = self.place_in(compartment as usize);
        Some(Written { compartment, place })
    }

    /// Where a user's cache begins, if they are there.
    pub fn cache(&self, user: usize) -> Option<usize>
        ensures { result ≡ cache_at self.now user }
    {
        self.has_user(user).then(|| self.caches + CACHE * user)
    }

    /// How long memory must be.
    pub fn memory_length(&self) -> usize
        ensures { result ≡ memory_length self.now }
    {
        self.caches + CACHE * self.users
    }

    /// Refuses memory that is not as long as that.
    pub fn check_length(&self, memory: &[u64]) -> Result<(), Refusal>
        ensures told { result ≡ length_told self.now memory.now }
        ensures long { IfOk result (λ x. memory_length self.now ≤ length memory.now) }
    {
        let place = memory.len();
        if place < self.memory_length() {
            return Err(Refusal::OutOfBounds { place });
        }
        Ok(())
    }
}
