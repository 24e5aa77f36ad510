// A random policy as the check itself reads it: who sees what, who writes where, and how much each compartment holds.
use std::alloc::{AllocError, Global};
use store::Request;

// A number for each place of a view in a policy's numbers.
const VIEW: usize = 16;

// What the policy says of one user.
#[derive(Drop)]
pub(crate) struct Contract {
    pub(crate) view: Vec<u64>,
    pub(crate) writes: u64,
}

// The check goes by these rules, and asks the policy that it tests for nothing: a check is independent of what it
// checks.
#[derive(Drop)]
pub(crate) struct Rules {
    pub(crate) contracts: Vec<Contract>,
    pub(crate) capacities: Vec<u64>,
}

impl Rules {
    pub(crate) fn has_user(&self, user: usize) -> bool {
        user < self.contracts.len()
    }

    pub(crate) fn sees(&self, user: usize, compartment: u64) -> bool {
        let contract = self.contracts.get(user);
        contract.is_some_and(|contract| contract.view.contains(&compartment))
    }

    // The compartment in which the user writes.
    pub(crate) fn written(&self, user: usize) -> Option<u64> {
        Some(self.contracts.get(user)?.writes)
    }

    // The viewer's own request; or a write, delete or copy by a user who writes in a compartment that the viewer sees.
    pub(crate) fn is_relevant(&self, viewer: usize, request: Request) -> bool {
        let user = match request {
            Request::Query { user, .. } => return user == viewer,
            Request::Write { user, .. } => user,
            Request::Delete { user, .. } => user,
            Request::Copy { user, .. } => user,
        };
        let written = self.written(user);
        user == viewer || written.is_some_and(|written| self.sees(viewer, written))
    }

    // The numbers that are read as this policy.
    pub(crate) fn numbers(&self, heap: Global) -> Result<Vec<u64>, AllocError> {
        let mut numbers = Vec::new(heap);
        numbers.push(self.contracts.len() as u64)?;
        numbers.push(self.capacities.len() as u64)?;
        for contract in &self.contracts {
            contract.push_numbers(&mut numbers)?;
        }
        numbers.extend_from_slice(self.capacities.as_slice())?;
        Ok(numbers)
    }
}

impl Contract {
    fn push_numbers(&self, numbers: &mut Vec<u64>) -> Result<(), AllocError> {
        let length = self.view.len();
        numbers.push(length as u64)?;
        numbers.extend_from_slice(self.view.as_slice())?;
        for _ in length..VIEW {
            numbers.push(0)?;
        }
        numbers.push(self.writes)?;
        Ok(())
    }
}
