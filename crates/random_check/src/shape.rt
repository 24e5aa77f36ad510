// Random policies.
use crate::random::Random;
use crate::rules::{Contract, Rules};
use std::alloc::{AllocError, Global};

// The largest policy of a trace, said here once more: a check is independent of what it checks.
pub(crate) const USERS: u32 = 32;

pub(crate) const COMPARTMENTS: u32 = 16;

pub(crate) const CAPACITY: u32 = 64;

// The ranges in this file count users, compartments or steps, and index nothing.

// What all contracts of a policy are drawn from.
#[derive(Clone, Copy)]
pub(crate) struct Shape {
    pub(crate) users: u32,
    pub(crate) compartments: u32,
    // Everybody sees the compartments below this one, so that rows may flow from them.
    open: u32,
    // How many of a hundred other compartments a user sees.
    seen: u32,
    // Most compartments have the largest capacity.
    pub(crate) large: bool,
}

impl Shape {
    pub(crate) fn random(random: &mut Random) -> Shape {
        let users = match random.below(20) {
            0 => 1,
            1 => USERS,
            _ => random.between(2, 6),
        };
        let compartments = if random.happens(70) {
            random.between(1, 5)
        } else {
            random.between(1, COMPARTMENTS)
        };
        Shape {
            users,
            compartments,
            open: random.below(3),
            seen: random.below(80),
            large: random.happens(20),
        }
    }

    // The rules of a policy of this shape.
    pub(crate) fn rules(&self, random: &mut Random, heap: Global) -> Result<Rules, AllocError> {
        let contracts = self.contracts(random, heap)?;
        let capacities = self.capacities(random, heap)?;
        Ok(Rules {
            contracts,
            capacities,
        })
    }

    fn contracts(&self, random: &mut Random, heap: Global) -> Result<Vec<Contract>, AllocError> {
        let mut contracts = Vec::new(heap);
        for _ in 0..self.users {
            let writes = self.writes(random);
            let view = self.view(random, writes, heap)?;
            let writes = u64::from(writes);
            contracts.push(Contract { view, writes })?;
        }
        Ok(contracts)
    }

    // Often the first compartment, so that there is much to copy from there.
    fn writes(&self, random: &mut Random) -> u32 {
        if random.happens(30) {
            0
        } else {
            random.below(self.compartments)
        }
    }

    // A view with the compartment in which the user writes, in an order that an odd step around them all gives.
    fn view(&self, random: &mut Random, writes: u32, heap: Global) -> Result<Vec<u64>, AllocError> {
        let mut view = Vec::new(heap);
        let first = random.below(COMPARTMENTS);
        let step = random.below(8).wrapping_mul(2).wrapping_add(1);
        for i in 0..COMPARTMENTS {
            let compartment = first.wrapping_add(step.wrapping_mul(i)) % COMPARTMENTS;
            if self.sees(random, writes, compartment) {
                view.push(u64::from(compartment))?;
            }
        }
        Ok(view)
    }

    fn sees(&self, random: &mut Random, writes: u32, compartment: u32) -> bool {
        if compartment >= self.compartments {
            return false;
        }
        compartment == writes || compartment < self.open || random.happens(self.seen)
    }

    // The smallest, the largest, or one of a few rows.
    fn capacity(&self, random: &mut Random) -> u32 {
        match random.below(10) {
            0 => CAPACITY,
            1 => 1,
            _ if self.large => CAPACITY,
            _ => random.between(2, 9),
        }
    }

    fn capacities(&self, random: &mut Random, heap: Global) -> Result<Vec<u64>, AllocError> {
        let mut capacities = Vec::new(heap);
        for _ in 0..self.compartments {
            let capacity = self.capacity(random);
            capacities.push(u64::from(capacity))?;
        }
        Ok(capacities)
    }
}
