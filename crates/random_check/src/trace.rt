// A random trace: a policy, and a list of requests.
use crate::mix::{Call, Mix};
use crate::random::Random;
use crate::rules::Rules;
use crate::shape::{CAPACITY, Shape};
use anyhow::anyhow;
use std::alloc::Global;
use store::Policy;

#[derive(Drop)]
pub(crate) struct Trace {
    pub(crate) rules: Rules,
    pub(crate) policy: Policy,
    pub(crate) calls: Vec<Call>,
}

// A call of a trace, under its policy.
#[derive(Clone, Copy)]
pub(crate) struct Turn<'a> {
    pub(crate) rules: &'a Rules,
    pub(crate) policy: &'a Policy,
    pub(crate) call: Call,
}

impl Trace {
    pub(crate) fn random(random: &mut Random, heap: Global) -> anyhow::Result<Trace> {
        let shape = Shape::random(random);
        let rules = shape.rules(random, heap)?;
        let numbers = rules.numbers(heap)?;
        let policy = Policy::read(numbers.as_slice(), u64::from(CAPACITY)).map_err(
            |refusal| anyhow!("a random policy was refused: {refusal}"),
        )?;
        let calls = Mix::random(random, shape).calls(random, heap)?;
        Ok(Trace {
            rules,
            policy,
            calls,
        })
    }

    pub(crate) fn users(&self) -> usize {
        self.rules.contracts.len()
    }

    pub(crate) fn turn(&self, call: Call) -> Turn<'_> {
        Turn {
            rules: &self.rules,
            policy: &self.policy,
            call,
        }
    }
}
