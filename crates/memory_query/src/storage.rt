// A policy with memory that is as long as it asks for, to read what a query needs.
ghost use Rattle.std.specs.Prelude.{◌≤◌, length};
ghost use Rattle.policy.specs.Access.{memory_length};

use policy::Policy;

// What a query reads; it lends no more than the compartments that they name.
#[derive(Clone, Copy)]
pub(crate) struct Storage<'a> {
    pub(crate) policy: &'a Policy,
    pub(crate) memory: &'a [u64],
    ghost long: { memory_length policy.now ≤ length memory.now },
}
