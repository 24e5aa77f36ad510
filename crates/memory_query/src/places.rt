// What memory holds of one compartment: version, number of rows, and rows.
ghost use Rattle.std.specs.Prelude.{◌≡◌};
ghost use Rattle.memory_query.specs.MemoryParts.{version_at, part_at, fault_at};

use crate::storage::Storage;
use policy::{Place, VERSION_LIMIT};

impl<'a> Storage<'a> {
    // How often a compartment was changed, and the place of its version or number of rows if it is out of bounds.
    // The place alone, and no refusal: of several compartments the lowest place is wanted, and refusals have no order.
    // Two comparisons, since each query makes them for all that its user sees.
    pub(crate) fn version_and_fault(&self, compartment: u64) -> (u64, Option<usize>)
        ensures version { result.0 ≡ version_at self.now.policy.now self.now.memory.now compartment }
        ensures fault { result.1 ≡ fault_at self.now.policy.now self.now.memory.now compartment }
    {
        let Some(Place { start, capacity }) = self.policy.place(compartment) else {
            return (0, None);
        };
        let version = self.memory[start];
        if version >= VERSION_LIMIT {
            return (version, Some(start));
        }
        if self.memory[start + 1] > capacity as u64 {
            return (version, Some(start + 1));
        }
        (version, None)
    }

    // The rows, and never more than there is room for: so they need no other check.
    pub(crate) fn rows_of(&self, compartment: u64) -> &'a [u64]
        ensures { result.now ≡ part_at self.now.policy.now self.now.memory.now compartment }
    {
        let Some(Place { start, capacity }) = self.policy.place(compartment) else {
            return &[];
        };
        let count = self.memory[start + 1].min(capacity as u64) as usize;
        &self.memory[start + 2..start + 2 + 2 * count]
    }
}
