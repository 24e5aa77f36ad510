// Copying between two compartments of memory, of which one is read while the other is written.
ghost use Rattle.std.specs.Prelude.{◌≡◌, ◌≤◌, length};
ghost use Rattle.store.specs.Memory.{end};
ghost use Rattle.store.specs.Calls.{Apart, between_result};

use crate::part::part_of;
use base::Refusal;
use compartment::Copying;

// Memory is cut where the one that lies behind begins.
pub(crate) fn between(memory: &mut [u64], copying: Copying) -> Result<(), Refusal>
    requires from { end copying.from ≤ length memory.old }
    requires into { end copying.written.place ≤ length memory.old }
    requires apart { Apart copying.from copying.written.place }
    ensures told { result ≡ (between_result copying memory.old).told }
    ensures after { memory.new ≡ (between_result copying memory.old).memory }
{
    let from = copying.from;
    let into = copying.written.place;
    if from.start < into.start {
        let (before, behind) = memory.split_at_mut(into.start);
        let source = &before[part_of(from)];
        let destination = &mut behind[..2 + 2 * into.capacity];
        return compartment::copy(copying, source, destination);
    }
    let (before, behind) = memory.split_at_mut(from.start);
    let source = &behind[..2 + 2 * from.capacity];
    let destination = &mut before[part_of(into)];
    compartment::copy(copying, source, destination)
}
