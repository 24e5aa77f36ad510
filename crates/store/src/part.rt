// Where a compartment's numbers lie in memory.
ghost use Rattle.std.specs.Prelude.{◌≡◌, ◌^◌, ◌<◌};
ghost use Rattle.store.specs.Memory.{end};

use policy::Place;
use std::ops::Range;

// The version, the number of rows, and the room for rows. A public method of `Place` for it would have a `requires`.
pub(crate) fn part_of(place: Place) -> Range<usize>
    requires { end place < 2 ^ 64 }
    ensures { result ≡ record { start = place.start; end = end place } }
{
    place.start..place.start + (2 + 2 * place.capacity)
}
