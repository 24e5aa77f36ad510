// What one user may do: the compartments that they see, in their own order, and the one in which they write.
ghost use Rattle.std.specs.Prelude.{◌≡◌, ◌≤◌, length};

use base::COMPARTMENTS;

/// What one user may do, laid out as C has it: the first `count` compartments of `view` are the ones that the user
/// sees.
#[repr(C)]
#[derive(Clone, Copy)]
pub struct Contract {
    count: usize,
    view: [u64; COMPARTMENTS],
    writes: u64,
    ghost few: { count ≤ 16 },
    ghost long: { length view ≡ 16 },
}

mod judge;
mod reads;
mod views;
