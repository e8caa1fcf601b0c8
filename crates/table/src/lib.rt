// The table store: a writing store over version cells in memory, in which version i of entry e is cell e × depth + i.
#![tactic(auto)]

ghost use Rattle.std.specs.Prelude.{◌≡◌, ℕ, ◌*◌, ◌<◌, ◌≤◌, length, slice_index_or};
ghost use Rattle.store.specs.Meaning.{opening};
ghost use Rattle.table.specs.Cells.{table_reach};

use store::slots::Slots;
use store::version::Version;

mod layout;
pub mod reading;
pub mod writing;

/// How far from 0 a value may lie, in femtoseconds.
pub const REACH: u64 = store::version::FARTHEST;

/// The chains lie in the cells, entry after entry.
#[derive(Drop)]
pub struct TableStore {
    cells: Vec<Version>,
    slots: Slots,
    ghost reach: { slots.reach ≡ table_reach },
    ghost room: { slots.entries * slots.depth ≤ length cells.items },
    ghost first: { (e : ℕ) → e < slots.entries → slice_index_or cells.items (e * slots.depth) opening ≡ opening },
}
