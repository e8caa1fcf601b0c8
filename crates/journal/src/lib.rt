// A journal: a writing store over bytes, in which each committed version is one record behind all the others.
#![tactic(auto)]

ghost use Rattle.std.specs.Prelude.{◌≡◌, ℕ, ◌*◌, ◌<◌, ◌≤◌, Some, length, slice_index};
ghost use Rattle.store.specs.Slots.{CountsChains};
ghost use Rattle.record.specs.Numbers.{record_size, journal_reach};
ghost use Rattle.record.specs.Journals.{Journaled, chain_in, last_place, records};

use store::sizes::MOST_ENTRIES;
use store::slots::Slots;

mod layout;
pub mod reading;
pub mod writing;

/// How far from 0 a value may lie, in femtoseconds: six bytes hold it.
pub const REACH: u64 = 140_737_488_355_327;

/// The records lie in the bytes, from their start on, in the order in which they were published. Beside them stand how many they
/// are, and the place of each entry's last.
#[derive(Drop)]
pub struct JournalStore {
    bytes: Vec<u8>,
    count: usize,
    lasts: [u32; MOST_ENTRIES],
    slots: Slots,
    ghost reach: { slots.reach ≡ journal_reach },
    ghost room: { record_size * (slots.entries * slots.depth) ≤ length bytes.items },
    ghost blank: { slots.entries ≡ 0 → count ≡ 0 },
    ghost kept: { 1 ≤ slots.entries → ∥ Journaled slots.entries slots.depth (records bytes.items count) ∥₁ },
    ghost counts: { CountsChains slots (chain_in (records bytes.items count)) },
    ghost found: { (e : ℕ) → e < slots.entries → last_place (records bytes.items count) e ≡ Some (slice_index lasts e) },
}
