ghost use Rattle.std.specs.Prelude.{◌≡◌};
ghost use Rattle.store.specs.Laying.{sizes_fit, lay_out_answer};

use crate::refusal::Refusal;

/// How many entries a store may have, numbered from 0.
pub const MOST_ENTRIES: usize = 64;

/// How many versions a chain may have, at least and at most.
pub const LEAST_DEPTH: usize = 2;

pub const MOST_DEPTH: usize = 200;

/// Which sizes a store may be laid out with.
#[derive(Clone, Copy)]
pub struct SizeLimits {
    pub most_entries: usize,
    pub least_depth: usize,
    pub most_depth: usize,
}

/// What any store may have.
pub const WIDEST: SizeLimits = SizeLimits {
    most_entries: MOST_ENTRIES,
    least_depth: LEAST_DEPTH,
    most_depth: MOST_DEPTH,
};

impl SizeLimits {
    /// Whether a store may be laid out with so many entries of such a depth.
    pub fn fit(self, entries: usize, depth: usize) -> bool
        ensures { result ≡ sizes_fit self entries depth }
    {
        (1..=self.most_entries).contains(&entries)
            && (self.least_depth..=self.most_depth).contains(&depth)
    }

    /// What laying out answers in a store with room for so many versions.
    pub fn check(self, room: usize, entries: usize, depth: usize) -> Result<(), Refusal>
        ensures { result ≡ lay_out_answer self room entries depth }
    {
        if !self.fit(entries, depth) {
            return Err(Refusal::SizeOrSetting);
        }
        // More versions than a number can count fit into no memory.
        match entries.checked_mul(depth) {
            Some(versions) if versions <= room => Ok(()),
            _ => Err(Refusal::MemoryTooShort),
        }
    }
}
