ghost use Rattle.std.specs.Prelude.{◌≡◌, ℕ, ◌<◌, ◌≤◌};
ghost use Rattle.std.specs.List.{slice_index_or};
ghost use Rattle.store.specs.Numbers.{most_entries, least_depth, most_depth};
ghost use Rattle.store.specs.Slot.{IsSoundSlot, blank_slot};

use crate::refusal::Refusal;
use crate::sizes::{LEAST_DEPTH, MOST_DEPTH, MOST_ENTRIES};
use crate::version::Version;

/// What a store keeps of an entry beside its memory: how many versions its chain has, and what is staged.
#[derive(Clone, Copy)]
pub struct Slot {
    pub len: usize,
    pub staged: Option<Version>,
}

impl Slot {
    /// Of no entry yet.
    pub const BLANK: Slot = Slot {
        len: 0,
        staged: None,
    };

    /// Of an entry just laid out: the opening version alone, and nothing staged.
    pub const LAID_OUT: Slot = Slot {
        len: 1,
        staged: None,
    };
}

/// What a store keeps beside its memory: its sizes, how far from 0 a value may lie, and a slot for each entry. What is staged
/// may be published. Only the first `entries` slots count: they are an array of fixed length, with their number beside it, so
/// that laying out takes no memory and cannot run out of it.
#[derive(Drop)]
pub struct Slots {
    pub entries: usize,
    pub depth: usize,
    pub reach: u64,
    slots: [Slot; MOST_ENTRIES],
    ghost few: { entries ≤ most_entries },
    ghost deep: { least_depth ≤ depth },
    ghost shallow: { depth ≤ most_depth },
    ghost sound: { (e : ℕ) → e < entries → IsSoundSlot depth reach (slice_index_or slots e blank_slot) },
}

impl Slots {
    ghost use Rattle.std.specs.Prelude.{Some, None, OnOk, OnErr};
    ghost use Rattle.store.specs.Slots.{len_at, staged_at, ready_answer, without_version, stage_slots_answer, slots_answer, CountsStaged, Restages, AreLaidOut};

    /// Of a store that is not laid out: no entries.
    pub fn blank(reach: u64) -> Slots
        ensures reach { result.reach ≡ reach }
        ensures entries { result.entries ≡ 0 }
        ensures depth { result.depth ≡ least_depth }
    {
        Slots {
            entries: 0,
            depth: LEAST_DEPTH,
            reach,
            slots: [Slot::BLANK; MOST_ENTRIES],
        }
    }

    /// Gives each entry its opening version alone, and drops what is staged. Refused where no store may have so many entries or
    /// such a depth.
    pub fn lay_out(&mut self, entries: usize, depth: usize) -> Result<(), Refusal>
        ensures answer { result ≡ slots_answer entries depth }
        ensures leaves { OnOk result (AreLaidOut self.old.reach entries depth self.new) }
        ensures refused { OnErr result (self.new ≡ self.old) }
    {
        if entries > MOST_ENTRIES || !(LEAST_DEPTH..=MOST_DEPTH).contains(&depth) {
            return Err(Refusal::SizeOrSetting);
        }
        self.entries = entries;
        self.depth = depth;
        self.slots = [Slot::LAID_OUT; MOST_ENTRIES];
        Ok(())
    }

    /// How many versions the chain of an entry has; 0 where there is no such entry.
    pub fn len(&self, entry: usize) -> usize
        ensures { result ≡ len_at self.now entry }
    {
        self.slots[..self.entries]
            .get(entry)
            .map_or(0, |slot| slot.len)
    }

    /// What is staged beside the chain of an entry.
    pub fn staged(&self, entry: usize) -> Option<Version>
        ensures { result ≡ staged_at self.now entry }
    {
        self.slots[..self.entries].get(entry)?.staged
    }

    /// The version that a publish of an entry adds to its chain, or why it is refused.
    pub fn ready(&self, entry: usize) -> Result<Version, Refusal>
        ensures { result ≡ ready_answer self.now entry }
    {
        self.slots[..self.entries]
            .get(entry)
            .ok_or(Refusal::NoSuchEntry)?
            .staged
            .ok_or(Refusal::NothingStaged)
    }

    /// Stages a version beside the chain of an entry.
    pub fn stage(&mut self, entry: usize, version: Version) -> Result<(), Refusal>
        ensures answer { result ≡ stage_slots_answer self.old entry version }
        ensures leaves { OnOk result (Restages self.old entry (Some version) self.new) }
        ensures refused { OnErr result (self.new ≡ self.old) }
    {
        let slot = self.slots[..self.entries]
            .get(entry)
            .copied()
            .ok_or(Refusal::NoSuchEntry)?;
        if !version.has_author() {
            return Err(Refusal::NoSuchAuthor);
        }
        if !version.is_within(self.reach) {
            return Err(Refusal::ValueBeyondReach);
        }
        if slot.len >= self.depth {
            return Err(Refusal::ChainFull);
        }
        self.slots[entry].staged = Some(version);
        Ok(())
    }

    /// Counts what is staged to the chain of its entry. Where nothing is ready to be published, nothing changes.
    pub fn publish(&mut self, entry: usize)
        ensures ready { OnOk (ready_answer self.old entry) (CountsStaged self.old entry self.new) }
        ensures unready { OnErr (ready_answer self.old entry) (self.new ≡ self.old) }
    {
        if self.ready(entry).is_ok() {
            let len = self.slots[entry].len;
            self.slots[entry] = Slot {
                len: len + 1,
                staged: None,
            };
        }
    }

    /// Drops what is staged beside the chain of an entry.
    pub fn withdraw(&mut self, entry: usize) -> Result<(), Refusal>
        ensures answer { result ≡ without_version (ready_answer self.old entry) }
        ensures leaves { OnOk result (Restages self.old entry None self.new) }
        ensures refused { OnErr result (self.new ≡ self.old) }
    {
        self.ready(entry)?;
        self.slots[entry].staged = None;
        Ok(())
    }
}
