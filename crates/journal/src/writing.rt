ghost use Rattle.journal.specs.Stores.{journal_staged, stage_leaves, publish_leaves, withdraw_leaves};
ghost use Rattle.journal.specs.Laws.{journal_writable};

use crate::JournalStore;
use crate::layout::put;
use record::record::{RECORD_SIZE, Record};
use store::refusal::Refusal;
use store::version::Version;
use store::writing::WritingStore;

// Publish writes one record behind the others, and the other calls write none.
impl WritingStore for JournalStore {
    ghost staged = { journal_staged };

    ghost stage_leaves = { stage_leaves };

    ghost publish_leaves = { publish_leaves };

    ghost withdraw_leaves = { withdraw_leaves };

    ghost writable = { journal_writable };

    fn staged_at(&self, entry: usize) -> Option<Version> {
        self.slots.staged(entry)
    }

    fn stage(&mut self, entry: usize, version: Version) -> Result<(), Refusal> {
        self.slots.stage(entry, version)
    }

    fn publish(&mut self, entry: usize) -> Result<(), Refusal> {
        let version = self.slots.ready(entry)?;
        let place = RECORD_SIZE * self.count;
        put(
            &mut self.bytes,
            place,
            Record {
                entry: entry as u8,
                version,
                previous: Some(self.lasts[entry]),
            },
        );
        self.count += 1;
        self.lasts[entry] = place as u32;
        self.slots.publish(entry);
        Ok(())
    }

    fn withdraw(&mut self, entry: usize) -> Result<(), Refusal> {
        self.slots.withdraw(entry)
    }
}
