ghost use Rattle.journal.specs.Stores.{journal_reading};
ghost use Rattle.journal.specs.Laws.{journal_readable};

use crate::JournalStore;
use record::record::{RECORD_SIZE, Record};
use store::reading::ReadingStore;
use store::version::Version;

impl ReadingStore for JournalStore {
    ghost reading = { journal_reading };

    ghost readable = { journal_readable };

    fn entries(&self) -> usize {
        self.slots.entries
    }

    fn depth(&self) -> usize {
        self.slots.depth
    }

    fn reach(&self) -> u64 {
        self.slots.reach
    }

    fn chain_len(&self, entry: usize) -> usize {
        self.slots.len(entry)
    }

    fn version(&self, entry: usize, i: usize) -> Option<Version> {
        let mut before = 0;
        for k in 0..self.count {
            let record = Record::read(&self.bytes, RECORD_SIZE * k)?;
            if usize::from(record.entry) == entry {
                if before == i {
                    return Some(record.version);
                }
                before += 1;
            }
        }
        None
    }
}
