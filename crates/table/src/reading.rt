ghost use Rattle.table.specs.Stores.{table_reading};
ghost use Rattle.table.specs.Laws.{table_readable};

use crate::TableStore;
use store::reading::ReadingStore;
use store::version::Version;

impl ReadingStore for TableStore {
    ghost reading = { table_reading };

    ghost readable = { table_readable };

    fn entries(&self) -> usize {
        self.slots.entries
    }

    fn depth(&self) -> usize {
        self.slots.depth
    }

    fn reach(&self) -> u64 {
        self.slots.reach
    }

    #[tactic(auto, using(crate::specs::Laws::chain_length))]
    fn chain_len(&self, entry: usize) -> usize {
        self.slots.len(entry)
    }

    #[tactic(auto, using(crate::specs::Laws::version_place, crate::specs::Laws::version_at))]
    fn version(&self, entry: usize, i: usize) -> Option<Version> {
        (i < self.chain_len(entry)).then(|| self.cells[entry * self.slots.depth + i])
    }
}
