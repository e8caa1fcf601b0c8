ghost use Rattle.table.specs.Stores.{table_staged, stage_leaves, publish_leaves, withdraw_leaves};
ghost use Rattle.table.specs.Laws.{table_writable};

use crate::TableStore;
use store::refusal::Refusal;
use store::version::Version;
use store::writing::WritingStore;

// Publish writes one cell, and the other calls write none.
impl WritingStore for TableStore {
    ghost staged = { table_staged };

    ghost stage_leaves = { stage_leaves };

    ghost publish_leaves = { publish_leaves };

    ghost withdraw_leaves = { withdraw_leaves };

    ghost writable = { table_writable };

    fn staged_at(&self, entry: usize) -> Option<Version> {
        self.slots.staged(entry)
    }

    fn stage(&mut self, entry: usize, version: Version) -> Result<(), Refusal> {
        self.slots.stage(entry, version)
    }

    fn publish(&mut self, entry: usize) -> Result<(), Refusal> {
        let version = self.slots.ready(entry)?;
        self.cells[entry * self.slots.depth + self.slots.len(entry)] = version;
        self.slots.publish(entry);
        Ok(())
    }

    fn withdraw(&mut self, entry: usize) -> Result<(), Refusal> {
        self.slots.withdraw(entry)
    }
}
