ghost use Rattle.std.specs.Prelude.{◌≡◌, ◌*◌, ◌≤◌, length};
ghost use Rattle.store.specs.Numbers.{least_depth};
ghost use Rattle.store.specs.Laying.{widest_sizes};
ghost use Rattle.table.specs.Cells.{cells_laid_out, table_laid_out};
ghost use Rattle.table.specs.Stores.{table_writing, table_room, cells_of, lay_out_leaves};

use crate::{REACH, TableStore};
use store::laying::LayOut;
use store::refusal::Refusal;
use store::sizes::WIDEST;
use store::slots::Slots;
use store::version::{OPENING, Version};

impl TableStore {
    /// A store over memory of any length, which stays as it is: no entries until it is laid out.
    pub fn over(cells: Vec<Version>) -> TableStore
        ensures means { table_writing result ≡ table_laid_out 0 least_depth }
        ensures cells { cells_of result ≡ cells.items }
    {
        TableStore {
            cells,
            slots: Slots::blank(REACH),
        }
    }

    /// The memory, cell by cell.
    pub fn cells(&self) -> &[Version]
        ensures { result.now ≡ cells_of self.now }
    {
        self.cells.as_slice()
    }

    /// Gives the memory back.
    pub fn into_cells(self) -> Vec<Version>
        ensures { result.items ≡ cells_of self }
    {
        let TableStore { cells, .. } = self;
        cells
    }
}

impl LayOut for TableStore {
    ghost limits = { widest_sizes };

    ghost room = { table_room };

    ghost lay_out_leaves = { lay_out_leaves };

    fn lay_out(&mut self, entries: usize, depth: usize) -> Result<(), Refusal> {
        WIDEST.check(self.cells.len(), entries, depth)?;
        self.slots.lay_out(entries, depth)?;
        put_openings(&mut self.cells, entries, depth);
        Ok(())
    }
}

// The opening version into the first cell of each entry.
#[tactic(auto, using(crate::proofs::Laid::opened_length, crate::specs::Laws::row_ends))]
fn put_openings(cells: &mut [Version], entries: usize, depth: usize)
    requires deep { least_depth ≤ depth }
    requires room { entries * depth ≤ length cells.old }
    ensures { cells.new ≡ cells_laid_out cells.old entries depth }
{
    // By index: after `chunks_exact_mut` a proof knows how many cells there are, and not what they hold.
    for e in 0..entries {
        cells[e * depth] = OPENING;
    }
}
