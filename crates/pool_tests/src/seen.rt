use calls::state::State;
use pool::pool::Pool;
use pool::table::SeatStatus;
use rules::house::HouseRule;
use std::array;
use store::reading::ReadingStore;
use store::version::Version;
use store::writing::WritingStore;
use table::TableStore;

// What can be seen of a table of up to three entries of depth 3, in up to eight cells, and of one place past each. The chains
// stand entry after entry.
#[derive(Clone, Copy, PartialEq)]
pub(crate) struct SeenTable {
    entries: usize,
    depth: usize,
    chains: [Option<Version>; 16],
    staged: [Option<Version>; 4],
    cells: [Option<Version>; 9],
}

pub(crate) fn seen_table(table: &TableStore) -> SeenTable {
    SeenTable {
        entries: table.entries(),
        depth: table.depth(),
        chains: array::from_fn(|i| table.version(i / 4, i % 4)),
        staged: array::from_fn(|entry| table.staged_at(entry)),
        cells: array::from_fn(|i| table.cells().get(i).copied()),
    }
}

// What can be seen of a pool over such a table: what it keeps of three seats and of one more (the state, the serial, and the entries
// held, voted on and voted against), which locks they hold and where they have voted, seat after seat, and the table.
#[derive(Clone, Copy, PartialEq)]
pub(crate) struct SeenPool {
    statuses: [Option<(State, u32, [u64; 3])>; 4],
    locks: [bool; 16],
    votes: [bool; 16],
    table: SeenTable,
}

pub(crate) fn seen_pool<R: HouseRule>(pool: &Pool<TableStore, R>) -> SeenPool {
    SeenPool {
        statuses: array::from_fn(|seat| pool.status(seat).map(seen_status)),
        locks: array::from_fn(|i| pool.holds(i / 4, i % 4)),
        votes: array::from_fn(|i| pool.has_voted(i / 4, i % 4)),
        table: seen_table(pool.store()),
    }
}

fn seen_status(status: SeatStatus) -> (State, u32, [u64; 3]) {
    let entries = [status.held, status.voted, status.against];
    (status.state, status.serial, entries)
}
