use calls::fault::Fault;
use std::alloc::Global;
use std::test::Fail;
use store::laying::LayOut;
use store::refusal::Refusal;
use store::version::Version;
use table::TableStore;

// As far from 0 as a value may lie, and one farther.
pub(crate) const FAR: i64 = 100_000_000_000_000_000;

pub(crate) const TOO_FAR: i64 = FAR + 1;

// What each cell holds before a table is laid out, to show which are written.
pub(crate) const OLD: Version = Version {
    value: 77,
    seat: 7,
    serial: 777,
};

pub(crate) fn version(value: i64, seat: u8, serial: u32) -> Version {
    Version {
        value,
        seat,
        serial,
    }
}

// A table over so many cells, just laid out.
pub(crate) fn a_table(
    alloc: Global,
    cells: usize,
    entries: usize,
    depth: usize,
) -> Result<TableStore, Fail> {
    let mut table = TableStore::over(vec![in alloc; OLD; cells]?);
    table.lay_out(entries, depth)?;
    Ok(table)
}

// What a store or a house rule answers, with its refusal by its number.
pub(crate) fn number(answer: Result<(), Refusal>) -> Result<(), u8> {
    answer.map_err(|refusal| refusal.number())
}

// What a pool answers, with its refusal by its number.
pub(crate) fn by_number<T>(answer: Result<T, Fault>) -> Result<T, u8> {
    answer.map_err(|fault| fault.number())
}
