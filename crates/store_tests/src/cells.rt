use crate::calls::{
    SIZES, authors_and_values, by, laid_out_again, laid_out_twice, laying_out, one_entry,
    the_last_staged, two_entries,
};
use std::alloc::Global;
use std::test::Fail;
use store::version::{OPENING, Version};
use table::TableStore;

// What each cell holds before the store is laid out, to show which are written.
const OLD: Version = Version {
    value: 77,
    seat: 7,
    serial: 777,
};

fn a_table(heap: Global, cells: usize) -> Result<TableStore, Fail> {
    Ok(TableStore::over(vec![in heap; OLD; cells]?))
}

#[test]
fn sizes(rt: HostRuntime) -> Result<(), Fail> {
    for (room, entries, depth, answer) in SIZES {
        let mut store = a_table(rt.alloc(), room)?;
        laying_out(&rt, &mut store, entries, depth, answer);
    }
    Ok(())
}

#[test]
fn staging(rt: HostRuntime) -> Result<(), Fail> {
    let mut store = a_table(rt.alloc(), 2)?;
    authors_and_values(
        &rt,
        &mut store,
        [100_000_000_000_000_000, -100_000_000_000_000_000],
        [100_000_000_000_000_001, -100_000_000_000_000_001],
    );
    assert_eq!(rt; store.cells(), &[OPENING, OLD][..]);
    Ok(())
}

#[test]
fn publishing(rt: HostRuntime) -> Result<(), Fail> {
    let mut store = a_table(rt.alloc(), 5)?;
    laid_out_twice(&rt, &mut store);
    assert_eq!(rt; store.cells(), &[OPENING, OLD, OPENING, OLD, OLD][..]);
    the_last_staged(&rt, &mut store);
    assert_eq!(rt;
        store.cells(),
        &[OPENING, OLD, OPENING, by(0, 1, 6), OLD][..]
    );
    Ok(())
}

// The cell behind those of the chains stays.
#[test]
fn two_chains(rt: HostRuntime) -> Result<(), Fail> {
    let mut store = a_table(rt.alloc(), 5)?;
    two_entries(&rt, &mut store);
    assert_eq!(rt;
        store.cells(),
        &[OPENING, by(2, 1, 500), OPENING, by(7, 3, -1), OLD][..]
    );
    Ok(())
}

#[test]
fn one_chain(rt: HostRuntime) -> Result<(), Fail> {
    let mut store = a_table(rt.alloc(), 3)?;
    let cells = [OPENING, by(1, 1, 2), by(1, 3, 5)];
    one_entry(&rt, &mut store);
    assert_eq!(rt; store.cells(), &cells[..]);
    laid_out_again(&rt, &mut store);
    assert_eq!(rt; store.cells(), &cells[..]);
    Ok(())
}
