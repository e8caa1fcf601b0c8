use crate::calls::{
    SIZES, authors_and_values, laid_out_again, laid_out_twice, laying_out, one_entry,
    the_last_staged, two_entries,
};
use journal::JournalStore;
use std::alloc::Global;
use std::test::Fail;
use store::refusal::Refusal;

// What each byte is before the store is laid out, to show which are written.
const OLD: u8 = 0xAB;

fn a_journal(heap: Global, bytes: usize) -> Result<JournalStore, Fail> {
    Ok(JournalStore::over(vec![in heap; OLD; bytes]?))
}

// Where there is too little memory, one byte less than another record wants.
#[test]
fn sizes(rt: HostRuntime) -> Result<(), Fail> {
    for (room, entries, depth, answer) in SIZES {
        let more = if answer == Err(Refusal::MemoryTooShort) {
            15
        } else {
            0
        };
        let bytes = room.saturating_mul(16).saturating_add(more);
        let mut store = a_journal(rt.alloc(), bytes)?;
        laying_out(&rt, &mut store, entries, depth, answer);
    }
    Ok(())
}

#[test]
fn staging(rt: HostRuntime) -> Result<(), Fail> {
    let mut store = a_journal(rt.alloc(), 32)?;
    authors_and_values(
        &rt,
        &mut store,
        [140_737_488_355_327, -140_737_488_355_327],
        [140_737_488_355_328, -140_737_488_355_328],
    );
    Ok(())
}

#[test]
fn publishing(rt: HostRuntime) -> Result<(), Fail> {
    let mut store = a_journal(rt.alloc(), 95)?;
    laid_out_twice(&rt, &mut store);
    the_last_staged(&rt, &mut store);
    let bytes = [
        0, 255, 0, 0, 0, 0, 0, 0, 0, 0, 0, 0, 255, 255, 255, 255, // entry 0 opens
        1, 255, 0, 0, 0, 0, 0, 0, 0, 0, 0, 0, 255, 255, 255, 255, // entry 1 opens
        1, 0, 1, 0, 0, 0, 6, 0, 0, 0, 0, 0, 16, 0, 0, 0, // 6 by seat 0
        OLD,
    ];
    assert_eq!(rt; store.bytes().get(..49), Some(&bytes[..]));
    Ok(())
}

// The records of two entries stand in the order in which they came, and the byte behind them stays.
#[test]
fn two_chains(rt: HostRuntime) -> Result<(), Fail> {
    let mut store = a_journal(rt.alloc(), 65)?;
    two_entries(&rt, &mut store);
    let bytes = [
        0, 255, 0, 0, 0, 0, 0, 0, 0, 0, 0, 0, 255, 255, 255, 255, // entry 0 opens
        1, 255, 0, 0, 0, 0, 0, 0, 0, 0, 0, 0, 255, 255, 255, 255, // entry 1 opens
        1, 7, 3, 0, 0, 0, 255, 255, 255, 255, 255, 255, 16, 0, 0, 0, // -1 by seat 7
        0, 2, 1, 0, 0, 0, 0xF4, 1, 0, 0, 0, 0, 0, 0, 0, 0, // 500 by seat 2
        OLD,
    ];
    assert_eq!(rt; store.bytes(), &bytes[..]);
    Ok(())
}

// Each record names the one before it, and what is withdrawn leaves none.
#[test]
fn one_chain(rt: HostRuntime) -> Result<(), Fail> {
    let mut store = a_journal(rt.alloc(), 48)?;
    let bytes = [
        0, 255, 0, 0, 0, 0, 0, 0, 0, 0, 0, 0, 255, 255, 255, 255, // opens
        0, 1, 1, 0, 0, 0, 2, 0, 0, 0, 0, 0, 0, 0, 0, 0, // 2 by serial 1
        0, 1, 3, 0, 0, 0, 5, 0, 0, 0, 0, 0, 16, 0, 0, 0, // 5 by serial 3
    ];
    one_entry(&rt, &mut store);
    assert_eq!(rt; store.bytes(), &bytes[..]);
    laid_out_again(&rt, &mut store);
    assert_eq!(rt; store.bytes(), &bytes[..]);
    Ok(())
}
