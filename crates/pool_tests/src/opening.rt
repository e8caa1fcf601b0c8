use crate::fixture::{a_table, by_number};
use crate::seen::seen_pool;
use calls::call::Call;
use calls::failure::Failure;
use calls::fault::Fault;
use pool::pool::Pool;
use rules::range::RangeRule;
use runner::run::run;
use std::alloc::Global;
use std::test::Fail;
use store::version::{OPENING, Version};
use store::writing::WritingStore;
use table::TableStore;

const STAGED: Version = Version {
    value: 3,
    seat: 4,
    serial: 5,
};

// Over a table with a version staged at entry 1.
fn a_pool(alloc: Global) -> Result<Pool<TableStore, RangeRule>, Fail> {
    let mut table = a_table(alloc, 6, 2, 3)?;
    table.stage(1, STAGED)?;
    Ok(Pool::new(table, RangeRule::new()))
}

// A pool that is not open refuses every call, and one that cannot be opened stays as it was. Opening withdraws what is staged.
#[test]
fn seats(rt: HostRuntime) -> Result<(), Fail> {
    for (seats, opens) in [
        (0, false),
        (1, true),
        (3, true),
        (16, true),
        (17, false),
        (usize::MAX, false),
    ] {
        let mut pool = a_pool(rt.alloc())?;
        let before = seen_pool(&pool);
        assert_eq!(rt; pool.begin(0), Err(Fault::NoSuchSeat));
        let answer = by_number(pool.open(seats));
        assert_eq!(rt; answer, if opens { Ok(()) } else { Err(12) }, "{seats}");
        assert_eq!(rt; seen_pool(&pool) == before, !opens, "{seats}");
        let staged = if opens { None } else { Some(STAGED) };
        assert_eq!(rt; pool.store().staged_at(1), staged, "{seats}");
        // once it is open no other opening is accepted, and after a refused one it can still be opened
        assert_eq!(rt; pool.open(1).is_ok(), !opens, "{seats}");
    }
    Ok(())
}

// An open pool is not opened again, and a number of seats that is out of range changes nothing there.
#[test]
fn opened_once(rt: HostRuntime) -> Result<(), Fail> {
    let mut pool = a_pool(rt.alloc())?;
    pool.open(2)?;
    pool.begin(1)?;
    pool.write(1, 1, 9)?;
    let before = seen_pool(&pool);
    for seats in [0, 1, 2, 3, 17] {
        assert_eq!(rt; pool.open(seats), Err(Fault::CannotOpen));
        assert!(rt; seen_pool(&pool) == before, "{seats}");
    }
    Ok(())
}

// A table that was not laid out has no entries.
#[test]
fn no_entries(rt: HostRuntime) -> Result<(), Fail> {
    for seats in [0, 1, 16, 17] {
        let table = TableStore::over(vec![in rt.alloc(); OPENING; 6]?);
        let mut pool = Pool::new(table, RangeRule::new());
        let before = seen_pool(&pool);
        assert_eq!(rt; pool.open(seats), Err(Fault::CannotOpen));
        assert!(rt; seen_pool(&pool) == before, "{seats}");
    }
    Ok(())
}

// A list of calls on a pool that cannot be opened is not begun.
#[test]
fn a_run(rt: HostRuntime) -> Result<(), Fail> {
    let mut pool = a_pool(rt.alloc())?;
    let before = seen_pool(&pool);
    let calls = [Call::Begin { seat: 0 }];
    let stopped = run(rt.alloc(), &mut pool, 17, &calls).err();
    assert_eq!(rt; stopped, Some(Failure::Refused(Fault::CannotOpen)));
    assert!(rt; seen_pool(&pool) == before);
    assert!(rt; run(rt.alloc(), &mut pool, 1, &calls).is_ok());
    Ok(())
}
