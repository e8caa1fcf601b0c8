use crate::fixture::{a_table, by_number, version};
use crate::seen::seen_pool;
use calls::fault::Fault;
use pool::pool::Pool;
use rules::range::RangeRule;
use std::test::Fail;
use store::writing::WritingStore;

// A seat begins a million edits, and no more; another seat goes on. Wrong state comes before serials that are used up.
#[test]
fn a_million_edits(rt: HostRuntime) -> Result<(), Fail> {
    let mut pool = Pool::new(a_table(rt.alloc(), 2, 1, 2)?, RangeRule::new());
    pool.open(2)?;
    for serial in 1..1_000_000 {
        assert_eq!(rt; pool.begin(0), Ok(serial));
        pool.abort(0)?;
        pool.close(0)?;
    }
    assert_eq!(rt; pool.begin(0), Ok(1_000_000));
    pool.write(0, 0, 7)?;
    assert_eq!(rt; pool.store().staged_at(0), Some(version(7, 0, 1_000_000)));
    let before = seen_pool(&pool);
    assert_eq!(rt; pool.begin(0), Err(Fault::WrongState));
    assert!(rt; seen_pool(&pool) == before);
    pool.abort(0)?;
    pool.finish(0, 0)?;
    pool.close(0)?;
    let before = seen_pool(&pool);
    let answer = by_number(pool.begin(0));
    assert_eq!(rt; answer, Err(4));
    assert!(rt; seen_pool(&pool) == before);
    assert_eq!(rt; pool.begin(1), Ok(1));
    Ok(())
}
