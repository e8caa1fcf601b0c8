use crate::fixture::{a_table, by_number};
use crate::seen::seen_pool;
use calls::answer::Reply;
use calls::call::Call;
use pool::pool::Pool;
use rules::range::RangeRule;
use runner::perform::perform;
use std::alloc::Global;
use std::process::Abort;
use std::test::Fail;
use table::TableStore;

// A call, and the answer that it is to get, in which a refusal is told by its number.
pub(crate) type Trial = (Call, Result<Reply, u8>);

pub(crate) fn begin(seat: usize) -> Call {
    Call::Begin { seat }
}

pub(crate) fn read(seat: usize, entry: usize) -> Call {
    Call::Read { seat, entry }
}

pub(crate) fn write(seat: usize, entry: usize, value: i64) -> Call {
    Call::Write { seat, entry, value }
}

pub(crate) fn prepare(seat: usize) -> Call {
    Call::Prepare { seat }
}

pub(crate) fn vote(seat: usize, entry: usize) -> Call {
    Call::Vote { seat, entry }
}

pub(crate) fn decide(seat: usize) -> Call {
    Call::Decide { seat }
}

pub(crate) fn abort(seat: usize) -> Call {
    Call::Abort { seat }
}

pub(crate) fn finish(seat: usize, entry: usize) -> Call {
    Call::Finish { seat, entry }
}

pub(crate) fn close(seat: usize) -> Call {
    Call::Close { seat }
}

// Open for three seats, over two entries of depth 2; entry 1 takes values from -5 to 5.
pub(crate) fn a_pool(alloc: Global) -> Result<Pool<TableStore, RangeRule>, Fail> {
    let mut rule = RangeRule::new();
    rule.set(1, -5, 5)?;
    let mut pool = Pool::new(a_table(alloc, 5, 2, 2)?, rule);
    pool.open(3)?;
    Ok(pool)
}

// Makes the calls in their order, and holds each answer to the one beside it. A refused call has to leave all as it was.
pub(crate) fn expect(rt: &impl Abort, pool: &mut Pool<TableStore, RangeRule>, trials: &[Trial]) {
    for (call, answer) in trials {
        let before = seen_pool(pool);
        let given = by_number(perform(pool, *call));
        assert_eq!(rt; given, *answer, "{call}");
        assert!(rt; answer.is_ok() || seen_pool(pool) == before, "{call}");
    }
}
