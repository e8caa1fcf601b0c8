use crate::fixture::{OLD, TOO_FAR, version};
use crate::trials::{
    Trial, a_pool, abort, begin, close, decide, expect, finish, prepare, read, vote, write,
};
use calls::answer::Decision;
use calls::answer::Reply::{Decided, Done, Serial, Value, Voted};
use std::test::Fail;
use store::reading::ReadingStore;
use store::version::OPENING;

// Of an idle seat: no such seat comes before no such entry and wrong state; no such entry before wrong state and a value
// that is too far; wrong state before a value that is too far and before a lock that is not held.
#[test]
fn idle(rt: HostRuntime) -> Result<(), Fail> {
    let mut pool = a_pool(rt.alloc())?;
    let trials = [
        (begin(3), Err(1)),
        (begin(16), Err(1)),
        (begin(usize::MAX), Err(1)),
        (read(3, 0), Err(1)),
        (read(3, 2), Err(1)),
        (write(3, 0, TOO_FAR), Err(1)),
        (write(3, 2, TOO_FAR), Err(1)),
        (prepare(3), Err(1)),
        (vote(3, 0), Err(1)),
        (vote(3, 2), Err(1)),
        (decide(3), Err(1)),
        (abort(3), Err(1)),
        (finish(3, 0), Err(1)),
        (finish(3, 2), Err(1)),
        (close(3), Err(1)),
        (read(0, 2), Err(2)),
        (read(0, usize::MAX), Err(2)),
        (write(0, 2, TOO_FAR), Err(2)),
        (vote(0, 2), Err(2)),
        (finish(0, 2), Err(2)),
        (read(0, 0), Err(3)),
        (write(0, 0, TOO_FAR), Err(3)),
        (prepare(0), Err(3)),
        (vote(0, 0), Err(3)),
        (decide(0), Err(3)),
        (abort(0), Err(3)),
        (finish(0, 0), Err(3)),
        (close(0), Err(3)),
    ];
    expect(&rt, &mut pool, &trials);
    Ok(())
}

// What an edit of seat 0 is refused once it is decided, whatever it holds.
fn once_decided() -> [Trial; 8] {
    [
        (begin(0), Err(3)),
        (read(0, 0), Err(3)),
        (write(0, 0, TOO_FAR), Err(3)),
        (prepare(0), Err(3)),
        (vote(0, 0), Err(3)),
        (vote(0, 1), Err(3)),
        (decide(0), Err(3)),
        (abort(0), Err(3)),
    ]
}

// Of a seat that edits, votes and has decided: no such entry comes before a lock that is not held; wrong state before a
// value that is too far, a lock that is not held, a vote that was given, a vote that is missing and a lock that remains.
#[test]
fn under_way(rt: HostRuntime) -> Result<(), Fail> {
    let mut pool = a_pool(rt.alloc())?;
    let trials = [
        (begin(0), Ok(Serial(1))),
        (begin(0), Err(3)),
        (write(0, 2, TOO_FAR), Err(2)),
        (write(0, 0, TOO_FAR), Err(6)),
        (write(0, 0, -TOO_FAR), Err(6)),
        (write(0, 0, 7), Ok(Done)),
        (vote(0, 1), Err(3)),
        (decide(0), Err(3)),
        (finish(0, 1), Err(3)),
        (close(0), Err(3)),
        (prepare(0), Ok(Done)),
        (begin(0), Err(3)),
        (read(0, 0), Err(3)),
        (write(0, 0, TOO_FAR), Err(3)),
        (prepare(0), Err(3)),
        (vote(0, 2), Err(2)),
        (vote(0, 1), Err(8)),
        (decide(0), Err(10)),
        (finish(0, 0), Err(3)),
        (close(0), Err(3)),
        (vote(0, 0), Ok(Voted(true))),
        (vote(0, 0), Err(9)),
        (decide(0), Ok(Decided(Decision::Commit))),
    ];
    expect(&rt, &mut pool, &trials);
    expect(&rt, &mut pool, &once_decided());
    let trials = [
        (finish(0, 2), Err(2)),
        (finish(0, 1), Err(8)),
        (close(0), Err(11)),
        (finish(0, 0), Ok(Done)),
        (finish(0, 0), Err(8)),
        (close(0), Ok(Done)),
    ];
    expect(&rt, &mut pool, &trials);
    let committed = version(7, 0, 1);
    assert_eq!(rt; pool.store().version(0, 1), Some(committed));
    assert_eq!(rt; pool.store().version(1, 1), None);
    assert_eq!(rt;
        pool.store().cells(),
        &[OPENING, committed, OPENING, OLD, OLD][..]
    );
    Ok(())
}

// An edit that was aborted while it voted: it may finish and close, and nothing else. One no aborts whatever is missing.
#[test]
fn aborted(rt: HostRuntime) -> Result<(), Fail> {
    let mut pool = a_pool(rt.alloc())?;
    let trials = [
        (begin(0), Ok(Serial(1))),
        (write(0, 0, 7), Ok(Done)),
        (write(0, 1, 6), Ok(Done)),
        (prepare(0), Ok(Done)),
        (vote(0, 1), Ok(Voted(false))),
        (vote(0, 1), Err(9)),
        (decide(0), Ok(Decided(Decision::Abort))),
    ];
    expect(&rt, &mut pool, &trials);
    expect(&rt, &mut pool, &once_decided());
    let trials = [
        (close(0), Err(11)),
        (finish(0, 1), Ok(Done)),
        (finish(0, 1), Err(8)),
        (close(0), Err(11)),
        (finish(0, 0), Ok(Done)),
        (close(0), Ok(Done)),
        (begin(0), Ok(Serial(2))),
        (read(0, 0), Ok(Value(0))),
        (abort(0), Ok(Done)),
        (abort(0), Err(3)),
        (close(0), Err(11)),
    ];
    expect(&rt, &mut pool, &trials);
    assert_eq!(rt;
        pool.store().cells(),
        &[OPENING, OLD, OPENING, OLD, OLD][..]
    );
    Ok(())
}

// A lock in the way comes after no such seat and wrong state, and before a value that is too far and a chain that is full;
// a value that is too far comes before a chain that is full, and so do no such seat and wrong state.
#[test]
fn locks_reach_and_depth(rt: HostRuntime) -> Result<(), Fail> {
    let mut pool = a_pool(rt.alloc())?;
    let trials = [
        (begin(0), Ok(Serial(1))),
        (write(0, 0, 7), Ok(Done)),
        (read(3, 0), Err(1)),
        (write(3, 0, TOO_FAR), Err(1)),
        (read(1, 0), Err(3)),
        (write(1, 0, TOO_FAR), Err(3)),
        (begin(1), Ok(Serial(1))),
        (read(1, 0), Err(5)),
        (write(1, 0, 1), Err(5)),
        (write(1, 0, TOO_FAR), Err(5)),
        (write(1, 0, -TOO_FAR), Err(5)),
        (prepare(0), Ok(Done)),
        (vote(0, 0), Ok(Voted(true))),
        (decide(0), Ok(Decided(Decision::Commit))),
        (read(1, 0), Err(5)),
        (finish(0, 0), Ok(Done)),
        (close(0), Ok(Done)),
        (write(3, 0, 1), Err(1)),
        (write(3, 0, TOO_FAR), Err(1)),
        (write(0, 0, 1), Err(3)),
        (write(1, 0, 1), Err(7)),
        (write(1, 0, TOO_FAR), Err(6)),
        (write(1, 0, -TOO_FAR), Err(6)),
        (read(1, 0), Ok(Value(7))),
        (write(1, 0, 1), Err(7)),
        (write(1, 0, TOO_FAR), Err(6)),
        (begin(0), Ok(Serial(2))),
        (write(0, 0, 1), Err(5)),
        (write(0, 0, TOO_FAR), Err(5)),
        (read(0, 0), Ok(Value(7))),
        (write(0, 0, 1), Err(5)),
        (write(1, 0, 1), Err(5)),
        (abort(1), Ok(Done)),
        (write(1, 0, TOO_FAR), Err(3)),
        (finish(1, 0), Ok(Done)),
        (write(0, 0, 1), Err(7)),
    ];
    expect(&rt, &mut pool, &trials);
    Ok(())
}
