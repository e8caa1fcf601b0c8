use crate::fixture::{FAR, TOO_FAR};
use crate::trials::{
    a_pool, abort, begin, close, decide, expect, finish, prepare, read, vote, write,
};
use calls::answer::Decision;
use calls::answer::Reply::{Decided, Done, Serial, Value, Voted};
use std::test::Fail;

#[test]
fn readers_share_and_a_writer_excludes(rt: HostRuntime) -> Result<(), Fail> {
    let mut pool = a_pool(rt.alloc())?;
    let trials = [
        (begin(0), Ok(Serial(1))),
        (begin(1), Ok(Serial(1))),
        (read(0, 0), Ok(Value(0))),
        (read(1, 0), Ok(Value(0))),
        (write(0, 0, 1), Err(5)),
        (write(1, 0, 1), Err(5)),
        (abort(1), Ok(Done)),
        (write(0, 0, 1), Err(5)),
        (finish(1, 0), Ok(Done)),
        (write(0, 0, 1), Ok(Done)),
        (read(0, 0), Ok(Value(1))),
        (write(0, 0, 2), Ok(Done)),
        (read(0, 0), Ok(Value(2))),
        (close(1), Ok(Done)),
        (begin(1), Ok(Serial(2))),
        (read(1, 0), Err(5)),
    ];
    expect(&rt, &mut pool, &trials);
    Ok(())
}

// A value as far from 0 as one may lie is committed, and read by another seat.
#[test]
fn the_largest_value(rt: HostRuntime) -> Result<(), Fail> {
    let mut pool = a_pool(rt.alloc())?;
    let trials = [
        (begin(0), Ok(Serial(1))),
        (write(0, 0, FAR), Ok(Done)),
        (prepare(0), Ok(Done)),
        (vote(0, 0), Ok(Voted(true))),
        (decide(0), Ok(Decided(Decision::Commit))),
        (finish(0, 0), Ok(Done)),
        (close(0), Ok(Done)),
        (begin(1), Ok(Serial(1))),
        (read(1, 0), Ok(Value(FAR))),
    ];
    expect(&rt, &mut pool, &trials);
    Ok(())
}

// Of an idle seat and of one that edits, in the order of the checks: no such seat, no such entry, wrong state.
#[test]
fn seats_and_entries_come_before_states(rt: HostRuntime) -> Result<(), Fail> {
    let mut pool = a_pool(rt.alloc())?;
    let trials = [
        (begin(3), Err(1)),
        (read(3, 2), Err(1)),
        (read(0, 2), Err(2)),
        (read(0, 0), Err(3)),
        (begin(0), Ok(Serial(1))),
        (begin(0), Err(3)),
        (write(0, 2, 0), Err(2)),
        (vote(0, 0), Err(3)),
        (finish(0, 0), Err(3)),
        (decide(0), Err(3)),
        (close(0), Err(3)),
    ];
    expect(&rt, &mut pool, &trials);
    Ok(())
}

// An edit is not decided while votes are missing, and one no aborts it. What it wrote is read by nobody.
#[test]
fn votes_decide(rt: HostRuntime) -> Result<(), Fail> {
    let mut pool = a_pool(rt.alloc())?;
    let trials = [
        (begin(0), Ok(Serial(1))),
        (write(0, 0, 7), Ok(Done)),
        (write(0, 1, 6), Ok(Done)),
        (prepare(0), Ok(Done)),
        (decide(0), Err(10)),
        (vote(0, 1), Ok(Voted(false))),
        (vote(0, 1), Err(9)),
        (decide(0), Ok(Decided(Decision::Abort))),
        (close(0), Err(11)),
        (finish(0, 0), Ok(Done)),
        (finish(0, 0), Err(8)),
        (finish(0, 1), Ok(Done)),
        (close(0), Ok(Done)),
        (begin(0), Ok(Serial(2))),
        (read(0, 0), Ok(Value(0))),
        (read(0, 1), Ok(Value(0))),
    ];
    expect(&rt, &mut pool, &trials);
    Ok(())
}

// An edit with nothing in it commits; then one commit fills a chain of two, which another seat can read and not write.
#[test]
fn commits_fill_a_chain(rt: HostRuntime) -> Result<(), Fail> {
    let mut pool = a_pool(rt.alloc())?;
    let trials = [
        (begin(0), Ok(Serial(1))),
        (prepare(0), Ok(Done)),
        (vote(0, 0), Err(8)),
        (decide(0), Ok(Decided(Decision::Commit))),
        (close(0), Ok(Done)),
        (begin(0), Ok(Serial(2))),
        (write(0, 0, TOO_FAR), Err(6)),
        (write(0, 0, FAR), Ok(Done)),
        (prepare(0), Ok(Done)),
        (vote(0, 0), Ok(Voted(true))),
        (decide(0), Ok(Decided(Decision::Commit))),
        (finish(0, 0), Ok(Done)),
        (close(0), Ok(Done)),
        (begin(1), Ok(Serial(1))),
        (write(1, 0, 1), Err(7)),
        (read(1, 0), Ok(Value(FAR))),
    ];
    expect(&rt, &mut pool, &trials);
    Ok(())
}
