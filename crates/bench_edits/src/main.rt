// Makes edits on a pool over a table store under the range rule, as many as its argument says (64 where there is none), and prints
// one number: the sum of what the calls answered (serials, values, votes for yes, commits), and of the last version of each chain
// (value, seat, serial). `interop/bench_edits` counts the instructions that an edit takes here and on a plain pool in C++.
//
// By hand, for 64 edits: each seat makes four, so the serials are 16 × (1 + 2 + 3 + 4) = 160; each entry is read at 0 and at 1, which is 64;
// 128 votes for yes and 64 commits. Entry e, from 1 on, has value 2 by edit e, and entry 0 by edit 63, the last of seat 15: values 128,
// seats 4 × 120 + 15 = 495, serials 160 + 3 = 163. Together 1202.
#![tactic(auto)]

use anyhow::Context;
use calls::answer::Decision;
use calls::fault::Fault;
use pool::pool::Pool;
use rules::range::RangeRule;
use std::alloc::Global;
use std::env;
use store::latest::last_version;
use store::laying::LayOut;
use store::version::{OPENING, Version};
use table::TableStore;

const SEATS: usize = 16;

const ENTRIES: usize = 64;

const DEPTH: usize = 200;

const EDITS: usize = 64;

// After so many edits every chain is full, and the next ones get a pool of their own: 64 edits in a row add two versions to each entry.
const EDITS_OF_A_POOL: usize = 6_336;

fn main(rt: HostRuntime) -> anyhow::Result<()> {
    let edits = match env::args(&rt)?.nth(1) {
        Some(word) => word
            .parse::<usize>()
            .context("the argument is no number of edits")?,
        None => EDITS,
    };
    let mut sum = 0;
    for first in (0..edits).step_by(EDITS_OF_A_POOL) {
        let some = EDITS_OF_A_POOL.min(edits - first);
        sum = add(sum, sum_of_edits(rt.alloc(), some)?);
    }
    println!(rt; "{sum}")?;
    Ok(())
}

// So many edits on a pool of their own, by each seat in turn: of what they answered and what they left, the sum.
fn sum_of_edits(alloc: Global, edits: usize) -> anyhow::Result<i64> {
    let mut store = TableStore::over(vec![in alloc; OPENING; ENTRIES * DEPTH]?);
    store
        .lay_out(ENTRIES, DEPTH)
        .context("the table could not be laid out")?;
    let mut pool = Pool::new(store, RangeRule::new());
    pool.open(SEATS)?;
    let mut sum = 0;
    for i in 0..edits {
        let one = i % ENTRIES;
        let other = (one + 1 + i / ENTRIES % (ENTRIES - 1)) % ENTRIES;
        sum = add(sum, sum_of_edit(&mut pool, i % SEATS, one, other)?);
    }
    for entry in 0..ENTRIES {
        let Version {
            value,
            seat,
            serial,
        } = last_version(pool.store(), entry);
        sum = add(add(sum, value), add(i64::from(seat), i64::from(serial)));
    }
    Ok(sum)
}

// One edit, which adds one to the value of two entries: its serial, the values that it read, its votes for yes, and one for its commit.
fn sum_of_edit(
    pool: &mut Pool<TableStore, RangeRule>,
    seat: usize,
    one: usize,
    other: usize,
) -> Result<i64, Fault> {
    let serial = pool.begin(seat)?;
    let value = pool.read(seat, one)?;
    pool.write(seat, one, add(value, 1))?;
    let other_value = pool.read(seat, other)?;
    pool.write(seat, other, add(other_value, 1))?;
    pool.prepare(seat)?;
    let vote = pool.vote(seat, one)?;
    let other_vote = pool.vote(seat, other)?;
    let decision = pool.decide(seat)?;
    pool.finish(seat, one)?;
    pool.finish(seat, other)?;
    pool.close(seat)?;
    let values = add(value, other_value);
    let votes = add(i64::from(vote), i64::from(other_vote));
    let commits = i64::from(decision == Decision::Commit);
    Ok(add(add(i64::from(serial), values), add(votes, commits)))
}

fn add(sum: i64, more: i64) -> i64 {
    sum.wrapping_add(more)
}
