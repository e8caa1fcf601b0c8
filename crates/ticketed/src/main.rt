// Edits that cannot be forgotten: moves slack between two entries of a pool, each move one edit under a ticket,
// and prints what became of each, and then the chains. Values are in femtoseconds.
#![tactic(auto)]

mod moves;

use anyhow::Context;
use calls::fault::Fault;
use moves::{closed_by_hand, look_and_move, move_slack};
use pool::pool::Pool;
use rules::range::RangeRule;
use std::io;
use store::laying::LayOut;
use store::reading::ReadingStore;
use store::version::OPENING;
use table::TableStore;
use tickets::outcome::Outcome;

const SEATS: usize = 2;

const ENTRIES: usize = 2;

const DEPTH: usize = 4;

// Entry 1 may take no value beyond this, on either side.
const LIMIT: i64 = 5_000_000;

fn main(rt: HostRuntime) -> anyhow::Result<()> {
    show(&rt)
}

fn show(rt: &HostRuntime) -> anyhow::Result<()> {
    let mut store = TableStore::over(vec![in rt.alloc(); OPENING; ENTRIES * DEPTH]?);
    store
        .lay_out(ENTRIES, DEPTH)
        .context("the table could not be laid out")?;
    let mut rule = RangeRule::new();
    rule.set(1, -LIMIT, LIMIT)
        .context("the limits do not stand")?;
    let mut pool = Pool::new(store, rule);
    pool.open(SEATS).context("the pool could not be opened")?;
    print!(rt; "move 3000000: ")?;
    tell(rt, move_slack(&mut pool, 0, 3_000_000))?;
    // seat 1 reads entry 1 in an edit of its own, and seat 0 may not write there meanwhile
    let (moved, looked) = look_and_move(&mut pool, 1_000_000);
    print!(rt; "move 1000000 while seat 1 looks: ")?;
    tell(rt, moved)?;
    print!(rt; "look: ")?;
    tell(rt, looked)?;
    // 12000000 is beyond the limit of entry 1
    print!(rt; "move 9000000: ")?;
    tell(rt, move_slack(&mut pool, 0, 9_000_000))?;
    print!(rt; "settle what was closed by hand: ")?;
    tell(rt, closed_by_hand(&mut pool))?;
    print!(rt; "move -1000000: ")?;
    tell(rt, move_slack(&mut pool, 0, -1_000_000))?;
    for entry in 0..pool.store().entries() {
        println!(rt; "entry {entry}")?;
        show_chain(rt, pool.store(), entry)?;
    }
    Ok(())
}

fn tell(rt: &HostRuntime, moved: Result<Outcome, Fault>) -> io::Result<()> {
    match moved {
        Ok(outcome) => println!(rt; "{outcome}"),
        Err(fault) => println!(rt; "{fault}"),
    }
}

// The versions of a chain, a line for each. They are printed one by one, since a text of them all would want memory.
fn show_chain<S: ReadingStore>(rt: &HostRuntime, store: &S, entry: usize) -> io::Result<()> {
    for i in 0..store.chain_len(entry) {
        if let Some(version) = store.version(entry, i) {
            println!(rt; "  {version}")?;
        }
    }
    Ok(())
}
