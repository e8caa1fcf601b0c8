// House rules at work, on two pools: under limits that the house sets, and under steps. A write is taken whatever the rule
// thinks of its value; the rule is asked when the edit votes, and one no aborts the edit. Prints what became of each setting,
// what each call answered, and the chains of each pool. Values are in femtoseconds.
#![tactic(auto)]

use anyhow::Context;
use calls::call::Call;
use pool::pool::Pool;
use rules::house::HouseRule;
use rules::range::RangeRule;
use rules::step::StepRule;
use runner::perform::perform;
use std::io;
use store::laying::LayOut;
use store::refusal::Refusal;
use store::text::chain_text;
use store::version::OPENING;
use table::TableStore;

const SEATS: usize = 2;

const ENTRIES: usize = 2;

const DEPTH: usize = 4;

// The entry of a clock's period, and that of its uncertainty.
const PERIOD: usize = 0;

const UNCERTAINTY: usize = 1;

fn main(rt: HostRuntime) -> anyhow::Result<()> {
    under_limits(&rt)?;
    under_steps(&rt)
}

fn under_limits(rt: &HostRuntime) -> anyhow::Result<()> {
    let mut rule = RangeRule::new();
    set_limits(rt, &mut rule, PERIOD, 1_000_000, 1_000_000_000)?;
    set_limits(rt, &mut rule, UNCERTAINTY, 0, 500_000)?;
    // the smallest above the largest: refused, and the limits stay
    set_limits(rt, &mut rule, UNCERTAINTY, 500_000, 0)?;
    let mut pool = open_pool(rt, rule)?;
    // the smallest period and the largest uncertainty that the limits allow
    let allowed = [(PERIOD, 1_000_000), (UNCERTAINTY, 500_000)];
    edit(rt, &mut pool, 0, &allowed, 2)?;
    // one beyond the largest uncertainty: a no, and the vote on the period is not waited for
    let beyond = [(UNCERTAINTY, 500_001), (PERIOD, 2_000_000)];
    edit(rt, &mut pool, 1, &beyond, 1)?;
    show_chains(rt, &pool)
}

fn under_steps(rt: &HostRuntime) -> anyhow::Result<()> {
    let mut rule = StepRule::new();
    set_step(rt, &mut rule, UNCERTAINTY, 100_000)?;
    // longer than the longest step that a house may set
    set_step(rt, &mut rule, UNCERTAINTY, 200_000_000_000_000_001)?;
    let mut pool = open_pool(rt, rule)?;
    // one step up from the opening version
    edit(rt, &mut pool, 0, &[(UNCERTAINTY, 100_000)], 1)?;
    // a period may go as far as it likes, an uncertainty not one more than a step: a yes and a no
    let too_far = [(PERIOD, 2_000_000), (UNCERTAINTY, 200_001)];
    edit(rt, &mut pool, 1, &too_far, 2)?;
    // one step down from the last value of the chain
    edit(rt, &mut pool, 1, &[(UNCERTAINTY, 0)], 1)?;
    show_chains(rt, &pool)
}

fn set_limits(
    rt: &HostRuntime,
    rule: &mut RangeRule,
    entry: usize,
    smallest: i64,
    largest: i64,
) -> io::Result<()> {
    print!(rt; "entry {entry} from {smallest} to {largest}: ")?;
    tell_setting(rt, rule.set(entry, smallest, largest))
}

fn set_step(rt: &HostRuntime, rule: &mut StepRule, entry: usize, step: u64) -> io::Result<()> {
    print!(rt; "entry {entry} by steps of {step}: ")?;
    tell_setting(rt, rule.set(entry, step))
}

fn tell_setting(rt: &HostRuntime, setting: Result<(), Refusal>) -> io::Result<()> {
    match setting {
        Ok(()) => println!(rt; "set"),
        Err(refusal) => println!(rt; "refused {}: {refusal}", refusal.number()),
    }
}

// A new pool under the rule, open.
fn open_pool<R: HouseRule + Drop>(
    rt: &HostRuntime,
    rule: R,
) -> anyhow::Result<Pool<TableStore, R>> {
    let mut store = TableStore::over(vec![in rt.alloc(); OPENING; ENTRIES * DEPTH]?);
    store
        .lay_out(ENTRIES, DEPTH)
        .context("the table could not be laid out")?;
    let mut pool = Pool::new(store, rule);
    pool.open(SEATS).context("the pool could not be opened")?;
    Ok(pool)
}

// One whole edit of a seat: it writes each value to its entry, and is decided once so many of the entries have voted.
fn edit<R: HouseRule>(
    rt: &HostRuntime,
    pool: &mut Pool<TableStore, R>,
    seat: usize,
    values: &[(usize, i64)],
    votes: usize,
) -> io::Result<()> {
    tell(rt, pool, Call::Begin { seat })?;
    for &(entry, value) in values {
        tell(rt, pool, Call::Write { seat, entry, value })?;
    }
    tell(rt, pool, Call::Prepare { seat })?;
    for &(entry, _) in values.iter().take(votes) {
        tell(rt, pool, Call::Vote { seat, entry })?;
    }
    tell(rt, pool, Call::Decide { seat })?;
    for &(entry, _) in values {
        tell(rt, pool, Call::Finish { seat, entry })?;
    }
    tell(rt, pool, Call::Close { seat })
}

// Makes a call, and prints it with its answer.
fn tell<R: HouseRule>(
    rt: &HostRuntime,
    pool: &mut Pool<TableStore, R>,
    call: Call,
) -> io::Result<()> {
    match perform(pool, call) {
        Ok(reply) => println!(rt; "{call}: {reply}"),
        Err(fault) => println!(rt; "{call}: {fault}"),
    }
}

fn show_chains<R: HouseRule>(rt: &HostRuntime, pool: &Pool<TableStore, R>) -> anyhow::Result<()> {
    for entry in 0..ENTRIES {
        let chain = chain_text(rt.alloc(), pool.store(), entry)?;
        print!(rt; "entry {entry}\n{chain}")?;
    }
    Ok(())
}
