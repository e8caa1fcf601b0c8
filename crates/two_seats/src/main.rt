// Two engineers and one constraint: runs the calls below on a pool over a table store, prints what each answered,
// and then the chains that they left. Values are in femtoseconds.
#![tactic(auto)]

use anyhow::Context;
use calls::call::Call;
use pool::pool::Pool;
use rules::range::RangeRule;
use runner::run::run;
use std::io;
use store::laying::LayOut;
use store::reading::ReadingStore;
use store::version::OPENING;
use table::TableStore;

const SEATS: usize = 2;

const ENTRIES: usize = 2;

const DEPTH: usize = 4;

const CALLS: [Call; 11] = [
    Call::Begin { seat: 0 },
    Call::Read { seat: 0, entry: 1 },
    Call::Write {
        seat: 0,
        entry: 1,
        value: -3_000_000,
    },
    Call::Begin { seat: 1 },
    // seat 0 has the entry for writing
    Call::Read { seat: 1, entry: 1 },
    Call::Prepare { seat: 0 },
    Call::Vote { seat: 0, entry: 1 },
    Call::Decide { seat: 0 },
    Call::Finish { seat: 0, entry: 1 },
    Call::Read { seat: 1, entry: 1 },
    Call::Close { seat: 0 },
];

fn main(rt: HostRuntime) -> anyhow::Result<()> {
    let mut store = TableStore::over(vec![in rt.alloc(); OPENING; ENTRIES * DEPTH]?);
    store
        .lay_out(ENTRIES, DEPTH)
        .context("the table could not be laid out")?;
    let mut pool = Pool::new(store, RangeRule::new());
    let answers = run(rt.alloc(), &mut pool, SEATS, &CALLS)?;
    for (call, answer) in CALLS.iter().zip(answers.iter()) {
        match answer {
            Ok(reply) => println!(rt; "{call}: {reply}")?,
            Err(fault) => println!(rt; "{call}: {fault}")?,
        }
    }
    for entry in 0..pool.store().entries() {
        println!(rt; "entry {entry}")?;
        show_chain(&rt, pool.store(), entry)?;
    }
    Ok(())
}

// The versions of a chain, a line for each. They are printed one by one, since a text of them all would want memory.
fn show_chain<S: ReadingStore>(rt: &HostRuntime, store: &S, entry: usize) -> io::Result<()> {
    for i in 0..store.chain_len(entry) {
        if let Some(version) = store.version(entry, i) {
            println!(rt; "  {version}")?;
        }
    }
    Ok(())
}
