// The edge cases on a pool over a table, as calls that are made.
ghost use Rattle.std.specs.Prelude.{◌≡◌, IfOk, IfErr, pos};
ghost use Rattle.calls.specs.declared.failure.Failure.TheVariants.{NoMemory};
ghost use Rattle.pool.specs.Calls.{answer_of, open_pool};
ghost use Rattle.pool.specs.Pools.{state_of, rule_of};
ghost use Rattle.store.specs.Steps.{stage_answer};
ghost use Rattle.table.specs.Stores.{table_writing};
ghost use Rattle.edges.specs.Trials.{calls_of, AreAnswersOf};
ghost use Rattle.edges.specs.Edges.{trials, new_table, limits_of_five, steps_of_five, unopened_pool};

use calls::answer::Answer;
use calls::call::Call;
use calls::failure::Failure;
use calls::fault::Fault;
use pool::pool::Pool;
use rules::house::HouseRule;
use rules::range::RangeRule;
use rules::step::StepRule;
use runner::run::run;
use std::alloc::{AllocError, Global};
use store::laying::LayOut;
use store::refusal::Refusal;
use store::version::{OPENING, Version};
use store::writing::WritingStore;
use table::TableStore;

// Laid out with two entries of depth 2.
fn new_table(alloc: Global) -> Result<TableStore, AllocError>
    ensures { IfOk result (λ table. table_writing table ≡ new_table) }
{
    let mut table = TableStore::over(vec![in alloc; OPENING; 4]?);
    table.lay_out(2, 2).unwrap();
    Ok(table)
}

// A pool over such a table. Entry 1 takes values from -5 to 5.
fn new_pool(alloc: Global) -> Result<Pool<TableStore, RangeRule>, AllocError>
    ensures means { IfOk result (λ pool. state_of pool ≡ unopened_pool) }
    ensures rule { IfOk result (λ pool. rule_of pool ≡ limits_of_five) }
{
    let mut rule = RangeRule::new();
    rule.set(1, -5, 5).unwrap();
    Ok(Pool::new(new_table(alloc)?, rule))
}

// The edge cases that are lists of calls.
#[derive(Clone, Copy, PartialEq, Eq, Debug)]
pub enum Edge {
    FilledChain,
    TwoReaders,
    LoneReader,
    EmptyEdit,
    OneNo,
}

const FILLED_CHAIN: [Call; 9] = [
    Call::Begin { seat: 0 },
    Call::Write {
        seat: 0,
        entry: 0,
        value: 7,
    },
    Call::Prepare { seat: 0 },
    Call::Vote { seat: 0, entry: 0 },
    Call::Decide { seat: 0 },
    Call::Finish { seat: 0, entry: 0 },
    Call::Close { seat: 0 },
    Call::Begin { seat: 0 },
    Call::Write {
        seat: 0,
        entry: 0,
        value: 8,
    },
];

const TWO_READERS: [Call; 6] = [
    Call::Begin { seat: 0 },
    Call::Begin { seat: 1 },
    Call::Read { seat: 0, entry: 0 },
    Call::Read { seat: 1, entry: 0 },
    Call::Write {
        seat: 0,
        entry: 0,
        value: 7,
    },
    Call::Write {
        seat: 1,
        entry: 0,
        value: 7,
    },
];

const LONE_READER: [Call; 4] = [
    Call::Begin { seat: 0 },
    Call::Read { seat: 0, entry: 0 },
    Call::Write {
        seat: 0,
        entry: 0,
        value: 7,
    },
    Call::Read { seat: 0, entry: 0 },
];

const EMPTY_EDIT: [Call; 4] = [
    Call::Begin { seat: 0 },
    Call::Prepare { seat: 0 },
    Call::Decide { seat: 0 },
    Call::Close { seat: 0 },
];

const ONE_NO: [Call; 6] = [
    Call::Begin { seat: 0 },
    Call::Write {
        seat: 0,
        entry: 0,
        value: 7,
    },
    Call::Write {
        seat: 0,
        entry: 1,
        value: 6,
    },
    Call::Prepare { seat: 0 },
    Call::Vote { seat: 0, entry: 1 },
    Call::Decide { seat: 0 },
];

impl Edge {
    // Its calls, in their order.
    pub fn calls(self) -> &'static [Call]
        ensures { result.now ≡ calls_of (trials self) }
    {
        match self {
            Edge::FilledChain => &FILLED_CHAIN,
            Edge::TwoReaders => &TWO_READERS,
            Edge::LoneReader => &LONE_READER,
            Edge::EmptyEdit => &EMPTY_EDIT,
            Edge::OneNo => &ONE_NO,
        }
    }
}

// Makes the calls of an edge case on a new pool for two seats, and answers what they answered.
// It fails for want of memory alone.
pub fn play(alloc: Global, edge: Edge) -> Result<Vec<Answer>, Failure<Fault>>
    ensures answers { IfOk result (λ answers. AreAnswersOf (trials edge) answers.items) }
    ensures failure { IfErr result (λ failure. failure ≡ NoMemory) }
{
    let mut pool = new_pool(alloc)?;
    run(alloc, &mut pool, 2, edge.calls())
}

// Whether a pool that was just made over a table opens for so many seats.
pub fn open_for(alloc: Global, seats: usize) -> Result<Result<(), Fault>, AllocError>
    ensures { IfOk result (λ opening. opening ≡ answer_of (open_pool unopened_pool seats)) }
{
    Ok(new_pool(alloc)?.open(seats))
}

// Stages a version at entry 0 of a table that was just laid out.
pub fn stage_first(alloc: Global, version: Version) -> Result<Result<(), Refusal>, AllocError>
    ensures { IfOk result (λ staging. staging ≡ stage_answer new_table 0 version) }
{
    Ok(new_table(alloc)?.stage(0, version))
}

// Whether a rule by steps, with a step of 5 at entry 1, lets this value follow a 10 there.
pub fn follows_ten(value: i64) -> bool
    ensures { result ≡ steps_of_five 1 (pos 10) value }
{
    let mut rule = StepRule::new();
    rule.set(1, 5).unwrap();
    rule.allows(1, 10, value)
}
