ghost use Rattle.std.specs.Prelude.{◌≡◌, ◌≤◌, length, Err, IfOk, IfErr, OnErr, vec_len, vec_capacity};
ghost use Rattle.calls.specs.Failures.{IfRefused};
ghost use Rattle.runner.specs.Soundness.{AlwaysSound};
ghost use Rattle.runner.specs.Runs.{AlwaysAlone, IsOpeningFault, PerformsEach, Runs, RunsAlone};

use crate::perform::perform;
use calls::answer::Answer;
use calls::call::Call;
use calls::failure::Failure;
use calls::fault::Fault;
use pool::pool::Pool;
use rules::house::HouseRule;
use std::alloc::Global;
use store::writing::WritingStore;

// Makes the calls in their order; the answers come into memory that is there for them, so that nothing fails midway.
fn perform_each<S: WritingStore, R: HouseRule>(
    pool: &mut Pool<S, R>,
    calls: &[Call],
    answers: &mut Vec<Answer>,
)
    requires empty { vec_len answers.old ≡ 0 }
    requires room { length calls.now ≤ vec_capacity answers.old }
    ensures { PerformsEach pool.old calls.now answers.new.items pool.new }
{
    for call in calls {
        answers.push_reserved(perform(pool, *call));
    }
}

/// Opens the pool and makes the calls on it, in their order. Every edit in them is as if made alone. Where the pool cannot be opened,
/// or there is no memory for the answers, no call is made.
pub fn run<S: WritingStore, R: HouseRule>(
    alloc: Global,
    pool: &mut Pool<S, R>,
    seats: usize,
    calls: &[Call],
) -> Result<Vec<Answer>, Failure<Fault>>
    ensures alone { IfOk result (λ answers. RunsAlone pool.old calls.now answers.items pool.new) }
    ensures runs { IfOk result (λ answers. Runs pool.old seats calls.now answers.items pool.new) }
    ensures refused { IfErr result (IfRefused (IsOpeningFault pool.old seats)) }
    ensures unchanged { OnErr result (pool.new ≡ pool.old) }
{
    let mut answers = Vec::with_capacity(alloc, calls.len())?;
    pool.open(seats)?;
    perform_each(pool, calls, &mut answers);
    Ok(answers)
}

/// Nothing is ever out of order in a pool that was opened and then called, and 5, 8, 9, 10 and 11 come exactly where the table of calls says.
pub fn always_sound()
    ensures { AlwaysSound }
{}

/// The promise holds of whatever opening and calls a pool had, whoever made them.
pub fn always_alone()
    ensures { AlwaysAlone }
{}
