// The calls that are left of an edit. Each function here makes some of them, in their order. Pool and seat stay two parameters:
// a struct with the `&mut Pool` in it would put two names into every contract where now one stands.
ghost use Rattle.std.specs.Prelude.{◌≡◌, ◌≢◌, IfNone, IfSome};
ghost use Rattle.calls.specs.declared.state.State.TheVariants.{Idle};
ghost use Rattle.pool.specs.Pools.{state_of};
ghost use Rattle.promise.specs.Histories.{decision_said};
ghost use Rattle.tickets.specs.declared.outcome.Outcome.TheVariants.{Gone};
ghost use Rattle.tickets.specs.Lists.{MakesEach};
ghost use Rattle.tickets.specs.Endings.{edit_state, votes_left, finishes_left, finish_and_close, vote_and_decide, settling_calls, giving_up_calls};
ghost use Rattle.tickets.specs.Endings.{holds_lock, owes_vote, outcome_by, voting_outcome, settling_outcome, giving_up_outcome};

use crate::outcome::Outcome;
use calls::answer::{Answer, Decision, Reply};
use calls::call::Call;
use calls::state::State;
use pool::pool::Pool;
use rules::house::HouseRule;
use runner::perform::perform;
use store::reading::ReadingStore;
use store::writing::WritingStore;

// An edit that is not gone: its seat, and the state that it is in.
#[derive(Clone, Copy)]
pub(crate) struct OpenEdit {
    seat: usize,
    state: State,
}

// The edit of a seat and serial; none where the pool has no such seat, or the seat is at another serial.
pub(crate) fn open_edit<S: WritingStore, R: HouseRule>(
    pool: &Pool<S, R>,
    seat: usize,
    serial: u32,
) -> Option<OpenEdit>
    ensures none { IfNone result (edit_state (state_of pool.now) seat serial ≡ Idle) }
    ensures seat { IfSome result (λ edit. edit.seat ≡ seat) }
    ensures edit { IfSome result (λ edit. edit.state ≡ edit_state (state_of pool.now) seat serial) }
{
    let status = pool.status(seat)?;
    if status.serial != serial {
        return None;
    }
    Some(OpenEdit {
        seat,
        state: status.state,
    })
}

// Whether the seat holds the lock of the entry.
fn holds_lock<S: WritingStore, R: HouseRule>(pool: &Pool<S, R>, seat: usize, entry: usize) -> bool
    ensures { result ≡ holds_lock (state_of pool.now) seat entry }
{
    pool.holds(seat, entry)
}

// Whether it holds it and has not voted on the entry.
fn owes_vote<S: WritingStore, R: HouseRule>(pool: &Pool<S, R>, seat: usize, entry: usize) -> bool
    ensures { result ≡ owes_vote (state_of pool.now) seat entry }
{
    holds_lock(pool, seat, entry) && !pool.has_voted(seat, entry)
}

// One loop for this and `finish_all` would want a trait of two ghost members, two functions and a law, and an implementation for
// each: longer than the loop that it would save.
fn vote_all<S: WritingStore, R: HouseRule>(pool: &mut Pool<S, R>, seat: usize)
    ensures { MakesEach pool.old (λ s. votes_left s seat) pool.new }
{
    for entry in 0..pool.store().entries() {
        if owes_vote(pool, seat, entry) {
            let _ = perform(pool, Call::Vote { seat, entry });
        }
    }
}

fn finish_all<S: WritingStore, R: HouseRule>(pool: &mut Pool<S, R>, seat: usize)
    ensures { MakesEach pool.old (λ s. finishes_left s seat) pool.new }
{
    for entry in 0..pool.store().entries() {
        if holds_lock(pool, seat, entry) {
            let _ = perform(pool, Call::Finish { seat, entry });
        }
    }
}

// The calls that are left of a decided edit.
fn finish_and_close<S: WritingStore, R: HouseRule>(pool: &mut Pool<S, R>, seat: usize)
    ensures { MakesEach pool.old (λ s. finish_and_close s seat) pool.new }
{
    finish_all(pool, seat);
    let _ = perform(pool, Call::Close { seat });
}

// What a decide says of the edit.
fn outcome_by(answer: Answer) -> Outcome
    ensures says { result ≡ outcome_by (decision_said answer) }
    ensures not_gone { result ≢ Gone }
{
    match answer {
        Ok(Reply::Decided(Decision::Commit)) => Outcome::Commit,
        _ => Outcome::Abort,
    }
}

// The calls that are left of an edit that votes: the votes that are missing, the decision, and then those of a decided one.
fn vote_and_decide<S: WritingStore, R: HouseRule>(pool: &mut Pool<S, R>, seat: usize) -> Outcome
    ensures outcome { result ≡ voting_outcome pool.old seat }
    ensures calls { MakesEach pool.old (λ s. vote_and_decide s seat) pool.new }
    ensures not_gone { result ≢ Gone }
{
    vote_all(pool, seat);
    let outcome = outcome_by(perform(pool, Call::Decide { seat }));
    finish_and_close(pool, seat);
    outcome
}

impl OpenEdit {
    pub(crate) fn settle<S: WritingStore, R: HouseRule>(self, pool: &mut Pool<S, R>) -> Outcome
        ensures outcome { result ≡ settling_outcome pool.old self.seat self.state }
        ensures calls { MakesEach pool.old (λ s. settling_calls s self.seat self.state) pool.new }
        ensures gone { result ≡ Gone → pool.new ≡ pool.old }
    {
        match self.state {
            State::Idle => Outcome::Gone,
            State::Editing => {
                let _ = perform(pool, Call::Prepare { seat: self.seat });
                vote_and_decide(pool, self.seat)
            }
            State::Voting => vote_and_decide(pool, self.seat),
            State::Commit => {
                finish_and_close(pool, self.seat);
                Outcome::Commit
            }
            State::Abort => {
                finish_and_close(pool, self.seat);
                Outcome::Abort
            }
        }
    }

    pub(crate) fn give_up<S: WritingStore, R: HouseRule>(self, pool: &mut Pool<S, R>) -> Outcome
        ensures outcome { result ≡ giving_up_outcome self.state }
        ensures calls { MakesEach pool.old (λ s. giving_up_calls s self.seat self.state) pool.new }
        ensures gone { result ≡ Gone → pool.new ≡ pool.old }
    {
        match self.state {
            State::Editing | State::Voting => {
                let _ = perform(pool, Call::Abort { seat: self.seat });
                finish_and_close(pool, self.seat);
                Outcome::Abort
            }
            State::Idle | State::Commit | State::Abort => self.settle(pool),
        }
    }
}
