// Edits of a pool, each under a ticket that is spent on every way out.
use calls::fault::Fault;
use pool::pool::Pool;
use rules::house::HouseRule;
use store::reading::ReadingStore;
use store::writing::WritingStore;
use tickets::edit::{give_up, settle, take};
use tickets::outcome::Outcome;

// Takes an amount from entry 0 and adds it to entry 1, both in one edit; a refusal gives the edit up.
pub(crate) fn move_slack<S: WritingStore, R: HouseRule>(
    pool: &mut Pool<S, R>,
    seat: usize,
    amount: i64,
) -> Result<Outcome, Fault> {
    let mut ticket = take(pool, seat)?;
    if let Err(fault) = write_both(pool, ticket.seat(), amount) {
        give_up(pool, &mut ticket);
        return Err(fault);
    }
    let outcome = settle(pool, &mut ticket);
    Ok(outcome)
}

fn write_both<S: WritingStore, R: HouseRule>(
    pool: &mut Pool<S, R>,
    seat: usize,
    amount: i64,
) -> Result<(), Fault> {
    let giver = pool.read(seat, 0)?;
    let taker = pool.read(seat, 1)?;
    pool.write(seat, 0, giver.saturating_sub(amount))?;
    pool.write(seat, 1, taker.saturating_add(amount))
}

// Seat 1 reads entry 1, and seat 0 tries a move before seat 1 is done. Answers what became of the move and of the look.
pub(crate) fn look_and_move<S: WritingStore, R: HouseRule>(
    pool: &mut Pool<S, R>,
    amount: i64,
) -> (Result<Outcome, Fault>, Result<Outcome, Fault>) {
    let mut ticket = match take(pool, 1) {
        Ok(ticket) => ticket,
        Err(fault) => return (move_slack(pool, 0, amount), Err(fault)),
    };
    let _ = pool.read(1, 1);
    let moved = move_slack(pool, 0, amount);
    (moved, Ok(settle(pool, &mut ticket)))
}

// Someone else aborts and closes the edit: the ticket finds it gone, and is spent all the same.
pub(crate) fn closed_by_hand<S: WritingStore, R: HouseRule>(
    pool: &mut Pool<S, R>,
) -> Result<Outcome, Fault> {
    let mut ticket = take(pool, 1)?;
    let _ = pool.abort(1);
    let _ = pool.close(1);
    Ok(settle(pool, &mut ticket))
}
