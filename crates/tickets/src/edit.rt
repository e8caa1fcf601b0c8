ghost use Rattle.std.specs.Prelude.{◌≡◌, IfOk};
ghost use Rattle.calls.specs.declared.call.Call.TheVariants.{Begin};
ghost use Rattle.pool.specs.Calls.{begin};
ghost use Rattle.pool.specs.Pools.{KeepsStore, Performs};
ghost use Rattle.runner.specs.Runs.{StaysAlone};
ghost use Rattle.tickets.specs.Tickets.{begin_answer, begin_reply, spent_ticket, IsTicketOf, IsUnspent};
ghost use Rattle.tickets.specs.Endings.{settle_calls, settle_outcome, give_up_calls, give_up_outcome, EndsBy};

use crate::open_edit::open_edit;
use crate::outcome::Outcome;
use crate::ticket::Ticket;
use calls::fault::Fault;
use pool::pool::Pool;
use rules::house::HouseRule;
use store::writing::WritingStore;

/// Begins an edit on the seat, and answers its ticket.
pub fn take<S: WritingStore, R: HouseRule>(
    pool: &mut Pool<S, R>,
    seat: usize,
) -> Result<Ticket, Fault>
    ensures begins { Performs pool.old (λ s. begin s seat) (begin_answer result) pool.new }
    ensures store { KeepsStore pool.old pool.new }
    ensures alone { StaysAlone pool.old (Begin seat) (begin_reply result) pool.new }
    ensures ticket { IfOk result (IsTicketOf seat) }
{
    let serial = pool.begin(seat)?;
    Ok(Ticket { seat, serial })
}

/// Makes the calls that are left of the edit: it is committed if every vote is yes, and else aborted. The ticket is spent.
// This and `give_up` differ in the call that they perform; one function for both would have a contract by cases.
pub fn settle<S: WritingStore, R: HouseRule>(pool: &mut Pool<S, R>, ticket: &mut Ticket) -> Outcome
    requires unspent { IsUnspent ticket.old }
    ensures outcome { result ≡ settle_outcome pool.old ticket.old }
    ensures ends { EndsBy pool.old ticket.old (settle_calls pool.old ticket.old) result pool.new }
    ensures spent { ticket.new ≡ spent_ticket ticket.old }
{
    let unsettled = open_edit(pool, ticket.seat, ticket.serial);
    ticket.serial = 0;
    match unsettled {
        Some(edit) => edit.settle(pool),
        None => Outcome::Gone,
    }
}

/// Aborts the edit if it is undecided, and makes the calls that are left of it. The ticket is spent.
pub fn give_up<S: WritingStore, R: HouseRule>(pool: &mut Pool<S, R>, ticket: &mut Ticket) -> Outcome
    requires unspent { IsUnspent ticket.old }
    ensures outcome { result ≡ give_up_outcome pool.old ticket.old }
    ensures ends { EndsBy pool.old ticket.old (give_up_calls pool.old ticket.old) result pool.new }
    ensures spent { ticket.new ≡ spent_ticket ticket.old }
{
    let unwanted = open_edit(pool, ticket.seat, ticket.serial);
    ticket.serial = 0;
    match unwanted {
        Some(edit) => edit.give_up(pool),
        None => Outcome::Gone,
    }
}
