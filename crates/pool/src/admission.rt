ghost use Rattle.std.specs.Prelude.{◌≡◌, true, Ok, Err, IfOk, IfErr};
ghost use Rattle.pool.specs.Admissions.{admitted};

use crate::table::{InnerTable, Seat};
use calls::call::CallName;
use calls::fault::Fault;
use calls::state::{State, next_state};
use store::refusal::Refusal;

// A seat whose call has passed the checks, and the state that the call leads to.
#[derive(Clone, Copy)]
pub(crate) struct Admission {
    pub(crate) seat: Seat,
    pub(crate) next: State,
}

// The checks that every call begins with: the seat, then the entry, then the state.
pub(crate) fn admit(
    table: &InnerTable,
    name: CallName,
    seat: usize,
    is_there: bool,
) -> Result<Admission, Fault>
    ensures next { IfOk result (λ found. admitted table.now name seat is_there ≡ Ok found.next) }
    ensures seat { IfOk result (λ found. found.seat.number ≡ seat) }
    ensures entry { IfOk result (λ _. is_there ≡ true) }
    ensures fault { IfErr result (λ fault. admitted table.now name seat is_there ≡ Err fault) }
{
    let seat = table.seat(seat).ok_or(Fault::NoSuchSeat)?;
    if !is_there {
        return Err(Fault::Store(Refusal::NoSuchEntry));
    }
    let next = next_state(name, table.state(seat)).ok_or(Fault::WrongState)?;
    Ok(Admission { seat, next })
}
