ghost use Rattle.std.specs.Prelude.{◌≡◌, ◌<◌, ◌↔◌, ◌==◌, not, IsTrue, IsFalse, IsSome, IfSome, IfNone};
ghost use Rattle.pool.specs.Tables.{fresh_table, seat_status, row_at, has_seat, lacks_vote};
ghost use Rattle.pool.specs.Masks.{has_member};
ghost use Rattle.pool.specs.Tables.{voted_status, status_without, with_state, with_edit, with_held_row, with_vote, with_released_row};

use crate::mask::{has_member, with_member, without_member};
use calls::state::State;
use store::sizes::MOST_ENTRIES;
use store::version::MOST_SEATS;

/// What the pool keeps of a seat: the state and the serial of its edit, and three sets of entries as masks with a bit for each
/// entry: those that it holds, those that it has voted on, and those of them where it voted no.
#[derive(Clone, Copy)]
pub struct SeatStatus {
    pub state: State,
    pub serial: u32,
    pub held: u64,
    pub voted: u64,
    pub against: u64,
}

/// The lock of an entry as plain numbers: its writing seat, and its reading seats as a mask. It is plain, so that whoever makes a row
/// owes no proof; a `Lock` is made from it by a check, and put back as a row.
#[derive(Clone, Copy)]
pub struct Row {
    pub writer: Option<u8>,
    pub readers: u64,
}

/// The inner table. Its memory is fixed, so that opening cannot run out of it: the number of seats stands beside room for sixteen.
/// A pool that is not open has no seats, which is the whole difference: every call finds no such seat.
#[derive(Clone, Copy)]
pub struct InnerTable {
    pub seats: usize,
    pub statuses: [SeatStatus; MOST_SEATS],
    pub rows: [Row; MOST_ENTRIES],
}

// A seat for which the table has room.
#[derive(Clone, Copy)]
pub(crate) struct Seat {
    pub number: usize,
    ghost small: { number < 16 },
}

// An entry for which the table has room.
#[derive(Clone, Copy)]
pub(crate) struct Entry {
    pub number: usize,
    ghost small: { number < 64 },
}

impl Seat {
    pub(crate) fn new(number: usize) -> Option<Seat>
        ensures seat { IfSome result (λ seat. seat.number ≡ number) }
        ensures found { IsSome result ↔ (number < 16) }
    {
        if number < MOST_SEATS {
            Some(Seat { number })
        } else {
            None
        }
    }

    // Its number, as versions and rows have it. A cast, which its type proves; `try_from` would leave an error that cannot be.
    pub(crate) fn byte(self) -> u8
        ensures { result ≡ self.number }
    {
        self.number as u8
    }
}

impl Entry {
    pub(crate) fn new(number: usize) -> Option<Entry>
        ensures entry { IfSome result (λ entry. entry.number ≡ number) }
        ensures found { IsSome result ↔ (number < 64) }
    {
        if number < MOST_ENTRIES {
            Some(Entry { number })
        } else {
            None
        }
    }
}

impl Row {
    // Of an entry that no seat holds.
    pub(crate) const UNLOCKED: Row = Row {
        writer: None,
        readers: 0,
    };
}

impl SeatStatus {
    fn set_edit(&mut self, state: State, serial: u32)
        ensures { self.new ≡ record self.old { state = state; serial = serial } }
    {
        self.state = state;
        self.serial = serial;
    }

    fn note_vote(&mut self, entry: Entry, yes: bool)
        ensures { self.new ≡ voted_status self.old entry.number yes }
    {
        self.voted = with_member(self.voted, entry.number);
        self.against = if yes {
            without_member(self.against, entry.number)
        } else {
            with_member(self.against, entry.number)
        };
    }

    fn let_go(&mut self, entry: Entry)
        ensures { self.new ≡ status_without self.old entry.number }
    {
        self.held = without_member(self.held, entry.number);
        self.voted = without_member(self.voted, entry.number);
        self.against = without_member(self.against, entry.number);
    }
}

impl InnerTable {
    // Every seat idle with serial 0, and no entry locked.
    pub(crate) fn fresh(seats: usize) -> InnerTable
        ensures { result ≡ fresh_table seats }
    {
        let idle = SeatStatus {
            state: State::Idle,
            serial: 0,
            held: 0,
            voted: 0,
            against: 0,
        };
        InnerTable {
            seats,
            statuses: [idle; MOST_SEATS],
            rows: [Row::UNLOCKED; MOST_ENTRIES],
        }
    }

    // The seat of this number, where the pool has it.
    pub(crate) fn seat(&self, number: usize) -> Option<Seat>
        ensures seat { IfSome result (λ seat. seat.number ≡ number) }
        ensures found { IfSome result (λ _. IsTrue (has_seat self.now number)) }
        ensures none { IfNone result (IsFalse (has_seat self.now number)) }
    {
        if number < self.seats {
            Seat::new(number)
        } else {
            None
        }
    }

    pub(crate) fn status(&self, seat: Seat) -> SeatStatus
        ensures { result ≡ seat_status self.now seat.number }
    {
        self.statuses[seat.number]
    }

    pub(crate) fn state(&self, seat: Seat) -> State
        ensures { result ≡ (seat_status self.now seat.number).state }
    {
        self.statuses[seat.number].state
    }

    pub(crate) fn serial(&self, seat: Seat) -> u32
        ensures { result ≡ (seat_status self.now seat.number).serial }
    {
        self.statuses[seat.number].serial
    }

    pub(crate) fn has_vote(&self, seat: Seat, entry: Entry) -> bool
        ensures { result ≡ has_member (seat_status self.now seat.number).voted entry.number }
    {
        has_member(self.statuses[seat.number].voted, entry.number)
    }

    // Whether the seat has voted no on some entry.
    pub(crate) fn has_voted_no(&self, seat: Seat) -> bool
        ensures { result ≡ not ((seat_status self.now seat.number).against == 0) }
    {
        self.statuses[seat.number].against != 0
    }

    // Whether it holds an entry that it has not voted on.
    pub(crate) fn lacks_vote(&self, seat: Seat) -> bool
        ensures { result ≡ lacks_vote (seat_status self.now seat.number) }
    {
        let status = &self.statuses[seat.number];
        status.held | status.voted != status.voted
    }

    // Whether it holds some entry.
    pub(crate) fn holds_any(&self, seat: Seat) -> bool
        ensures { result ≡ not ((seat_status self.now seat.number).held == 0) }
    {
        self.statuses[seat.number].held != 0
    }

    pub(crate) fn row(&self, entry: Entry) -> Row
        ensures { result ≡ row_at self.now entry.number }
    {
        self.rows[entry.number]
    }

    pub(crate) fn set_state(&mut self, seat: Seat, state: State)
        ensures { self.new ≡ with_state self.old seat.number state }
    {
        self.statuses[seat.number].state = state;
    }

    pub(crate) fn set_edit(&mut self, seat: Seat, state: State, serial: u32)
        ensures { self.new ≡ with_edit self.old seat.number state serial }
    {
        self.statuses[seat.number].set_edit(state, serial);
    }

    // The row of a lock that the seat now holds.
    pub(crate) fn put_held_row(&mut self, seat: Seat, entry: Entry, row: Row)
        ensures { self.new ≡ with_held_row self.old seat.number entry.number row }
    {
        self.rows[entry.number] = row;
        self.statuses[seat.number].held = with_member(
            self.statuses[seat.number].held,
            entry.number,
        );
    }

    // The row of a lock that the seat has let go of.
    pub(crate) fn put_released_row(&mut self, seat: Seat, entry: Entry, row: Row)
        ensures { self.new ≡ with_released_row self.old seat.number entry.number row }
    {
        self.rows[entry.number] = row;
        self.statuses[seat.number].let_go(entry);
    }

    // Notes the vote of a seat on an entry.
    pub(crate) fn note_vote(&mut self, seat: Seat, entry: Entry, yes: bool)
        ensures { self.new ≡ with_vote self.old seat.number entry.number yes }
    {
        self.statuses[seat.number].note_vote(entry, yes);
    }
}
