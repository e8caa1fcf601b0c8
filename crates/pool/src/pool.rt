ghost use Rattle.std.specs.Prelude.{◌≡◌, ◌<◌, ◌≤◌, true, Ok, Err, IfOk, IfErr, OnOk};
ghost use Rattle.pool.specs.Tables.{IsSoundTable};
ghost use Rattle.pool.specs.Withdrawals.{WithdrawsEach};

use crate::admission::{Admission, admit};
use crate::table::{Entry, InnerTable, Seat, SeatStatus};
use calls::answer::Decision;
use calls::call::CallName;
use calls::fault::Fault;
use calls::state::State;
use rules::house::HouseRule;
use store::latest::last_version;
use store::reading::ReadingStore;
use store::version::{LAST_SERIAL, MOST_SEATS, Version};
use store::writing::WritingStore;

/// A store and a house rule, held by value beside a plain table of seats and locks. docs/POOL.md has the calls.
#[derive(Drop)]
pub struct Pool<S: WritingStore, R: HouseRule> {
    store: S,
    rule: R,
    table: InnerTable,
    ghost few: { (S.reading store).entries ≤ 64 },
    ghost sound: { IsSoundTable table },
}

impl<S: WritingStore, R: HouseRule> Pool<S, R> {
    ghost use Rattle.pool.specs.Calls.{open_pool, begin, read, write, prepare, decide, abort, finish, close};
    ghost use Rattle.pool.specs.Calls.{change_state, is_allowed, staged_value};
    ghost use Rattle.pool.specs.Pools.{IsNew, Performs, KeepsStore, StagesInStore, FinishesInStore, WithdrawsAll};
    ghost use Rattle.pool.specs.Pools.{state_of, store_of, rule_of, status, is_holder, has_voted, next_of, next_at, vote_under};

    /// A pool with no seat: it refuses every call until it is opened.
    pub fn new(store: S, rule: R) -> Pool<S, R>
        ensures { IsNew store rule result }
    {
        Pool {
            store,
            rule,
            table: InnerTable::fresh(0),
        }
    }

    /// The store, to look at.
    pub fn store(&self) -> &S
        ensures { result.now ≡ store_of self.now }
    {
        &self.store
    }

    /// What the pool keeps of a seat; none where there is no such seat.
    pub fn status(&self, seat: usize) -> Option<SeatStatus>
        ensures { result ≡ status self.now seat }
    {
        let seat = self.table.seat(seat)?;
        Some(self.table.status(seat))
    }

    /// Whether the seat holds the lock of the entry.
    pub fn holds(&self, seat: usize, entry: usize) -> bool
        ensures { result ≡ is_holder self.now seat entry }
    {
        match (Seat::new(seat), Entry::new(entry)) {
            (Some(seat), Some(entry)) => self.table.row(entry).is_held_by(seat),
            _ => false,
        }
    }

    /// Whether the seat has voted on the entry.
    pub fn has_voted(&self, seat: usize, entry: usize) -> bool
        ensures { result ≡ has_voted self.now seat entry }
    {
        match (Seat::new(seat), Entry::new(entry)) {
            (Some(seat), Some(entry)) => self.table.has_vote(seat, entry),
            _ => false,
        }
    }

    /// Withdraws all that is staged, keeps the chains and sets every seat idle with serial 0.
    pub fn open(&mut self, seats: usize) -> Result<(), Fault>
        ensures opens { Performs self.old (λ s. open_pool s seats) result self.new }
        ensures memory { OnOk result (WithdrawsAll self.old self.new) }
    {
        if seats < 1 || seats > MOST_SEATS || self.store.entries() == 0 || self.table.seats != 0 {
            return Err(Fault::CannotOpen);
        }
        withdraw_all(&mut self.store);
        self.table = InnerTable::fresh(seats);
        Ok(())
    }

    /// Begins an edit, and answers its serial.
    pub fn begin(&mut self, seat: usize) -> Result<u32, Fault>
        ensures begins { Performs self.old (λ s. begin s seat) result self.new }
        ensures store { KeepsStore self.old self.new }
    {
        let Admission { seat, next } = self.admit(CallName::Begin, seat)?;
        let serial = self.table.serial(seat);
        if serial >= LAST_SERIAL {
            return Err(Fault::SerialsUsedUp);
        }
        self.table.set_edit(seat, next, serial + 1);
        Ok(serial + 1)
    }

    /// Reads an entry under a lock shared with other readers. The value is a number of femtoseconds.
    pub fn read(&mut self, seat: usize, entry: usize) -> Result<i64, Fault>
        ensures reads { Performs self.old (λ s. read s seat entry) result self.new }
        ensures store { KeepsStore self.old self.new }
    {
        let (Admission { seat, .. }, entry) = self.admit_at(CallName::Read, seat, entry)?;
        let row = self.table.row(entry).shared(seat)?;
        let value = if row.is_written_by(seat) {
            self.staged_version(entry).value
        } else {
            last_version(&self.store, entry.number).value
        };
        self.table.put_held_row(seat, entry, row);
        Ok(value)
    }

    /// Writes a number of femtoseconds to an entry, under a lock that nobody shares.
    pub fn write(&mut self, seat: usize, entry: usize, value: i64) -> Result<(), Fault>
        ensures writes { Performs self.old (λ s. write s seat entry value) result self.new }
        ensures memory { OnOk result (StagesInStore self.old seat entry value self.new) }
    {
        let (Admission { seat, .. }, entry) = self.admit_at(CallName::Write, seat, entry)?;
        let row = self.table.row(entry).claimed(seat)?;
        let version = Version {
            value,
            seat: seat.byte(),
            serial: self.table.serial(seat),
        };
        self.store.stage(entry.number, version)?;
        self.table.put_held_row(seat, entry, row);
        Ok(())
    }

    /// Ends the reading and writing of an edit, and opens its voting.
    pub fn prepare(&mut self, seat: usize) -> Result<(), Fault>
        ensures prepares { Performs self.old (λ s. prepare s seat) result self.new }
        ensures store { KeepsStore self.old self.new }
    {
        self.change_state(CallName::Prepare, seat)
    }

    /// Votes on an entry that the seat holds, and answers whether the vote is yes.
    #[inline(always)]
    pub fn vote(&mut self, seat: usize, entry: usize) -> Result<bool, Fault>
        ensures votes { Performs self.old (λ s. vote_under self.old s seat entry) result self.new }
        ensures store { KeepsStore self.old self.new }
    {
        let (Admission { seat, .. }, entry) = self.admit_at(CallName::Vote, seat, entry)?;
        let row = self.table.row(entry);
        if !row.is_held_by(seat) {
            return Err(Fault::NoLock);
        }
        if self.table.has_vote(seat, entry) {
            return Err(Fault::VotedAlready);
        }
        let yes = !row.is_written_by(seat) || self.rule_allows_staged(entry);
        self.table.note_vote(seat, entry, yes);
        Ok(yes)
    }

    /// Decides an edit by its votes, and answers how.
    pub fn decide(&mut self, seat: usize) -> Result<Decision, Fault>
        ensures decides { Performs self.old (λ s. decide s seat) result self.new }
        ensures store { KeepsStore self.old self.new }
    {
        let Admission { seat, next } = self.admit(CallName::Decide, seat)?;
        if self.table.has_voted_no(seat) {
            self.table.set_state(seat, State::Abort);
            return Ok(Decision::Abort);
        }
        if self.table.lacks_vote(seat) {
            return Err(Fault::VotesMissing);
        }
        self.table.set_state(seat, next);
        Ok(Decision::Commit)
    }

    /// Decides an edit to be aborted, before its votes or after them.
    pub fn abort(&mut self, seat: usize) -> Result<(), Fault>
        ensures aborts { Performs self.old (λ s. abort s seat) result self.new }
        ensures store { KeepsStore self.old self.new }
    {
        self.change_state(CallName::Abort, seat)
    }

    /// Publishes or withdraws what a decided edit wrote to an entry, and lets go of the entry.
    #[inline(always)]
    pub fn finish(&mut self, seat: usize, entry: usize) -> Result<(), Fault>
        ensures finishes { Performs self.old (λ s. finish s seat entry) result self.new }
        ensures memory { OnOk result (FinishesInStore self.old seat entry self.new) }
    {
        let (Admission { seat, next }, entry) = self.admit_at(CallName::Finish, seat, entry)?;
        let row = self.table.row(entry);
        if !row.is_held_by(seat) {
            return Err(Fault::NoLock);
        }
        if !row.is_written_by(seat) {
            self.table.put_released_row(seat, entry, row.released(seat));
            return Ok(());
        }
        match next {
            State::Commit => self.store.publish(entry.number)?,
            _ => self.store.withdraw(entry.number)?,
        }
        self.table.put_released_row(seat, entry, row.released(seat));
        Ok(())
    }

    /// Closes a decided edit that holds nothing any more.
    pub fn close(&mut self, seat: usize) -> Result<(), Fault>
        ensures closes { Performs self.old (λ s. close s seat) result self.new }
        ensures store { KeepsStore self.old self.new }
    {
        let Admission { seat, next } = self.admit(CallName::Close, seat)?;
        if self.table.holds_any(seat) {
            return Err(Fault::LocksRemain);
        }
        self.table.set_state(seat, next);
        Ok(())
    }

    // A call that only leads to another state.
    fn change_state(&mut self, name: CallName, seat: usize) -> Result<(), Fault>
        ensures changes { Performs self.old (λ s. change_state name s seat) result self.new }
        ensures store { KeepsStore self.old self.new }
    {
        let Admission { seat, next } = self.admit(name, seat)?;
        self.table.set_state(seat, next);
        Ok(())
    }

    // The checks of a call on no entry.
    fn admit(&self, name: CallName, seat: usize) -> Result<Admission, Fault>
        ensures next { IfOk result (λ found. next_of self.now name seat ≡ Ok found.next) }
        ensures seat { IfOk result (λ found. found.seat.number ≡ seat) }
        ensures fault { IfErr result (λ fault. next_of self.now name seat ≡ Err fault) }
    {
        admit(&self.table, name, seat, true)
    }

    // The checks of a call on an entry.
    fn admit_at(
        &self,
        name: CallName,
        seat: usize,
        entry: usize,
    ) -> Result<(Admission, Entry), Fault>
        ensures next { IfOk result (λ found. next_at self.now name seat entry ≡ Ok found.0.next) }
        ensures seat { IfOk result (λ found. found.0.seat.number ≡ seat) }
        ensures entry { IfOk result (λ found. found.1.number ≡ entry) }
        ensures inside { IfOk result (λ _. entry < (S.reading self.now.store).entries) }
        ensures fault { IfErr result (λ fault. next_at self.now name seat entry ≡ Err fault) }
    {
        let found = admit(&self.table, name, seat, entry < self.store.entries())?;
        Ok((found, Entry { number: entry }))
    }

    // The staged version of an entry, or its last where none is staged.
    fn staged_version(&self, entry: Entry) -> Version
        ensures { result.value ≡ staged_value (state_of self.now) entry.number }
    {
        self.store
            .staged_at(entry.number)
            .unwrap_or_else(|| last_version(&self.store, entry.number))
    }

    fn rule_allows_staged(&self, entry: Entry) -> bool
        ensures { result ≡ is_allowed (rule_of self.now) (state_of self.now) entry.number }
    {
        let last = last_version(&self.store, entry.number);
        let staged = self.staged_version(entry);
        self.rule.allows(entry.number, last.value, staged.value)
    }
}

// Withdraws all that is staged.
fn withdraw_all<S: WritingStore>(store: &mut S)
    ensures { WithdrawsEach S.reading S.staged S.withdraw_leaves store.old store.new }
{
    for e in 0..store.entries() {
        // where nothing is staged there is nothing to withdraw
        let _ = store.withdraw(e);
    }
}
