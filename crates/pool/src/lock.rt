ghost use Rattle.std.specs.Prelude.{◌≡◌, true, is_some, IsTrue, IsFalse, IfSome, IfNone};
ghost use Rattle.pool.specs.Locks.{is_lock, is_writer, holds, lock_shared, lock_claimed};
ghost use Rattle.pool.specs.Locks.{shared_row, claimed_row, released_row};

use crate::mask::{has_member, with_member, without_member};
use crate::table::{Row, Seat};
use calls::fault::Fault;

// A lock has one writing seat and no reader, or no writer and any set of readers.
#[derive(Clone, Copy)]
pub(crate) struct Lock {
    writer: Option<u8>,
    readers: u64,
    ghost exclusive: { is_some writer ≡ true → readers ≡ 0 },
}

impl Lock {
    ghost use Rattle.pool.specs.LockRows.{row_of, row_or_fault};

    // The lock that a row stands for, where it stands for one.
    fn of(old: Row) -> Option<Lock>
        ensures lock { IfSome result (λ lock. row_of lock ≡ old) }
        ensures found { IfSome result (λ _. IsTrue (is_lock old)) }
        ensures none { IfNone result (IsFalse (is_lock old)) }
    {
        if old.writer.is_some() && old.readers != 0 {
            return None;
        }
        Some(Lock {
            writer: old.writer,
            readers: old.readers,
        })
    }

    // The row that stands for it.
    fn row(self) -> Row
        ensures { result ≡ row_of self }
    {
        Row {
            writer: self.writer,
            readers: self.readers,
        }
    }

    // Shared with the seat for reading, unless another seat writes.
    fn shared(self, seat: Seat) -> Result<Lock, Fault>
        ensures { row_or_fault result ≡ lock_shared (row_of self) seat.number }
    {
        match self.writer {
            None => Ok(Lock {
                writer: None,
                readers: with_member(self.readers, seat.number),
            }),
            Some(writer) if writer == seat.byte() => Ok(self),
            Some(_) => Err(Fault::LockInTheWay),
        }
    }

    // Claimed by the seat for writing, unless another seat holds it.
    fn claimed(self, seat: Seat) -> Result<Lock, Fault>
        ensures { row_or_fault result ≡ lock_claimed (row_of self) seat.number }
    {
        match self.writer {
            None if without_member(self.readers, seat.number) != 0 => Err(Fault::LockInTheWay),
            Some(writer) if writer != seat.byte() => Err(Fault::LockInTheWay),
            _ => Ok(Lock {
                writer: Some(seat.byte()),
                readers: 0,
            }),
        }
    }

    // Without the seat.
    fn released(self, seat: Seat) -> Lock
        ensures { row_of result ≡ released_row (row_of self) seat.number }
    {
        if self.writer == Some(seat.byte()) {
            return Lock {
                writer: None,
                readers: 0,
            };
        }
        Lock {
            writer: self.writer,
            readers: without_member(self.readers, seat.number),
        }
    }
}

impl Row {
    pub(crate) fn is_written_by(self, seat: Seat) -> bool
        ensures { result ≡ is_writer self seat.number }
    {
        self.writer == Some(seat.byte())
    }

    // For writing or for reading.
    pub(crate) fn is_held_by(self, seat: Seat) -> bool
        ensures { result ≡ holds self seat.number }
    {
        self.is_written_by(seat) || has_member(self.readers, seat.number)
    }

    // The row with its lock shared with the seat for reading.
    pub(crate) fn shared(self, seat: Seat) -> Result<Row, Fault>
        ensures { result ≡ shared_row self seat.number }
    {
        let lock = Lock::of(self).ok_or(Fault::LockInTheWay)?;
        Ok(lock.shared(seat)?.row())
    }

    // The row with its lock claimed by the seat for writing.
    pub(crate) fn claimed(self, seat: Seat) -> Result<Row, Fault>
        ensures { result ≡ claimed_row self seat.number }
    {
        let lock = Lock::of(self).ok_or(Fault::LockInTheWay)?;
        Ok(lock.claimed(seat)?.row())
    }

    // The row with its lock without the seat.
    pub(crate) fn released(self, seat: Seat) -> Row
        requires { IsTrue (is_lock self) }
        ensures { result ≡ released_row self seat.number }
    {
        Lock::of(self).map_or(Row::UNLOCKED, |lock| lock.released(seat).row())
    }
}
