ghost use Rattle.std.specs.Prelude.{◌≡◌, Some};
ghost use Rattle.calls.specs.declared.fault.Fault.TheVariants.{Store};
ghost use Rattle.calls.specs.Faults.{fault_number};
ghost use Rattle.calls.specs.Texts.{fault_text};

use std::error::Error;
use std::fmt;
use store::refusal::Refusal;

/// Why a pool refuses. What its store refuses is passed up as it is.
#[derive(Clone, Copy, PartialEq, Eq, Debug)]
pub enum Fault {
    NoSuchSeat,
    WrongState,
    SerialsUsedUp,
    LockInTheWay,
    NoLock,
    VotedAlready,
    VotesMissing,
    LocksRemain,
    CannotOpen,
    Store(Refusal),
}

impl Fault {
    /// Not the number of its case, as a refusal's is: one case carries a refusal, which has a number of its own.
    pub fn number(self) -> u8
        ensures { result ≡ fault_number self }
    {
        match self {
            Fault::NoSuchSeat => 1,
            Fault::WrongState => 3,
            Fault::SerialsUsedUp => 4,
            Fault::LockInTheWay => 5,
            Fault::NoLock => 8,
            Fault::VotedAlready => 9,
            Fault::VotesMissing => 10,
            Fault::LocksRemain => 11,
            Fault::CannotOpen => 12,
            Fault::Store(found) => found.number(),
        }
    }
}

impl From<Refusal> for Fault {
    ghost from_gives = { λ r f. f ≡ Store r };

    fn from(refusal: Refusal) -> Fault {
        Fault::Store(refusal)
    }
}

impl fmt::Display for Fault {
    ghost output = { λ fault. Some (fault_text fault) };

    fn fmt<W: fmt::Write>(&self, f: &mut fmt::Formatter<W>) -> fmt::Result {
        let number = self.number();
        write!(f, "refused {number}")
    }
}

impl Error for Fault {}
