ghost use Rattle.std.specs.Prelude.{◌≡◌};
ghost use Rattle.calls.specs.Failures.{failure_text, IsToldAs};
ghost use Rattle.calls.specs.declared.failure.Failure.TheVariants.{Refused, NoMemory};
ghost use Rattle.calls.specs.declared.fault.Fault.TheVariants.{Store};

use crate::fault::Fault;
use std::alloc::{AllocError, AllocFailed};
use std::error::Error;
use std::fmt;
use store::refusal::Refusal;

/// Why something was not done: it is refused, for a fault of some kind, or there is no memory for it.
#[derive(Clone, Copy, PartialEq, Eq, Debug)]
pub enum Failure<F> {
    Refused(F),
    NoMemory,
}

/// Faults for which something is refused. That there is no memory is none of them.
pub trait Reason: Copy {}

/// The faults of those who call a pool: its faults become theirs, and so do its store's refusals.
pub trait AbovePool: Reason + From<Fault> {}

impl Reason for Fault {}

impl<F> Failure<F> {
    /// The same failure, with its fault told as another. Where there is no memory nothing is told, and the closure is not called.
    pub fn map<E, M: FnOnce(F) -> E>(self, tell: M) -> Failure<E>
        requires { (fault : F) → self ≡ Refused fault → M.pre tell fault }
        ensures { IsToldAs (M.post tell) self result }
    {
        match self {
            Failure::Refused(fault) => Failure::Refused(tell(fault)),
            Failure::NoMemory => Failure::NoMemory,
        }
    }
}

impl<F: fmt::Display> fmt::Display for Failure<F> {
    ghost output = { failure_text F.output };

    fn fmt<W: fmt::Write>(&self, f: &mut fmt::Formatter<W>) -> fmt::Result {
        match self {
            Failure::Refused(fault) => write!(f, "{fault}"),
            Failure::NoMemory => f.write_str("no memory"),
        }
    }
}

impl<F: Error> Error for Failure<F> {}

impl<F: Reason> From<F> for Failure<F> {
    ghost from_gives = { λ fault failure. failure ≡ Refused fault };

    fn from(fault: F) -> Failure<F> {
        Self::Refused(fault)
    }
}

impl<F: Reason> From<AllocError> for Failure<F> {
    ghost from_gives = { λ _ failure. failure ≡ NoMemory };

    fn from(_: AllocError) -> Failure<F> {
        Failure::NoMemory
    }
}

impl<F: Reason, T: Drop> From<AllocFailed<T>> for Failure<F> {
    ghost from_gives = { λ _ failure. failure ≡ NoMemory };

    fn from(_: AllocFailed<T>) -> Failure<F> {
        Failure::NoMemory
    }
}

impl<F: AbovePool> From<Failure<Fault>> for Failure<F> {
    ghost from_gives = { IsToldAs F.From.from_gives };

    fn from(failure: Failure<Fault>) -> Failure<F> {
        match failure {
            Failure::Refused(fault) => Failure::Refused(fault.into()),
            Failure::NoMemory => Failure::NoMemory,
        }
    }
}

impl<F: AbovePool> From<Refusal> for Failure<F> {
    ghost from_gives = { λ refusal. IsToldAs F.From.from_gives (Refused (Store refusal)) };

    fn from(refusal: Refusal) -> Failure<F> {
        Failure::Refused(Fault::from(refusal).into())
    }
}
