ghost use Rattle.std.specs.Prelude.{◌≡◌, Some};
ghost use Rattle.store.specs.Refusals.{refusal_number, refusal_reason};

use std::error::Error;
use std::fmt;

/// Why a store, a rule's setting or an image is refused, with its number. docs/REFUSALS.md says when.
#[derive(Clone, Copy, PartialEq, Eq, Debug)]
pub enum Refusal {
    NoSuchEntry = 2,
    ValueBeyondReach = 6,
    ChainFull = 7,
    SizeOrSetting = 12,
    NothingStaged = 13,
    NoSuchAuthor = 14,
    NoImage = 15,
    MemoryTooShort = 16,
}

impl Refusal {
    /// The number that REFUSALS.md has for it.
    pub fn number(self) -> u8
        ensures { result ≡ refusal_number self }
    {
        self as u8
    }

    /// In words for the one who asked.
    pub fn reason(self) -> &'static str
        ensures { result.now ≡ refusal_reason self }
    {
        match self {
            Refusal::NoSuchEntry => "no such entry",
            Refusal::ValueBeyondReach => "value beyond the store's reach",
            Refusal::ChainFull => "chain full",
            Refusal::SizeOrSetting => "size or setting out of range",
            Refusal::NothingStaged => "nothing staged",
            Refusal::NoSuchAuthor => "no such author",
            Refusal::NoImage => "no image",
            Refusal::MemoryTooShort => "memory too short",
        }
    }
}

impl fmt::Display for Refusal {
    ghost output = { λ refusal. Some (refusal_reason refusal) };

    fn fmt<W: fmt::Write>(&self, f: &mut fmt::Formatter<W>) -> fmt::Result {
        f.write_str(self.reason())
    }
}

impl Error for Refusal {}
