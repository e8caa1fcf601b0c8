ghost use Rattle.std.specs.Prelude.{◌≡◌, Some};
ghost use Rattle.store.specs.Steps.{has_author, is_within};
ghost use Rattle.store.specs.Texts.{version_text};

use std::fmt;

/// How many seats there may be, numbered from 0.
pub const MOST_SEATS: usize = 16;

/// The serial of a seat's last edit; its first has serial 1.
pub const LAST_SERIAL: u32 = 1_000_000;

/// The seat of a version that nobody wrote.
pub const NO_SEAT: u8 = 255;

/// How far from 0 a value may lie in any store, in femtoseconds.
pub const FARTHEST: u64 = 100_000_000_000_000_000;

/// One committed or staged value of an entry, in femtoseconds, with its author: a seat and the serial of that seat's edit.
#[derive(Clone, Copy, PartialEq, Eq, Debug)]
pub struct Version {
    pub value: i64,
    pub seat: u8,
    pub serial: u32,
}

/// The version that every chain begins with. Nobody wrote it: seats of authors end at 15, and their serials begin with 1.
pub const OPENING: Version = Version {
    value: 0,
    seat: NO_SEAT,
    serial: 0,
};

impl Version {
    /// Whether somebody may have written it: a seat up to 15, and a serial from 1 to 1,000,000.
    pub fn has_author(self) -> bool
        ensures { result ≡ has_author self }
    {
        usize::from(self.seat) < MOST_SEATS && 1 <= self.serial && self.serial <= LAST_SERIAL
    }

    /// Whether its value lies no farther from 0 than this, on either side.
    pub fn is_within(self, reach: u64) -> bool
        ensures { result ≡ is_within reach self.value }
    {
        self.value.unsigned_abs() <= reach
    }
}

impl fmt::Display for Version {
    ghost output = { λ version. Some (version_text version) };

    fn fmt<W: fmt::Write>(&self, f: &mut fmt::Formatter<W>) -> fmt::Result {
        let Version {
            value,
            seat,
            serial,
        } = *self;
        write!(f, "{value} by seat {seat} serial {serial}")
    }
}
