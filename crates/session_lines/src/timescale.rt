ghost use Rattle.std.specs.Prelude.{◌≡◌, pos};
ghost use Rattle.calls.specs.Names.{MatchName};
ghost use Rattle.session_lines.specs.Scales.{amount_text, unit_size, unit_text, factor};
ghost use Rattle.session_lines.specs.Grammar.{MatchReading};
ghost use Rattle.session_lines.specs.Timescales.{TimescaleLine};

use crate::fault::{Cause, LineFault};
use words::token::three_words;

/// How many units a value counts.
#[derive(Clone, Copy, PartialEq, Eq, Debug)]
pub enum Amount {
    One = 1,
    Ten = 10,
    Hundred = 100,
}

#[derive(Clone, Copy, PartialEq, Eq, Debug)]
pub enum Unit {
    Seconds,
    Milliseconds,
    Microseconds,
    Nanoseconds,
    Picoseconds,
    Femtoseconds,
}

/// What the values of a session count: so many of a unit.
#[derive(Clone, Copy, PartialEq, Eq, Debug)]
pub struct Timescale {
    pub amount: Amount,
    pub unit: Unit,
}

impl Amount {
    pub fn of_word(word: &[u8]) -> Option<Amount>
        ensures { MatchName amount_text word.now result }
    {
        match word {
            b"1" => Some(Amount::One),
            b"10" => Some(Amount::Ten),
            b"100" => Some(Amount::Hundred),
            _ => None,
        }
    }
}

impl Unit {
    pub fn of_word(word: &[u8]) -> Option<Unit>
        ensures { MatchName unit_text word.now result }
    {
        match word {
            b"s" => Some(Unit::Seconds),
            b"ms" => Some(Unit::Milliseconds),
            b"us" => Some(Unit::Microseconds),
            b"ns" => Some(Unit::Nanoseconds),
            b"ps" => Some(Unit::Picoseconds),
            b"fs" => Some(Unit::Femtoseconds),
            _ => None,
        }
    }

    /// In femtoseconds.
    pub fn size(self) -> i64
        ensures { result ≡ pos (unit_size self) }
    {
        match self {
            Unit::Seconds => 1_000_000_000_000_000,
            Unit::Milliseconds => 1_000_000_000_000,
            Unit::Microseconds => 1_000_000_000,
            Unit::Nanoseconds => 1_000_000,
            Unit::Picoseconds => 1_000,
            Unit::Femtoseconds => 1,
        }
    }
}

impl Timescale {
    /// How many femtoseconds a value of 1 is.
    pub fn factor(self) -> i64
        ensures { result ≡ pos (factor self) }
    {
        self.amount as i64 * self.unit.size()
    }
}

/// Reads `timescale A U`.
pub fn read_timescale(line: &[u8]) -> Result<Timescale, Cause>
    ensures { MatchReading result (TimescaleLine line.now) }
{
    let (name, amount, unit) = three_words(line, 0).ok_or(LineFault::WrongWords)?;
    if name != b"timescale".as_slice() {
        return Err(LineFault::WrongWords.into());
    }
    let amount = Amount::of_word(amount).ok_or(LineFault::WrongWords)?;
    let unit = Unit::of_word(unit).ok_or(LineFault::WrongWords)?;
    Ok(Timescale { amount, unit })
}
