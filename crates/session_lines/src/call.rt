ghost use Rattle.std.specs.Prelude.{drop, ◌*ℤ◌, SomeIff};
ghost use Rattle.session_lines.specs.Grammar.{IsInReach, ArgumentsOf, DerivesValue, MatchReading};
ghost use Rattle.session_lines.specs.Calls.{CallLine, only_seat, seat_and_entry, write_arguments};

use crate::fault::{Cause, LineFault};
use crate::timescale::Timescale;
use calls::call::{Call, CallName};
use store::version::FARTHEST;
use words::number::{plain, value};
use words::token::{next_word, one_word, three_words, two_words};

/// The farthest that a value may lie from 0 on either side, in femtoseconds.
pub const REACH: i64 = FARTHEST as i64;

/// Reads a call: its name and its numbers.
pub fn read_call(line: &[u8], timescale: Timescale) -> Result<Call, Cause>
    ensures { MatchReading result (CallLine timescale line.now) }
{
    let (name, at) = next_word(line, 0).ok_or(LineFault::WrongWords)?;
    match CallName::of_word(name).ok_or(LineFault::WrongWords)? {
        CallName::Begin => {
            let seat = seat_at(line, at)?;
            Ok(Call::Begin { seat })
        }
        CallName::Read => {
            let (seat, entry) = seat_and_entry_at(line, at)?;
            Ok(Call::Read { seat, entry })
        }
        CallName::Write => {
            let (seat, entry, value) = edit_at(line, at, timescale)?;
            Ok(Call::Write { seat, entry, value })
        }
        CallName::Prepare => {
            let seat = seat_at(line, at)?;
            Ok(Call::Prepare { seat })
        }
        CallName::Vote => {
            let (seat, entry) = seat_and_entry_at(line, at)?;
            Ok(Call::Vote { seat, entry })
        }
        CallName::Decide => {
            let seat = seat_at(line, at)?;
            Ok(Call::Decide { seat })
        }
        CallName::Abort => {
            let seat = seat_at(line, at)?;
            Ok(Call::Abort { seat })
        }
        CallName::Finish => {
            let (seat, entry) = seat_and_entry_at(line, at)?;
            Ok(Call::Finish { seat, entry })
        }
        CallName::Close => {
            let seat = seat_at(line, at)?;
            Ok(Call::Close { seat })
        }
    }
}

// The rest of a line as a seat.
fn seat_at(line: &[u8], at: usize) -> Result<usize, Cause>
    ensures { MatchReading result (ArgumentsOf only_seat (drop at line.now)) }
{
    let seat = one_word(line, at).ok_or(LineFault::WrongWords)?;
    let seat = plain(seat)?;
    Ok(seat)
}

// The rest of a line as a seat and an entry.
fn seat_and_entry_at(line: &[u8], at: usize) -> Result<(usize, usize), Cause>
    ensures { MatchReading result (ArgumentsOf seat_and_entry (drop at line.now)) }
{
    let (seat, entry) = two_words(line, at).ok_or(LineFault::WrongWords)?;
    let seat = plain(seat)?;
    let entry = plain(entry)?;
    Ok((seat, entry))
}

// The rest of a line as a seat, an entry and a value.
fn edit_at(line: &[u8], at: usize, timescale: Timescale) -> Result<(usize, usize, i64), Cause>
    ensures { MatchReading result (ArgumentsOf (write_arguments timescale) (drop at line.now)) }
{
    let (seat, entry, value) = three_words(line, at).ok_or(LineFault::WrongWords)?;
    let seat = plain(seat)?;
    let entry = plain(entry)?;
    let value = scaled(value, timescale)?;
    Ok((seat, entry, value))
}

// A value in femtoseconds.
fn scaled(word: &[u8], timescale: Timescale) -> Result<i64, Cause>
    ensures { MatchReading result (DerivesValue timescale word.now) }
{
    let value = value(word)?;
    let scaled = within_reach(value, timescale.factor()).ok_or(LineFault::TooFar)?;
    Ok(scaled)
}

// A value so many times, unless that is out of reach.
fn within_reach(value: i64, factor: i64) -> Option<i64>
    ensures { SomeIff result (IsInReach (value *ℤ factor)) (value *ℤ factor) }
{
    let scaled = value.checked_mul(factor)?;
    if scaled < -REACH || REACH < scaled {
        return None;
    }
    Some(scaled)
}
