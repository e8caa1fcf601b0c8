ghost use Rattle.std.specs.Prelude.{drop};
ghost use Rattle.session_lines.specs.Grammar.{ArgumentsOf, MatchReading};
ghost use Rattle.session_lines.specs.Sizes.{SizesLine, size_arguments};

use crate::fault::{Cause, LineFault};
use words::number::plain;
use words::token::{next_word, three_words};

/// How large a pool and its store are to be.
#[derive(Clone, Copy, PartialEq, Eq, Debug)]
pub struct Sizes {
    pub seats: usize,
    pub entries: usize,
    pub depth: usize,
}

/// Reads `pool N M D`.
pub fn read_sizes(line: &[u8]) -> Result<Sizes, Cause>
    ensures { MatchReading result (SizesLine line.now) }
{
    let (name, at) = next_word(line, 0).ok_or(LineFault::WrongWords)?;
    if name != b"pool".as_slice() {
        return Err(LineFault::WrongWords.into());
    }
    sizes_at(line, at)
}

// The rest of a line as three sizes.
fn sizes_at(line: &[u8], at: usize) -> Result<Sizes, Cause>
    ensures { MatchReading result (ArgumentsOf size_arguments (drop at line.now)) }
{
    let (seats, entries, depth) = three_words(line, at).ok_or(LineFault::WrongWords)?;
    let seats = plain(seats)?;
    let entries = plain(entries)?;
    let depth = plain(depth)?;
    Ok(Sizes {
        seats,
        entries,
        depth,
    })
}
