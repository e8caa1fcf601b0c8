ghost use Rattle.std.specs.Prelude.{MatchResult};
ghost use Rattle.words.specs.Lines.{HasFirstLine, HasNoLine};

use crate::cut::cut;
use crate::fault::WordFault;

/// The most bytes that a line may have before its line feed.
pub const LONGEST_LINE: usize = 80;

/// The line that a text begins with, and what follows its line feed.
pub fn first_line(text: &[u8]) -> Result<(&[u8], &[u8]), WordFault>
    ensures { MatchResult result (HasFirstLine text.now) (HasNoLine text.now) }
{
    match cut(text, b'\n') {
        Some((line, rest)) if line.len() <= LONGEST_LINE => Ok((line, rest)),
        _ => Err(WordFault::LineForm),
    }
}
