ghost use Rattle.std.specs.Prelude.{MatchResult};
ghost use Rattle.session_lines.specs.Calls.{CallLine};
ghost use Rattle.session_lines.specs.Sizes.{SizesLine};
ghost use Rattle.session_file.specs.Files.{TimescaleFault, SizesFault};
ghost use Rattle.session_file.specs.Sessions.{IsOnLine, HasPart, HasFirstPart, MatchPart};

use crate::session::LONGEST_FILE;
use calls::call::Call;
use session_lines::call::read_call;
use session_lines::fault::{Cause, LineFault, SessionFault};
use session_lines::sizes::{Sizes, read_sizes};
use session_lines::timescale::{Timescale, read_timescale};
use words::fault::WordFault;
use words::line::first_line;

// What was read on a line, or its fault. A cause alone does not know its line, so that `?` could not say it.
pub(crate) fn on_line<T>(line: usize, read: Result<T, Cause>) -> Result<T, SessionFault>
    ensures { IsOnLine line read result }
{
    match read {
        Ok(found) => Ok(found),
        Err(cause) => Err(cause.on_line(line)),
    }
}

// The timescale that a file begins with, and what follows it.
pub(crate) fn timescale_part(file: &[u8]) -> Result<(Timescale, &[u8]), Cause>
    ensures { MatchResult result (HasFirstPart file.now) (TimescaleFault file.now) }
{
    if LONGEST_FILE < file.len() {
        return Err(WordFault::LineForm.into());
    }
    let (line, rest) = first_line(file)?;
    let timescale = read_timescale(line)?;
    Ok((timescale, rest))
}

// The sizes that the second line of a file has, and what follows them.
pub(crate) fn sizes_part(text: &[u8]) -> Result<(Sizes, &[u8]), Cause>
    ensures { MatchResult result (HasPart SizesLine text.now) (SizesFault text.now) }
{
    if text.is_empty() {
        return Err(LineFault::WrongWords.into());
    }
    let (line, rest) = first_line(text)?;
    let sizes = read_sizes(line)?;
    Ok((sizes, rest))
}

// The call that a text begins with, and what follows it.
pub(crate) fn call_part(timescale: Timescale, text: &[u8]) -> Result<(Call, &[u8]), Cause>
    ensures { MatchPart result (CallLine timescale) text.now }
{
    let (line, rest) = first_line(text)?;
    let call = read_call(line, timescale)?;
    Ok((call, rest))
}
