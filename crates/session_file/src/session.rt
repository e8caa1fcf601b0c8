ghost use Rattle.std.specs.Prelude.{MatchResult, IfOk, IfErr};
ghost use Rattle.calls.specs.Failures.{IfRefused};
ghost use Rattle.session_file.specs.Files.{CallLines, FaultOfCalls, FirstFault, first_call_line};
ghost use Rattle.session_file.specs.Sessions.{DerivesSession, ReadsOnly};

use crate::parts::{call_part, on_line, sizes_part, timescale_part};
use calls::call::Call;
use calls::failure::Failure;
use session_lines::fault::SessionFault;
use session_lines::sizes::Sizes;
use session_lines::timescale::Timescale;
use std::alloc::Global;

/// The most bytes that a session file may have.
pub const LONGEST_FILE: usize = 65_536;

pub const TIMESCALE_LINE: usize = 1;

pub const SIZES_LINE: usize = 2;

// The line of the first call. Each line after it is a call too.
const FIRST_CALL_LINE: usize = 3;

/// A call, and the line that it stands on.
#[derive(Clone, Copy, PartialEq, Eq, Debug)]
pub struct LineCall {
    pub line: usize,
    pub call: Call,
}

/// What a session file says.
#[derive(Drop)]
pub struct Session {
    pub timescale: Timescale,
    pub sizes: Sizes,
    pub calls: Vec<LineCall>,
}

/// Reads a whole session file. It is read if and only if the grammar derives it, as the one session that it derives;
/// else the answer is its first fault.
pub fn read_session(heap: Global, file: &[u8]) -> Result<Session, Failure<SessionFault>>
    ensures read { MatchResult result (DerivesSession file.now) (IfRefused (FirstFault file.now)) }
    ensures only { ReadsOnly file.now result }
{
    session_of(heap, file)
}

fn session_of(heap: Global, file: &[u8]) -> Result<Session, Failure<SessionFault>>
    ensures { MatchResult result (DerivesSession file.now) (IfRefused (FirstFault file.now)) }
{
    let (timescale, rest) = on_line(TIMESCALE_LINE, timescale_part(file))?;
    let (sizes, rest) = on_line(SIZES_LINE, sizes_part(rest))?;
    let calls = read_calls(heap, timescale, rest)?;
    Ok(Session {
        timescale,
        sizes,
        calls,
    })
}

// The calls of a text, one to a line.
fn read_calls(
    heap: Global,
    timescale: Timescale,
    text: &[u8],
) -> Result<Vec<LineCall>, Failure<SessionFault>>
    ensures read { IfOk result (λ calls. CallLines timescale first_call_line calls.items text.now) }
    ensures fault { IfErr result (IfRefused (FaultOfCalls timescale first_call_line text.now)) }
{
    let mut calls = Vec::new(heap);
    let mut line = FIRST_CALL_LINE;
    let mut rest = text;
    while !rest.is_empty() {
        let (call, after) = on_line(line, call_part(timescale, rest))?;
        calls.push(LineCall { line, call })?;
        line += 1;
        rest = after;
    }
    Ok(calls)
}
