ghost use Rattle.std.specs.Prelude.{◌≡◌, IfOk, IfErr, MatchResult, map, string_bytes};
ghost use Rattle.calls.specs.Failures.{IfRefused};
ghost use Rattle.session_run.specs.Sessions.{AnswersLines, CannotStart, FailsFor, Prints, PrintsAnswers, call_of};

use crate::answers::answers_text;
use calls::answer::Answer;
use calls::call::Call;
use calls::failure::Failure;
use pool::pool::Pool;
use rules::range::RangeRule;
use runner::run::run;
use session_file::session::{LineCall, SIZES_LINE, Session, read_session};
use session_lines::fault::{Cause, SessionFault};
use session_lines::sizes::Sizes;
use std::alloc::{AllocError, Global};
use store::laying::LayOut;
use store::version::OPENING;
use table::TableStore;

/// The cells of the table store that a session runs over.
pub const CELLS: usize = 1_024;

/// What a session file prints: the answers to its calls; or its first fault alone; or, where the store cannot be laid out or the
/// pool cannot be opened, that refusal alone. Every edit in the calls is as if made alone.
pub fn session_text(heap: Global, file: &[u8]) -> Result<String, AllocError>
    ensures { IfOk result (λ text. Prints file.now (string_bytes text)) }
{
    match run_file(heap, file) {
        Ok(text) => Ok(text),
        Err(Failure::Refused(fault)) => format!(in heap; "{fault}\n"),
        Err(Failure::NoMemory) => Err(AllocError),
    }
}

// Reads a file, makes its calls and prints their answers. A refusal of what the sizes ask for stands on their line, which the
// refusal itself does not know.
fn run_file(heap: Global, file: &[u8]) -> Result<String, Failure<SessionFault>>
    ensures answers { IfOk result (λ text. PrintsAnswers file.now (string_bytes text)) }
    ensures fault { IfErr result (IfRefused (FailsFor file.now)) }
{
    let Session { sizes, calls, .. } = read_session(heap, file)?;
    let answers = match run_calls(heap, sizes, &calls) {
        Ok(answers) => answers,
        Err(Failure::Refused(cause)) => return Err(Failure::Refused(cause.on_line(SIZES_LINE))),
        Err(Failure::NoMemory) => return Err(Failure::NoMemory),
    };
    let text = answers_text(heap, &calls, &answers)?;
    Ok(text)
}

// Makes the calls on a pool that is opened over a table store, under the range rule.
fn run_calls(heap: Global, sizes: Sizes, calls: &[LineCall]) -> Result<Vec<Answer>, Failure<Cause>>
    ensures answers { IfOk result (λ answers. AnswersLines sizes calls.now answers.items) }
    ensures refusal { IfErr result (IfRefused (CannotStart sizes)) }
{
    let mut store = TableStore::over(vec![in heap; OPENING; CELLS]?);
    store.lay_out(sizes.entries, sizes.depth)?;
    let mut pool = Pool::new(store, RangeRule::new());
    let calls = plain_calls(heap, calls)?;
    let answers = run(heap, &mut pool, sizes.seats, &calls)?;
    Ok(answers)
}

// The calls without their lines.
fn plain_calls(heap: Global, calls: &[LineCall]) -> Result<Vec<Call>, AllocError>
    ensures { IfOk result (λ alone. alone.items ≡ map call_of calls.now) }
{
    let mut alone = Vec::new(heap);
    for call in calls {
        alone.push(call.call)?;
    }
    Ok(alone)
}
