ghost use Rattle.std.specs.Prelude.{◌≡◌, IfOk, Some, string_bytes};
ghost use Rattle.session_run.specs.Texts.{answer_text, answer_lines};

use calls::answer::Answer;
use session_file::session::LineCall;
use session_lines::fault::SessionFault;
use std::alloc::{AllocError, Global};
use std::fmt;

/// What a call answered, and the line that it stands on.
#[derive(Clone, Copy, PartialEq, Eq, Debug)]
pub struct LineAnswer {
    pub line: usize,
    pub answer: Answer,
}

impl fmt::Display for LineAnswer {
    ghost output = { λ answered. Some (answer_text answered.line answered.answer) };

    fn fmt<W: fmt::Write>(&self, f: &mut fmt::Formatter<W>) -> fmt::Result {
        let line = self.line;
        match self.answer {
            Ok(reply) => write!(f, "{line} {reply}"),
            Err(fault) => {
                let refused = SessionFault {
                    line,
                    cause: fault.into(),
                };
                write!(f, "{refused}")
            }
        }
    }
}

/// The answers to the calls of a session, each on a line of its own. A call that has no answer has no line.
pub fn answers_text(
    heap: Global,
    calls: &[LineCall],
    answers: &[Answer],
) -> Result<String, AllocError>
    ensures { IfOk result (λ text. string_bytes text ≡ answer_lines calls.now answers.now) }
{
    let mut text = String::new(heap);
    for (call, answer) in calls.iter().zip(answers) {
        let answered = LineAnswer {
            line: call.line,
            answer: *answer,
        };
        writeln!(text, "{answered}")?;
    }
    Ok(text)
}
