ghost use Rattle.std.specs.Prelude.{Some};
ghost use Rattle.tickets.specs.Texts.{outcome_text};

use std::fmt;

/// What became of an edit. Gone: the seat was idle, missing or at another serial, and nothing was called; an answer like the
/// others, with a name and a text, which a `None` beside a decision would not have.
#[derive(Clone, Copy, PartialEq, Eq, Debug)]
pub enum Outcome {
    Commit,
    Abort,
    Gone,
}

impl fmt::Display for Outcome {
    ghost output = { λ outcome. Some (outcome_text outcome) };

    fn fmt<W: fmt::Write>(&self, f: &mut fmt::Formatter<W>) -> fmt::Result {
        f.write_str(match self {
            Outcome::Commit => "commit",
            Outcome::Abort => "abort",
            Outcome::Gone => "gone",
        })
    }
}
