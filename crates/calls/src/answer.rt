ghost use Rattle.std.specs.Prelude.{Some};
ghost use Rattle.calls.specs.Texts.{decision_text, reply_text};

use crate::fault::Fault;
use std::fmt;

/// How an edit is decided.
#[derive(Clone, Copy, PartialEq, Eq, Debug)]
pub enum Decision {
    Commit,
    Abort,
}

/// What a pool answers to a call that it accepts: begin its serial, read a value, vote whether the vote is yes,
/// decide its decision, every other call only that it is done.
#[derive(Clone, Copy, PartialEq, Eq, Debug)]
pub enum Reply {
    Serial(u32),
    Value(i64),
    Voted(bool),
    Decided(Decision),
    Done,
}

/// What a pool answers to a call: a reply, or why it refuses.
pub type Answer = Result<Reply, Fault>;

impl fmt::Display for Decision {
    ghost output = { λ decision. Some (decision_text decision) };

    fn fmt<W: fmt::Write>(&self, f: &mut fmt::Formatter<W>) -> fmt::Result {
        f.write_str(match self {
            Decision::Commit => "commit",
            Decision::Abort => "abort",
        })
    }
}

impl fmt::Display for Reply {
    ghost output = { λ reply. Some (reply_text reply) };

    fn fmt<W: fmt::Write>(&self, f: &mut fmt::Formatter<W>) -> fmt::Result {
        match self {
            Reply::Serial(serial) => write!(f, "serial {serial}"),
            Reply::Value(value) => write!(f, "value {value}"),
            Reply::Voted(true) => f.write_str("vote yes"),
            Reply::Voted(false) => f.write_str("vote no"),
            Reply::Decided(decision) => write!(f, "decided {decision}"),
            Reply::Done => f.write_str("ok"),
        }
    }
}
