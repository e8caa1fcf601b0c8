ghost use Rattle.std.specs.Prelude.{◌≡◌, Some};
ghost use Rattle.calls.specs.Names.{name_text, MatchName, name_of, seat_of};
ghost use Rattle.calls.specs.Texts.{call_text};

use std::fmt;

/// A call on a pool. Seats and entries are numbered from 0; a value is a number of femtoseconds.
#[derive(Clone, Copy, PartialEq, Eq, Debug)]
pub enum Call {
    Begin {
        seat: usize,
    },
    Read {
        seat: usize,
        entry: usize,
    },
    Write {
        seat: usize,
        entry: usize,
        value: i64,
    },
    Prepare {
        seat: usize,
    },
    Vote {
        seat: usize,
        entry: usize,
    },
    Decide {
        seat: usize,
    },
    Abort {
        seat: usize,
    },
    Finish {
        seat: usize,
        entry: usize,
    },
    Close {
        seat: usize,
    },
}

/// The name of a call. It is the index of its row in the step table.
#[derive(Clone, Copy, PartialEq, Eq, Debug)]
pub enum CallName {
    Begin,
    Read,
    Write,
    Prepare,
    Vote,
    Decide,
    Abort,
    Finish,
    Close,
}

const NAMES: [CallName; 9] = [
    CallName::Begin,
    CallName::Read,
    CallName::Write,
    CallName::Prepare,
    CallName::Vote,
    CallName::Decide,
    CallName::Abort,
    CallName::Finish,
    CallName::Close,
];

impl CallName {
    /// The word that a session file has for it.
    pub fn text(self) -> &'static str
        ensures { result.now ≡ name_text self }
    {
        match self {
            CallName::Begin => "begin",
            CallName::Read => "read",
            CallName::Write => "write",
            CallName::Prepare => "prepare",
            CallName::Vote => "vote",
            CallName::Decide => "decide",
            CallName::Abort => "abort",
            CallName::Finish => "finish",
            CallName::Close => "close",
        }
    }

    /// The call that a word names.
    pub fn of_word(word: &[u8]) -> Option<CallName>
        ensures { MatchName name_text word.now result }
    {
        NAMES
            .iter()
            .copied()
            .find(|name| name.text().as_bytes() == word)
    }
}

impl Call {
    pub fn name(self) -> CallName
        ensures { result ≡ name_of self }
    {
        match self {
            Call::Begin { .. } => CallName::Begin,
            Call::Read { .. } => CallName::Read,
            Call::Write { .. } => CallName::Write,
            Call::Prepare { .. } => CallName::Prepare,
            Call::Vote { .. } => CallName::Vote,
            Call::Decide { .. } => CallName::Decide,
            Call::Abort { .. } => CallName::Abort,
            Call::Finish { .. } => CallName::Finish,
            Call::Close { .. } => CallName::Close,
        }
    }

    /// The seat that makes it.
    pub fn seat(self) -> usize
        ensures { result ≡ seat_of self }
    {
        match self {
            Call::Begin { seat }
            | Call::Read { seat, .. }
            | Call::Write { seat, .. }
            | Call::Prepare { seat }
            | Call::Vote { seat, .. }
            | Call::Decide { seat }
            | Call::Abort { seat }
            | Call::Finish { seat, .. }
            | Call::Close { seat } => seat,
        }
    }
}

impl fmt::Display for CallName {
    ghost output = { λ name. Some (name_text name) };

    fn fmt<W: fmt::Write>(&self, f: &mut fmt::Formatter<W>) -> fmt::Result {
        f.write_str(self.text())
    }
}

impl fmt::Display for Call {
    ghost output = { λ call. Some (call_text call) };

    fn fmt<W: fmt::Write>(&self, f: &mut fmt::Formatter<W>) -> fmt::Result {
        let name = self.name();
        let seat = self.seat();
        write!(f, "{name} {seat}")?;
        match self {
            Call::Read { entry, .. } | Call::Vote { entry, .. } | Call::Finish { entry, .. } => {
                write!(f, " {entry}")
            }
            Call::Write { entry, value, .. } => write!(f, " {entry} {value}"),
            _ => Ok(()),
        }
    }
}
