ghost use Rattle.std.specs.Prelude.{◌≡◌, Some};
ghost use Rattle.session_lines.specs.Faults.{line_fault_number, cause_number, layer_of, layer_text, session_fault_text};
ghost use Rattle.session_lines.specs.declared.fault.Cause.TheVariants.{Word, Line, Pool};

use calls::failure::{AbovePool, Reason};
use calls::fault::Fault;
use std::error::Error;
use std::fmt;
use words::fault::WordFault;

/// What is wrong with a line whose length and end are as they should be.
#[derive(Clone, Copy, PartialEq, Eq, Debug)]
pub enum LineFault {
    // A word is unknown, missing, empty or too many.
    WrongWords = 17,
    // A value lies farther from 0 than a store reaches.
    TooFar = 19,
}

impl LineFault {
    pub fn number(self) -> u8
        ensures { result ≡ line_fault_number self }
    {
        self as u8
    }
}

/// Who finds a fault.
#[derive(Clone, Copy, PartialEq, Eq, Debug)]
pub enum Layer {
    Word,
    Session,
    Pool,
    Store,
}

impl fmt::Display for Layer {
    ghost output = { λ layer. Some (layer_text layer) };

    fn fmt<W: fmt::Write>(&self, f: &mut fmt::Formatter<W>) -> fmt::Result {
        f.write_str(match self {
            Layer::Word => "word",
            Layer::Session => "session",
            Layer::Pool => "pool",
            Layer::Store => "store",
        })
    }
}

/// Why a line of a session is not done, whoever finds it.
#[derive(Clone, Copy, PartialEq, Eq, Debug)]
pub enum Cause {
    Word(WordFault),
    Line(LineFault),
    Pool(Fault),
}

impl Cause {
    pub fn number(self) -> u8
        ensures { result ≡ cause_number self }
    {
        match self {
            Cause::Word(found) => found.number(),
            Cause::Line(found) => found.number(),
            Cause::Pool(found) => found.number(),
        }
    }

    pub fn layer(self) -> Layer
        ensures { result ≡ layer_of self }
    {
        match self {
            Cause::Word(_) => Layer::Word,
            Cause::Line(_) => Layer::Session,
            Cause::Pool(Fault::Store(_)) => Layer::Store,
            Cause::Pool(_) => Layer::Pool,
        }
    }

    /// The fault that a line has for this cause.
    pub fn on_line(self, line: usize) -> SessionFault
        ensures { result ≡ record { line = line; cause = self } }
    {
        SessionFault { line, cause: self }
    }
}

impl From<WordFault> for Cause {
    ghost from_gives = { λ fault cause. cause ≡ Word fault };

    fn from(fault: WordFault) -> Cause {
        Cause::Word(fault)
    }
}

impl From<LineFault> for Cause {
    ghost from_gives = { λ fault cause. cause ≡ Line fault };

    fn from(fault: LineFault) -> Cause {
        Cause::Line(fault)
    }
}

impl From<Fault> for Cause {
    ghost from_gives = { λ fault cause. cause ≡ Pool fault };

    fn from(fault: Fault) -> Cause {
        Cause::Pool(fault)
    }
}

impl Reason for Cause {}

impl AbovePool for Cause {}

/// A fault, and the line that has it. Lines are numbered from 1.
#[derive(Clone, Copy, PartialEq, Eq, Debug)]
pub struct SessionFault {
    pub line: usize,
    pub cause: Cause,
}

impl SessionFault {
    pub fn number(self) -> u8
        ensures { result ≡ cause_number self.cause }
    {
        self.cause.number()
    }

    pub fn layer(self) -> Layer
        ensures { result ≡ layer_of self.cause }
    {
        self.cause.layer()
    }
}

impl fmt::Display for SessionFault {
    ghost output = { λ fault. Some (session_fault_text fault) };

    // The file is at fault, or the pool refuses what it asks for.
    fn fmt<W: fmt::Write>(&self, f: &mut fmt::Formatter<W>) -> fmt::Result {
        let line = self.line;
        let number = self.number();
        let layer = self.layer();
        match self.cause {
            Cause::Word(_) | Cause::Line(_) => write!(f, "{line} fault {number} {layer}"),
            Cause::Pool(_) => write!(f, "{line} refused {number} {layer}"),
        }
    }
}

impl Error for SessionFault {}

impl Reason for SessionFault {}
