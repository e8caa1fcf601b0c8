ghost use Rattle.std.specs.Prelude.{◌≡◌};
ghost use Rattle.words.specs.Faults.{word_fault_number};

/// What is wrong with a line or a number, whatever they are to say.
#[derive(Clone, Copy, PartialEq, Eq, Debug)]
pub enum WordFault {
    // A number is not written as numbers are.
    NumberForm = 18,
    // A line is too long, or has no end.
    LineForm = 20,
}

impl WordFault {
    pub fn number(self) -> u8
        ensures { result ≡ word_fault_number self }
    {
        self as u8
    }
}
