/// One edit of a pool, by its seat and serial. Serial 0, which no edit has: the ticket is spent. A ticket is two plain numbers, so it
/// borrows nothing of the pool, and the prover, not the compiler, asks on every way out whether it is spent.
pub struct Ticket {
    pub(crate) seat: usize,
    pub(crate) serial: u32,
}

// A ticket may be let go only where it is spent, on every way out of a function.
impl Drop for Ticket {
    ghost use Rattle.tickets.specs.Tickets.{IsSpent};

    fn drop(self)
        requires { IsSpent self }
    {
        let Ticket { seat: _, serial: _ } = self;
    }
}

impl Ticket {
    ghost use Rattle.std.specs.Prelude.{◌≡◌};
    ghost use Rattle.tickets.specs.Tickets.{seat_of};

    pub fn seat(&self) -> usize
        ensures { result ≡ seat_of self.now }
    {
        self.seat
    }
}
