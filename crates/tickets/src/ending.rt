ghost use Rattle.tickets.specs.Endings.{AlwaysEnded};

/// An edit can always be ended by calls of its own seat: whatever the other seats do or hold, none of these calls is refused, and the
/// seat is idle after them and holds no lock.
pub fn always_ended()
    ensures { AlwaysEnded }
{}
