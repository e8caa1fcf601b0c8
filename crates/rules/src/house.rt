ghost use Rattle.std.specs.Prelude.{◌≡◌};
ghost use Rattle.rules.specs.House.{Rule};

use store::sizes::MOST_ENTRIES;

/// The rules of this crate have settings for this many entries, and say no to any other.
pub const ENTRIES: usize = MOST_ENTRIES;

/// A rule that says yes or no to a new value for an entry, from the last value of the entry's chain. The same question always has
/// the same answer, and being asked leaves the rule as it is.
pub trait HouseRule {
    // What the rule means: its yes or no to every question of an entry, a last value and a new value.
    ghost allowed: { Self → Rule };

    fn allows(&self, entry: usize, last: i64, new: i64) -> bool
        ensures { result ≡ allowed self.now entry last new };
}
