ghost use Rattle.rules.specs.EntryRule.{settings_of, SetsEntry};
ghost use Rattle.rules.specs.Limits.{limits_of};
ghost use Rattle.rules.specs.Range.{KeepsToLimits};

use crate::entry_rule::EntryRule;
use crate::house::HouseRule;
use crate::limits::Limits;
use store::refusal::Refusal;

/// Says yes to a new value within the limits of its entry, whatever the last value was.
pub type RangeRule = EntryRule<Limits>;

impl EntryRule<Limits> {
    /// Sets the smallest and the largest value of an entry, in femtoseconds. Where it refuses, nothing changes.
    pub fn set(&mut self, entry: usize, smallest: i64, largest: i64) -> Result<(), Refusal>
        ensures { SetsEntry self.old entry (limits_of smallest largest) result self.new }
    {
        self.set_entry(entry, Limits { smallest, largest })
    }
}

/// What a rule by limits means: yes to a new value between the limits of the entry, and to no other.
pub fn range_is_kept(rule: &RangeRule)
    ensures { KeepsToLimits (⟦<RangeRule as HouseRule>⟧.allowed rule.now) (settings_of rule.now) }
{}
