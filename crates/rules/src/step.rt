ghost use Rattle.std.specs.Prelude.{refl};
ghost use Rattle.std.proofs.Common.{rules};
ghost use Rattle.rules.specs.Step.{longest_step, step_stands, step_permits, step_of, KeepsToSteps};
ghost use Rattle.rules.specs.EntryRule.{settings_of, SetsEntry};

use crate::entry_rule::EntryRule;
use crate::house::HouseRule;
use crate::setting::Setting;
use store::refusal::Refusal;
use store::version::FARTHEST;

// The longest step, in femtoseconds: from one end of the values to the other.
const LONGEST: u64 = 2 * FARTHEST;

/// The farthest that a new value may lie from the last, in femtoseconds.
#[derive(Clone, Copy, PartialEq, Eq, Debug)]
pub struct Step(pub u64);

impl Setting for Step {
    const WIDEST: Step = Step(LONGEST);

    ghost WIDEST = { longest_step };

    ghost stands = { step_stands };

    ghost permits = { step_permits };

    fn stands(self) -> bool {
        self.0 <= LONGEST
    }

    fn permits(self, last: i64, new: i64) -> bool {
        new.abs_diff(last) <= self.0
    }

    ghost widest_stands = { refl };

    ghost widest_permits = { Prim.search rules };
}

/// Says yes to a new value that is no farther from the last than the step of its entry.
pub type StepRule = EntryRule<Step>;

impl EntryRule<Step> {
    /// Sets the step of an entry. Where it refuses, nothing changes.
    pub fn set(&mut self, entry: usize, step: u64) -> Result<(), Refusal>
        ensures { SetsEntry self.old entry (step_of step) result self.new }
    {
        self.set_entry(entry, Step(step))
    }
}

/// What a rule by steps means: yes to a new value no farther from the last than the step of the entry, and to no other.
pub fn step_is_kept(rule: &StepRule)
    ensures { KeepsToSteps (⟦<StepRule as HouseRule>⟧.allowed rule.now) (settings_of rule.now) }
{}
