ghost use Rattle.std.specs.Prelude.{◌≡◌, replicate};
ghost use Rattle.rules.specs.EntryRule.{settings_of, SetsEntry};
ghost use Rattle.rules.specs.Settings.{entry_allows, settings_count};

use super::EntryRule;
use crate::house::{ENTRIES, HouseRule};
use crate::setting::Setting;
use store::refusal::Refusal;

impl<T: Setting> EntryRule<T> {
    /// At first every entry has the widest setting.
    pub fn new() -> EntryRule<T>
        ensures { settings_of result ≡ replicate settings_count T.WIDEST }
    {
        EntryRule {
            settings: [T::WIDEST; ENTRIES],
        }
    }

    /// Sets one entry. Refuses an entry above 63 (2), then a setting that does not stand (12), and then changes nothing.
    pub fn set_entry(&mut self, entry: usize, setting: T) -> Result<(), Refusal>
        ensures { SetsEntry self.old entry setting result self.new }
    {
        // Not by `get_mut`: of an array after it a proof knows the length alone.
        if entry >= ENTRIES {
            return Err(Refusal::NoSuchEntry);
        }
        if !setting.stands() {
            return Err(Refusal::SizeOrSetting);
        }
        self.settings[entry] = setting;
        Ok(())
    }
}

impl<T: Setting> HouseRule for EntryRule<T> {
    ghost allowed = { λ rule. entry_allows T.permits (settings_of rule) };

    fn allows(&self, entry: usize, last: i64, new: i64) -> bool {
        self.settings
            .get(entry)
            .is_some_and(|setting| setting.permits(last, new))
    }
}
