ghost use Rattle.std.specs.Prelude.{◌≡◌, ℕ, Option, OnOk, OnErr};
ghost use Rattle.store.specs.declared.version.Version.{Version};
ghost use Rattle.store.specs.Meaning.{IsSoundWriting, meaning_of};
ghost use Rattle.store.specs.Steps.{Stages, Publishes, Withdraws};

use crate::reading::ReadingStore;
use crate::refusal::Refusal;
use crate::version::Version;

/// A reading store that can also stage a version beside a chain, and publish it or withdraw it. Its meaning is two members, the
/// parent's and its own: one for both would be tied to the parent's by a law, which each look at the chains would have to cite.
/// A call that is refused leaves the store as it was, its memory too. What an accepted call leaves of its memory, each store says
/// in members of its own.
pub trait WritingStore: ReadingStore {
    // For each entry, its staged version or none.
    ghost staged: { Self → ℕ → Option Version };

    // What an accepted call leaves of the store's memory, to the byte.
    ghost stage_leaves: { Self → ℕ → Version → Self → Type 0 };

    ghost publish_leaves: { Self → ℕ → Self → Type 0 };

    ghost withdraw_leaves: { Self → ℕ → Self → Type 0 };

    /// The version staged beside the chain of an entry, if there is one.
    fn staged_at(&self, entry: usize) -> Option<Version>
        ensures { result ≡ staged self.now entry };

    /// Stages a version beside the chain of an entry, over one that is staged there already.
    fn stage(&mut self, entry: usize, version: Version) -> Result<(), Refusal>
        ensures means { Stages Self.reading staged self.old entry version result self.new }
        ensures leaves { OnOk result (stage_leaves self.old entry version self.new) }
        ensures refused { OnErr result (self.new ≡ self.old) };

    /// Moves what is staged to the end of the chain of its entry.
    fn publish(&mut self, entry: usize) -> Result<(), Refusal>
        ensures means { Publishes Self.reading staged self.old entry result self.new }
        ensures leaves { OnOk result (publish_leaves self.old entry self.new) }
        ensures refused { OnErr result (self.new ≡ self.old) };

    /// Drops what is staged beside the chain of an entry.
    fn withdraw(&mut self, entry: usize) -> Result<(), Refusal>
        ensures means { Withdraws Self.reading staged self.old entry result self.new }
        ensures leaves { OnOk result (withdraw_leaves self.old entry self.new) }
        ensures refused { OnErr result (self.new ≡ self.old) };

    // What every writing store owes beside that.
    ghost writable: { (s : Self) → IsSoundWriting (meaning_of Self.reading staged s) };
}
