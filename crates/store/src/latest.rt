ghost use Rattle.std.specs.Prelude.{◌≡◌};
ghost use Rattle.store.specs.Meaning.{last_version};

use crate::reading::ReadingStore;
use crate::version::{OPENING, Version};

/// The last version of the chain of an entry; the opening version where there is no such entry.
#[tactic(auto, using(crate::proofs::Chains::last_or_opening))]
pub fn last_version<S: ReadingStore>(store: &S, entry: usize) -> Version
    ensures { result ≡ last_version ((S.reading store.now).chains entry) }
{
    match store.chain_len(entry) {
        0 => OPENING,
        len => store.version(entry, len - 1).unwrap_or(OPENING),
    }
}
