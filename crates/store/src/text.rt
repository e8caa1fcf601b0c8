ghost use Rattle.std.specs.Prelude.{◌≡◌, IfOk, string_bytes};
ghost use Rattle.store.specs.Texts.{text_at};

use crate::reading::ReadingStore;
use std::alloc::{AllocError, Global};

/// The chain of an entry as text: a line for each version, the oldest first, each after two blanks.
/// Of an entry that the store does not have, no text.
pub fn chain_text<S: ReadingStore>(
    heap: Global,
    store: &S,
    entry: usize,
) -> Result<String, AllocError>
    ensures { IfOk result (λ text. string_bytes text ≡ text_at (S.reading store.now) entry) }
{
    let mut text = String::new(heap);
    // By index: of a loop over `filter_map` the check refuses its own statement, once the loop has an invariant.
    for i in 0..store.chain_len(entry) {
        if let Some(version) = store.version(entry, i) {
            writeln!(text, "  {version}")?;
        }
    }
    Ok(text)
}
