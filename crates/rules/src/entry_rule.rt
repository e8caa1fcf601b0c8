ghost use Rattle.std.specs.Prelude.{◌≡◌, true};
ghost use Rattle.std.specs.List.{All};

use crate::house::ENTRIES;
use crate::setting::Setting;

pub mod ops;

/// A house rule with a setting of its own for each entry.
#[derive(Drop)]
pub struct EntryRule<T: Setting> {
    settings: [T; ENTRIES],
    ghost standing: { All (λ s. T.stands s ≡ true) settings },
}
