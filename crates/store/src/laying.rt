ghost use Rattle.std.specs.Prelude.{◌≡◌, ℕ, OnOk, OnErr};
ghost use Rattle.store.specs.declared.sizes.SizeLimits.{SizeLimits};
ghost use Rattle.store.specs.Laying.{LaysOut, lay_out_answer};

use crate::refusal::Refusal;
use crate::writing::WritingStore;

/// A writing store with a memory of its own, over which it can be laid out anew. A store over another store has none.
pub trait LayOut: WritingStore {
    // Which sizes it may have.
    ghost limits: { SizeLimits };

    // How many versions its memory has room for.
    ghost room: { Self → ℕ };

    // What laying out leaves of its memory, to the byte.
    ghost lay_out_leaves: { Self → ℕ → ℕ → Self → Type 0 };

    /// Gives the store so many entries of such a depth, each with its opening version alone. What was staged is dropped.
    /// Refused, in this order, for a size out of its limits and for a memory with room for fewer versions than entries × depth.
    fn lay_out(&mut self, entries: usize, depth: usize) -> Result<(), Refusal>
        ensures answer { result ≡ lay_out_answer limits (room self.old) entries depth }
        ensures means { LaysOut Self.reading Self.staged self.old entries depth result self.new }
        ensures leaves { OnOk result (lay_out_leaves self.old entries depth self.new) }
        ensures refused { OnErr result (self.new ≡ self.old) };
}
