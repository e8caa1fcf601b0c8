ghost use Rattle.std.specs.Prelude.{◌≡◌, length};
ghost use Rattle.std.specs.List.{slice_get};
ghost use Rattle.store.specs.Meaning.{ReadingMeaning, IsSoundReading};

use crate::version::Version;

/// A store that answers questions about its chains. Answering changes nothing.
pub trait ReadingStore {
    // What the store means: all that its answers rest on.
    ghost reading: { Self → ReadingMeaning };

    /// How many entries it has, numbered from 0.
    fn entries(&self) -> usize
        ensures { result ≡ (reading self.now).entries };

    /// How many versions a chain may have.
    fn depth(&self) -> usize
        ensures { result ≡ (reading self.now).depth };

    /// How far from 0 a value may lie, in femtoseconds.
    fn reach(&self) -> u64
        ensures { result ≡ (reading self.now).reach };

    /// How many versions the chain of an entry has; 0 where there is no such entry.
    fn chain_len(&self, entry: usize) -> usize
        ensures { result ≡ length ((reading self.now).chains entry) };

    /// Version i of the chain of an entry, counted from 0; past the end there is none.
    fn version(&self, entry: usize, i: usize) -> Option<Version>
        ensures { result ≡ slice_get ((reading self.now).chains entry) i };

    // What every reading store owes of its meaning, and every user may rely on.
    ghost readable: { (s : Self) → IsSoundReading (reading s) };
}
