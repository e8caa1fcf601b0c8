ghost use Rattle.std.specs.Prelude.{◌≡◌, ◌+◌, ◌*◌, ◌<◌, ◌≤◌, ◌↔◌, length, IfSome, IsSome};
ghost use Rattle.store.specs.Numbers.{most_entries, least_depth};
ghost use Rattle.store.specs.Laying.{widest_sizes, laid_out_meaning};
ghost use Rattle.record.specs.Numbers.{record_size, most_records, journal_reach};
ghost use Rattle.record.specs.Bytes.{record_bytes};
ghost use Rattle.record.specs.Journals.{bytes_with, records, records_bytes};
ghost use Rattle.journal.specs.LaidOut.{bytes_laid_out, lasts_laid_out};
ghost use Rattle.journal.specs.Stores.{journal_reading, journal_writing, journal_room, bytes_of, records_of, IsLastPlace, lay_out_leaves};

use crate::{JournalStore, REACH};
use record::record::{RECORD_SIZE, Record};
use store::laying::LayOut;
use store::refusal::Refusal;
use store::sizes::{MOST_ENTRIES, WIDEST};
use store::slots::Slots;
use store::version::OPENING;

impl JournalStore {
    /// A store over memory of any length, which stays as it is: no entries until it is laid out.
    pub fn over(bytes: Vec<u8>) -> JournalStore
        ensures means { journal_writing result ≡ laid_out_meaning journal_reach 0 least_depth }
        ensures bytes { bytes_of result ≡ bytes.items }
    {
        JournalStore {
            bytes,
            count: 0,
            lasts: [0; MOST_ENTRIES],
            slots: Slots::blank(REACH),
        }
    }

    /// The memory, byte by byte.
    pub fn bytes(&self) -> &[u8]
        ensures { result.now ≡ bytes_of self.now }
    {
        self.bytes.as_slice()
    }

    /// The bytes of the records, one after another.
    pub fn records(&self) -> &[u8]
        ensures { result.now ≡ records_bytes (records_of self.now) }
    {
        front(&self.bytes, self.count)
    }

    /// Where the last record of an entry begins; none where there is no such entry.
    pub fn last_place(&self, entry: usize) -> Option<u32>
        ensures place { IfSome result (IsLastPlace self.now entry) }
        ensures entry { IsSome result ↔ (entry < (journal_reading self.now).entries) }
    {
        self.lasts[..self.slots.entries].get(entry).copied()
    }

    /// Gives the memory back.
    pub fn into_bytes(self) -> Vec<u8>
        ensures { result.items ≡ bytes_of self }
    {
        let JournalStore { bytes, .. } = self;
        bytes
    }
}

impl LayOut for JournalStore {
    ghost limits = { widest_sizes };

    ghost room = { journal_room };

    ghost lay_out_leaves = { lay_out_leaves };

    fn lay_out(&mut self, entries: usize, depth: usize) -> Result<(), Refusal> {
        WIDEST.check(self.bytes.len() / RECORD_SIZE, entries, depth)?;
        self.slots.lay_out(entries, depth)?;
        self.lasts = put_openings(&mut self.bytes, entries);
        self.count = entries;
        Ok(())
    }
}

// The opening record of each entry, in entry order, and the places beside them.
fn put_openings(bytes: &mut [u8], entries: usize) -> [u32; MOST_ENTRIES]
    requires few { entries ≤ most_entries }
    requires room { record_size * entries ≤ length bytes.old }
    ensures bytes { bytes.new ≡ bytes_laid_out bytes.old entries }
    ensures lasts { result ≡ lasts_laid_out entries }
{
    let mut lasts = [0; MOST_ENTRIES];
    for e in 0..entries {
        let place = RECORD_SIZE * e;
        put(
            bytes,
            place,
            Record {
                entry: e as u8,
                version: OPENING,
                previous: None,
            },
        );
        lasts[e] = place as u32;
    }
    lasts
}

// A record in place of as many bytes from a place on.
pub(crate) fn put(bytes: &mut [u8], place: usize, added: Record)
    requires { place + record_size ≤ length bytes.old }
    ensures { bytes.new ≡ bytes_with bytes.old place (record_bytes added) }
{
    bytes[place..place + RECORD_SIZE].copy_from_slice(&added.encode());
}

// The bytes of the first records.
fn front(bytes: &[u8], count: usize) -> &[u8]
    requires few { count ≤ most_records }
    requires room { record_size * count ≤ length bytes.now }
    ensures { result.now ≡ records_bytes (records bytes.now count) }
{
    &bytes[..RECORD_SIZE * count]
}
