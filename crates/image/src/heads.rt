ghost use Rattle.std.specs.Prelude.{◌≡◌, ◌*◌, ◌≤◌, ◌↔◌, true, length, None, IsTrue, IfSome, IfNone};
ghost use Rattle.store.specs.Numbers.{most_entries};
ghost use Rattle.store.specs.Laying.{sizes_fit, widest_sizes};
ghost use Rattle.store.specs.Meaning.{opening};
ghost use Rattle.record.specs.Numbers.{record_size, most_records};
ghost use Rattle.record.specs.Journals.{Journaled, records, entry_record, opening_records};
ghost use Rattle.image.specs.Heads.{OpenWith, JournaledWith, may_follow};

use journal::REACH;
use record::record::{RECORD_SIZE, Record};
use store::sizes::MOST_ENTRIES;
use store::version::NO_SEAT;

// The heads of the chains: how long each is, and where its last record begins.
#[derive(Clone, Copy)]
pub(crate) struct Heads {
    pub lens: [usize; MOST_ENTRIES],
    pub lasts: [u32; MOST_ENTRIES],
}

impl Heads {
    // Whether a publish may have added the record, where the chains have these heads.
    fn allow(&self, added: Record, entries: usize, depth: usize) -> bool
        requires { entries ≤ most_entries }
        ensures { result ≡ may_follow entries depth self.now.lens self.now.lasts added }
    {
        let entry = usize::from(added.entry);
        entry < entries
            && added.version.has_author()
            && added.version.is_within(REACH)
            && added.previous == Some(self.lasts[entry])
            && self.lens[entry] < depth
    }
}

// Whether the record is the opening one of an entry.
fn is_opening(first: Record, entry: usize) -> bool
    ensures { IsTrue result ↔ (first ≡ entry_record entry opening None) }
{
    let Record {
        entry: of,
        version,
        previous,
    } = first;
    usize::from(of) == entry
        && version.value == 0
        && version.seat == NO_SEAT
        && version.serial == 0
        && previous.is_none()
}

// The heads of chains of one version each, where the first records are the opening ones in entry order.
fn opening_heads(bytes: &[u8], entries: usize) -> Option<Heads>
    requires few { entries ≤ most_entries }
    requires room { record_size * entries ≤ length bytes.now }
    ensures some { IfSome result (OpenWith bytes.now entries) }
    ensures none { IfNone result (records bytes.now entries ≡ opening_records entries → ⊥) }
{
    let mut lasts = [0; MOST_ENTRIES];
    for e in 0..entries {
        let place = RECORD_SIZE * e;
        let first = Record::read(bytes, place)?;
        if !is_opening(first, e) {
            return None;
        }
        lasts[e] = place as u32;
    }
    Some(Heads {
        lens: [1; MOST_ENTRIES],
        lasts,
    })
}

// The heads of the chains of the first records, in one pass over them; none where no journal has such records.
pub(crate) fn heads_of(bytes: &[u8], count: usize, entries: usize, depth: usize) -> Option<Heads>
    requires sizes { sizes_fit widest_sizes entries depth ≡ true }
    requires few { count ≤ most_records }
    requires room { record_size * count ≤ length bytes.now }
    ensures some { IfSome result (JournaledWith bytes.now count entries depth) }
    ensures none { IfNone result (Journaled entries depth (records bytes.now count) → ⊥) }
{
    if count < entries {
        return None;
    }
    let mut heads = opening_heads(bytes, entries)?;
    for k in entries..count {
        let place = RECORD_SIZE * k;
        let added = Record::read(bytes, place)?;
        if !heads.allow(added, entries, depth) {
            return None;
        }
        let entry = usize::from(added.entry);
        heads.lens[entry] += 1;
        heads.lasts[entry] = place as u32;
    }
    Some(heads)
}
