ghost use Rattle.std.specs.Prelude.{◌≡◌};
ghost use Rattle.image.specs.Copies.{image_of, write_answer, out_after, HasLasts};

use crate::image::{MOST_TAIL, put, write_tail};
use crate::trailer::{TRAILER_SIZE, Trailer};
use journal::JournalStore;
use record::record::{PLACE_SIZE, RECORD_SIZE};
use store::reading::ReadingStore;
use store::refusal::Refusal;
use store::sizes::MOST_ENTRIES;

/// Writes the image of a journal from the start of the memory on, and answers how many bytes it has.
/// Refused where nothing is laid out, and then where the memory is too short; no other byte changes.
pub fn write_image(journal: &JournalStore, out: &mut [u8]) -> Result<usize, Refusal>
    ensures answer { result ≡ write_answer journal.now out.old }
    ensures bytes { out.new ≡ out_after (image_of journal.now) out.old result }
{
    let entries = journal.entries();
    if entries == 0 {
        return Err(Refusal::SizeOrSetting);
    }
    let records = journal.records();
    let behind = records.len();
    let len = behind + PLACE_SIZE * entries + TRAILER_SIZE;
    if out.len() < len {
        return Err(Refusal::MemoryTooShort);
    }
    let trailer = Trailer {
        places: behind as u32,
        count: (behind / RECORD_SIZE) as u32,
        entries: entries as u16,
        depth: journal.depth() as u16,
    };
    let mut room = [0; MOST_TAIL];
    let tail = &mut room[..len - behind];
    write_tail(&lasts_of(journal), trailer, tail);
    put(out, 0, records);
    put(out, behind, tail);
    Ok(len)
}

// Where the last record of each entry begins.
fn lasts_of(journal: &JournalStore) -> [u32; MOST_ENTRIES]
    ensures { HasLasts journal.now result }
{
    let mut lasts = [0; MOST_ENTRIES];
    for e in 0..journal.entries() {
        if let Some(place) = journal.last_place(e) {
            lasts[e] = place;
        }
    }
    lasts
}
