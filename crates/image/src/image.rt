ghost use Rattle.std.specs.Prelude.{◌≡◌, ◌+◌, ◌≤◌, ◌↔◌, length, IsTrue, IfSome, IfNone};
ghost use Rattle.store.specs.Numbers.{most_entries};
ghost use Rattle.record.specs.Journals.{bytes_with};
ghost use Rattle.image.specs.Images.{IsImage};
ghost use Rattle.image.specs.Contents.{HasContents};
ghost use Rattle.image.specs.Tails.{written_tail, tail_size};

use crate::heads::heads_of;
use crate::trailer::{TRAILER_SIZE, Trailer, is_marked};
use record::record::{PLACE_SIZE, RECORD_SIZE};
use store::sizes::{MOST_ENTRIES, WIDEST};

// How many bytes may stand behind the records.
pub(crate) const MOST_TAIL: usize = PLACE_SIZE * MOST_ENTRIES + TRAILER_SIZE;

// What an image has: its entries and depth, and how many records.
#[derive(Clone, Copy)]
pub(crate) struct Contents {
    pub entries: usize,
    pub depth: usize,
    pub count: usize,
}

/// Whether some journal has these bytes as its image.
pub fn is_image(bytes: &[u8]) -> bool
    ensures { IsTrue result ↔ IsImage bytes.now }
{
    contents_of(bytes).is_some()
}

// What the image has that the bytes are; none where they are no image.
pub(crate) fn contents_of(bytes: &[u8]) -> Option<Contents>
    ensures some { IfSome result (HasContents bytes.now) }
    ensures none { IfNone result (IsImage bytes.now → ⊥) }
{
    let trailer = Trailer::last(bytes)?;
    if !is_marked(bytes) {
        return None;
    }
    let count = trailer.count as usize;
    let entries = usize::from(trailer.entries);
    let depth = usize::from(trailer.depth);
    if !WIDEST.fit(entries, depth) || count > entries * depth {
        return None;
    }
    let behind = RECORD_SIZE * count;
    if bytes.len() != behind + PLACE_SIZE * entries + TRAILER_SIZE {
        return None;
    }
    let heads = heads_of(bytes, count, entries, depth)?;
    let trailer = Trailer {
        places: behind as u32,
        ..trailer
    };
    if !is_tail(&bytes[behind..], &heads.lasts, trailer) {
        return None;
    }
    Some(Contents {
        entries,
        depth,
        count,
    })
}

// Whether the bytes are these places, and then this trailer.
fn is_tail(bytes: &[u8], lasts: &[u32; MOST_ENTRIES], trailer: Trailer) -> bool
    requires few { trailer.entries ≤ most_entries }
    requires long { length bytes.now ≡ tail_size trailer }
    ensures { IsTrue result ↔ (bytes.now ≡ written_tail lasts.now trailer) }
{
    let mut room = [0; MOST_TAIL];
    let tail = &mut room[..bytes.len()];
    write_tail(lasts, trailer, tail);
    *tail == *bytes
}

// The places, and then the trailer, into memory of just their length.
pub(crate) fn write_tail(lasts: &[u32; MOST_ENTRIES], trailer: Trailer, out: &mut [u8])
    requires few { trailer.entries ≤ most_entries }
    requires room { length out.old ≡ tail_size trailer }
    ensures { out.new ≡ written_tail lasts.now trailer }
{
    let entries = usize::from(trailer.entries);
    for e in 0..entries {
        put(out, PLACE_SIZE * e, &lasts[e].to_le_bytes());
    }
    put(out, PLACE_SIZE * entries, &trailer.encode());
}

// Bytes in place of as many from a place on.
pub(crate) fn put(out: &mut [u8], place: usize, added: &[u8])
    requires { place + length added.now ≤ length out.old }
    ensures { out.new ≡ bytes_with out.old place added.now }
{
    out[place..place + added.len()].copy_from_slice(added);
}
