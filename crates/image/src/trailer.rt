ghost use Rattle.std.specs.Prelude.{◌≡◌, ◌↔◌, IsTrue};
ghost use Rattle.image.specs.Images.{trailer_bytes, trailer_from, trailer_read, EndsWithMark};

// How many bytes a trailer has.
pub(crate) const TRAILER_SIZE: usize = 16;

// How many of them its mark, and which, "TRL1".
const MARK_SIZE: usize = 4;

const MARK: [u8; MARK_SIZE] = [0x54, 0x52, 0x4C, 0x31];

// What stands at the end of an image: where the places begin, and how many records, entries and versions of an entry there are.
#[derive(Clone, Copy)]
pub(crate) struct Trailer {
    pub places: u32,
    pub count: u32,
    pub entries: u16,
    pub depth: u16,
}

impl Trailer {
    // Little-endian, the mark behind.
    #[tactic(auto, unfolding(crate::specs::Images::trailer_bytes))]
    pub fn encode(self) -> [u8; TRAILER_SIZE]
        ensures { result ≡ trailer_bytes self }
    {
        let [p0, p1, p2, p3] = self.places.to_le_bytes();
        let [n0, n1, n2, n3] = self.count.to_le_bytes();
        let [e0, e1] = self.entries.to_le_bytes();
        let [d0, d1] = self.depth.to_le_bytes();
        let [m0, m1, m2, m3] = MARK;
        [
            p0, p1, p2, p3, n0, n1, n2, n3, e0, e1, d0, d1, m0, m1, m2, m3,
        ]
    }

    // The mark is not looked at: `is_marked` does that.
    #[tactic(auto, unfolding(crate::specs::Images::trailer_from))]
    pub fn decode(bytes: [u8; TRAILER_SIZE]) -> Trailer
        ensures { result ≡ trailer_from bytes }
    {
        let [p0, p1, p2, p3, n0, n1, n2, n3, e0, e1, d0, d1, ..] = bytes;
        Trailer {
            places: u32::from_le_bytes([p0, p1, p2, p3]),
            count: u32::from_le_bytes([n0, n1, n2, n3]),
            entries: u16::from_le_bytes([e0, e1]),
            depth: u16::from_le_bytes([d0, d1]),
        }
    }

    // The one at the end of some bytes; none where they are fewer than it has.
    pub fn last(bytes: &[u8]) -> Option<Trailer>
        ensures { result ≡ trailer_read bytes.now }
    {
        let trailer = bytes.last_chunk()?;
        Some(Trailer::decode(*trailer))
    }
}

// Whether some bytes end with the mark.
pub(crate) fn is_marked(bytes: &[u8]) -> bool
    ensures { IsTrue result ↔ EndsWithMark bytes.now }
{
    match bytes.last_chunk() {
        Some(end) => *end == MARK,
        None => false,
    }
}
