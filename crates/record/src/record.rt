ghost use Rattle.std.specs.Prelude.{◌≡◌, ℕ, List};
ghost use Rattle.record.specs.declared.record.Record.{Record};
ghost use Rattle.record.specs.Bytes.{record_bytes, record_from, record_read, previous_number, previous_from, value_bytes, value_from, Fits, IsWhole};

use store::version::Version;

/// How many bytes a record has.
pub const RECORD_SIZE: usize = 16;

/// How many bytes a place has.
pub const PLACE_SIZE: usize = 4;

// What stands for the place of a previous record where there is none.
const NO_PLACE: u32 = 4_294_967_295;

// How many bytes its value has.
const VALUE_SIZE: usize = 6;

/// One version of one entry, and the place of the entry's record before it: how many bytes from the start that one begins.
#[derive(Clone, Copy, PartialEq, Eq, Debug)]
pub struct Record {
    pub entry: u8,
    pub version: Version,
    pub previous: Option<u32>,
}

impl Record {
    /// Little-endian: entry, seat, serial, value, and the place of the previous record.
    #[tactic(auto, unfolding(crate::specs::Bytes::record_bytes))]
    pub fn encode(self) -> [u8; RECORD_SIZE]
        ensures { result ≡ record_bytes self }
    {
        let [s0, s1, s2, s3] = self.version.serial.to_le_bytes();
        let [v0, v1, v2, v3, v4, v5, _, _] = self.version.value.to_le_bytes();
        let [p0, p1, p2, p3] = self.previous.unwrap_or(NO_PLACE).to_le_bytes();
        [
            self.entry,
            self.version.seat,
            s0,
            s1,
            s2,
            s3,
            v0,
            v1,
            v2,
            v3,
            v4,
            v5,
            p0,
            p1,
            p2,
            p3,
        ]
    }

    /// Undoes `encode`, whatever the bytes are.
    pub fn decode(bytes: [u8; RECORD_SIZE]) -> Record
        ensures { result ≡ record_from bytes }
    {
        let [
            entry,
            seat,
            s0,
            s1,
            s2,
            s3,
            v0,
            v1,
            v2,
            v3,
            v4,
            v5,
            p0,
            p1,
            p2,
            p3,
        ] = bytes;
        Record {
            entry,
            version: Version {
                value: value_from([v0, v1, v2, v3, v4, v5]),
                seat,
                serial: u32::from_le_bytes([s0, s1, s2, s3]),
            },
            previous: previous_from(u32::from_le_bytes([p0, p1, p2, p3])),
        }
    }

    /// The record that begins so many bytes from the start; none where fewer follow than a record has.
    pub fn read(bytes: &[u8], place: usize) -> Option<Record>
        ensures { result ≡ record_read bytes.now place }
    {
        let record = bytes.get(place..)?.first_chunk()?;
        Some(Record::decode(*record))
    }
}

// The two bytes above the six repeat the sign.
fn value_from(six: [u8; VALUE_SIZE]) -> i64
    ensures { result ≡ value_from six }
{
    let [v0, v1, v2, v3, v4, v5] = six;
    let sign = if v5 < 128 { 0 } else { 255 };
    i64::from_le_bytes([v0, v1, v2, v3, v4, v5, sign, sign])
}

fn previous_from(place: u32) -> Option<u32>
    ensures { result ≡ previous_from place }
{
    match place {
        NO_PLACE => None,
        _ => Some(place),
    }
}

/// Encoding and decoding undo one another, whatever the bytes are.
pub fn undone()
    ensures spelled { (bytes : List ℕ) → IsWhole bytes → record_bytes (record_from bytes) ≡ bytes }
    ensures again { (r : Record) → Fits r → record_from (record_bytes r) ≡ r }
{}
