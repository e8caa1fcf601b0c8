use crate::images::{IMAGE, LEN, SEAT, with};
use image::copies::write_image;
use image::reading::read_image;
use journal::JournalStore;
use std::alloc::Global;
use std::array;
use std::test::Fail;
use store::laying::LayOut;
use store::reading::ReadingStore;
use store::version::Version;
use store::writing::WritingStore;

// One byte less than the two entries of depth 3 want.
const SHORT: usize = 95;

// What can be seen of a journal of up to two entries of depth 3, and of one place past each, and its memory.
#[derive(Clone, Copy, PartialEq, Eq, Debug)]
struct SeenJournal {
    entries: usize,
    depth: usize,
    chains: [[Option<Version>; 4]; 3],
    staged: [Option<Version>; 3],
    lasts: [Option<u32>; 3],
    records: usize,
    bytes: [Option<u8>; SHORT + 1],
}

fn seen_journal(journal: &JournalStore) -> SeenJournal {
    SeenJournal {
        entries: journal.entries(),
        depth: journal.depth(),
        chains: array::from_fn(|entry| array::from_fn(|i| journal.version(entry, i))),
        staged: array::from_fn(|entry| journal.staged_at(entry)),
        lasts: array::from_fn(|entry| journal.last_place(entry)),
        records: journal.records().len(),
        bytes: array::from_fn(|i| journal.bytes().get(i).copied()),
    }
}

// With nothing laid out.
fn bare_journal(heap: Global) -> Result<JournalStore, Fail> {
    Ok(JournalStore::over(vec![in heap; 7; SHORT]?))
}

// With a version published at entry 1, and one staged at entry 0.
fn used_journal(heap: Global) -> Result<JournalStore, Fail> {
    let version = Version {
        value: -3,
        seat: 4,
        serial: 5,
    };
    let mut journal = bare_journal(heap)?;
    journal.lay_out(2, 2)?;
    journal.stage(1, version)?;
    journal.publish(1)?;
    journal.stage(0, version)?;
    Ok(journal)
}

// No image comes before memory that is too short. A refused image changes nothing.
#[test]
fn reading(rt: HostRuntime) -> Result<(), Fail> {
    let cases = [
        // an image, and one of depth 200
        (IMAGE, 16),
        (with(98, 200), 16),
        // a depth and entries that no journal has, another mark, a seat that is none
        (with(98, 201), 15),
        (with(96, 65), 15),
        (with(100, 0x55), 15),
        (with(32 + SEAT, 16), 15),
    ];
    for mut journal in [bare_journal(rt.alloc())?, used_journal(rt.alloc())?] {
        let before = seen_journal(&journal);
        for (image, refusal) in cases {
            let answer = read_image(&mut journal, &image);
            assert_eq!(rt; answer.map_err(|found| found.number()), Err(refusal));
            assert!(rt; seen_journal(&journal) == before, "{refusal}");
        }
    }
    Ok(())
}

// Nothing laid out comes before memory that is too short: the image of no entries would be a trailer of 16 bytes.
// A refused journal leaves the memory as it was.
#[test]
fn writing(rt: HostRuntime) -> Result<(), Fail> {
    let heap = rt.alloc();
    let mut journal = JournalStore::over(vec![in heap; 7; SHORT + 1]?);
    for (laid_out, lens, refusal) in [
        (false, [0, 15, 16, LEN], 12),
        (true, [0, 15, 16, LEN - 1], 16),
    ] {
        if laid_out {
            read_image(&mut journal, &IMAGE)?;
        }
        for len in lens {
            let mut out = vec![in heap; 9; len]?;
            let answer = write_image(&journal, &mut out);
            assert_eq!(rt;
                answer.map_err(|found| found.number()),
                Err(refusal),
                "{len}"
            );
            assert!(rt; out.iter().all(|byte| *byte == 9), "{len}");
        }
    }
    Ok(())
}
