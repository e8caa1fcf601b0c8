use calls::answer::Decision;
use calls::answer::Reply::{Decided, Done, Serial, Value, Voted};
use calls::call::Call;
use calls::fault::Fault;
use image::copies::write_image;
use image::image::is_image;
use image::reading::read_image;
use journal::JournalStore;
use pool::pool::Pool;
use rules::range::RangeRule;
use runner::run::run;
use std::alloc::Global;
use std::process::Abort;
use std::test::Fail;
use store::laying::LayOut;
use store::reading::ReadingStore;
use store::refusal::Refusal;
use store::text::chain_text;

pub(crate) const LEN: usize = 104;

// What a record of the image begins with, counted from its place.
pub(crate) const SEAT: usize = 1;

const BEFORE: usize = 12;

// Two entries of depth 3, written by hand from the format.
pub(crate) const IMAGE: [u8; LEN] = [
    // entry 0 opens
    0x00, 0xFF, 0x00, 0x00, 0x00, 0x00, 0x00, 0x00, 0x00, 0x00, 0x00, 0x00, 0xFF, 0xFF, 0xFF, 0xFF,
    // entry 1 opens
    0x01, 0xFF, 0x00, 0x00, 0x00, 0x00, 0x00, 0x00, 0x00, 0x00, 0x00, 0x00, 0xFF, 0xFF, 0xFF, 0xFF,
    // entry 0: 2500000 by seat 0, serial 1
    0x00, 0x00, 0x01, 0x00, 0x00, 0x00, 0xA0, 0x25, 0x26, 0x00, 0x00, 0x00, 0x00, 0x00, 0x00, 0x00,
    // entry 1: -150000 by seat 0, serial 1
    0x01, 0x00, 0x01, 0x00, 0x00, 0x00, 0x10, 0xB6, 0xFD, 0xFF, 0xFF, 0xFF, 0x10, 0x00, 0x00, 0x00,
    // entry 0: 2400000 by seat 1, serial 1
    0x00, 0x01, 0x01, 0x00, 0x00, 0x00, 0x00, 0x9F, 0x24, 0x00, 0x00, 0x00, 0x20, 0x00, 0x00, 0x00,
    // the last records
    0x40, 0x00, 0x00, 0x00, 0x30, 0x00, 0x00, 0x00,
    // the trailer
    0x50, 0x00, 0x00, 0x00, 0x05, 0x00, 0x00, 0x00, 0x02, 0x00, 0x03, 0x00, 0x54, 0x52, 0x4C, 0x31,
];

// Room for 2 entries of depth 200, so that the depth of a changed image may be any.
const ROOM: usize = 6_400;

fn a_journal(heap: Global) -> Result<JournalStore, Fail> {
    Ok(JournalStore::over(vec![in heap; 0; ROOM]?))
}

// The image with another byte at a place.
pub(crate) fn with(at: usize, byte: u8) -> [u8; LEN] {
    let mut image = IMAGE;
    if let Some(old) = image.get_mut(at) {
        *old = byte;
    }
    image
}

// Refused, or read into the journal and written again to the same bytes.
fn is_refused_or_kept(rt: &impl Abort, journal: &mut JournalStore, image: &[u8]) {
    let mut again = [0; LEN];
    match read_image(journal, image) {
        Ok(()) => {
            assert!(rt; is_image(image));
            assert_eq!(rt; write_image(journal, &mut again), Ok(LEN));
            assert_eq!(rt; &again[..], image);
        }
        Err(refusal) => {
            assert_eq!(rt; refusal, Refusal::NoImage);
            assert!(rt; !is_image(image));
        }
    }
}

#[test]
fn the_image_has_these_chains(rt: HostRuntime) -> Result<(), Fail> {
    let mut journal = a_journal(rt.alloc())?;
    read_image(&mut journal, &IMAGE)?;
    let first = chain_text(rt.alloc(), &journal, 0)?;
    assert_eq!(rt;
        first.as_str(),
        "  0 by seat 255 serial 0\n  2500000 by seat 0 serial 1\n  2400000 by seat 1 serial 1\n"
    );
    let second = chain_text(rt.alloc(), &journal, 1)?;
    assert_eq!(rt;
        second.as_str(),
        "  0 by seat 255 serial 0\n  -150000 by seat 0 serial 1\n"
    );
    assert_eq!(rt; [journal.entries(), journal.depth()], [2, 3]);
    Ok(())
}

#[test]
fn one_byte_changed(rt: HostRuntime) -> Result<(), Fail> {
    let mut journal = a_journal(rt.alloc())?;
    for at in 0..LEN {
        for byte in 0..=255u8 {
            is_refused_or_kept(&rt, &mut journal, &with(at, byte));
        }
    }
    Ok(())
}

#[test]
fn cut_short(rt: HostRuntime) -> Result<(), Fail> {
    let mut journal = a_journal(rt.alloc())?;
    for len in 0..LEN {
        assert_eq!(rt;
            read_image(&mut journal, &IMAGE[..len]),
            Err(Refusal::NoImage)
        );
    }
    Ok(())
}

#[test]
fn records_that_no_journal_has(rt: HostRuntime) -> Result<(), Fail> {
    let mut journal = a_journal(rt.alloc())?;
    let changes = [
        // a seat that is none
        (32 + SEAT, 16),
        // the record before is one of the other entry, this one, one that comes later, or inside a record
        (32 + BEFORE, 16),
        (32 + BEFORE, 32),
        (32 + BEFORE, 64),
        (32 + BEFORE, 8),
        // the opening records in another order, and one entry twice
        (0, 1),
        (16, 0),
        // the other entry's record: its record before is then another's
        (64, 1),
        // depth 2, with three records of entry 0
        (98, 2),
        // another mark
        (100, 0x55),
    ];
    for (at, byte) in changes {
        assert_eq!(rt;
            read_image(&mut journal, &with(at, byte)),
            Err(Refusal::NoImage)
        );
    }
    let mut two_openings = IMAGE;
    two_openings.copy_within(0..16, 32);
    assert_eq!(rt;
        read_image(&mut journal, &two_openings),
        Err(Refusal::NoImage)
    );
    Ok(())
}

// One byte more than is wanted, and what is behind the records stays.
#[test]
fn memory_that_is_long_enough(rt: HostRuntime) -> Result<(), Fail> {
    let mut just = JournalStore::over(vec![in rt.alloc(); 7; 97]?);
    assert_eq!(rt; read_image(&mut just, &IMAGE), Ok(()));
    assert_eq!(rt; just.bytes().get(..80), Some(&IMAGE[..80]));
    assert_eq!(rt; just.bytes().get(80..), Some(&[7; 17][..]));
    let mut out = [9; LEN + 1];
    assert_eq!(rt; write_image(&just, &mut out), Ok(LEN));
    assert_eq!(rt; out.get(..LEN), Some(&IMAGE[..]));
    assert_eq!(rt; out.get(LEN..), Some(&[9][..]));
    Ok(())
}

// The calls of a small edit, on a pool over a journal as on one over a table.
#[test]
fn a_pool_over_a_journal(rt: HostRuntime) -> Result<(), Fail> {
    let mut journal = JournalStore::over(vec![in rt.alloc(); 0; 128]?);
    journal.lay_out(2, 4)?;
    let mut pool = Pool::new(journal, RangeRule::new());
    let trial = [
        (Call::Begin { seat: 0 }, Ok(Serial(1))),
        (Call::Read { seat: 0, entry: 1 }, Ok(Value(0))),
        (
            Call::Write {
                seat: 0,
                entry: 1,
                value: -3_000_000,
            },
            Ok(Done),
        ),
        (Call::Begin { seat: 1 }, Ok(Serial(1))),
        (Call::Read { seat: 1, entry: 1 }, Err(Fault::LockInTheWay)),
        (Call::Prepare { seat: 0 }, Ok(Done)),
        (Call::Vote { seat: 0, entry: 1 }, Ok(Voted(true))),
        (Call::Decide { seat: 0 }, Ok(Decided(Decision::Commit))),
        (Call::Finish { seat: 0, entry: 1 }, Ok(Done)),
        (Call::Read { seat: 1, entry: 1 }, Ok(Value(-3_000_000))),
        (Call::Close { seat: 0 }, Ok(Done)),
    ];
    let calls = trial.map(|(call, _)| call);
    let answers = run(rt.alloc(), &mut pool, 2, &calls)?;
    for ((_, wanted), answer) in trial.iter().zip(answers.iter()) {
        assert_eq!(rt; *answer, *wanted);
    }
    let chain = chain_text(rt.alloc(), pool.store(), 1)?;
    assert_eq!(rt;
        chain.as_str(),
        "  0 by seat 255 serial 0\n  -3000000 by seat 0 serial 1\n"
    );
    Ok(())
}
