use std::process::Abort;
use store::laying::LayOut;
use store::refusal::Refusal;
use store::version::{OPENING, Version};

#[derive(Clone, Copy)]
enum Call {
    LayOut(usize, usize),
    Stage(usize, Version),
    Publish(usize),
    Withdraw(usize),
}

pub(crate) fn by(seat: u8, serial: u32, value: i64) -> Version {
    Version {
        value,
        seat,
        serial,
    }
}

// Makes the calls in order, and holds each answer to the one beside it.
fn expect<S: LayOut>(rt: &impl Abort, store: &mut S, calls: &[(Call, Result<(), Refusal>)]) {
    for (call, answer) in calls {
        let given = match *call {
            Call::LayOut(entries, depth) => store.lay_out(entries, depth),
            Call::Stage(entry, version) => store.stage(entry, version),
            Call::Publish(entry) => store.publish(entry),
            Call::Withdraw(entry) => store.withdraw(entry),
        };
        assert_eq!(rt; given, *answer);
    }
}

// Room for so many versions, entries and a depth, and what laying out answers.
pub(crate) const SIZES: [(usize, usize, usize, Result<(), Refusal>); 11] = [
    (400, 0, 2, Err(Refusal::SizeOrSetting)),
    (400, 65, 2, Err(Refusal::SizeOrSetting)),
    (400, 1, 1, Err(Refusal::SizeOrSetting)),
    (400, 1, 201, Err(Refusal::SizeOrSetting)),
    (0, 65, 201, Err(Refusal::SizeOrSetting)),
    (1, 1, 2, Err(Refusal::MemoryTooShort)),
    (2, 1, 2, Ok(())),
    (199, 1, 200, Err(Refusal::MemoryTooShort)),
    (200, 1, 200, Ok(())),
    (127, 64, 2, Err(Refusal::MemoryTooShort)),
    (128, 64, 2, Ok(())),
];

// Of a store that is not laid out.
pub(crate) fn laying_out<S: LayOut>(
    rt: &impl Abort,
    store: &mut S,
    entries: usize,
    depth: usize,
    answer: Result<(), Refusal>,
) {
    assert_eq!(rt; store.lay_out(entries, depth), answer);
    assert_eq!(rt; store.entries(), if answer.is_ok() { entries } else { 0 });
    assert_eq!(rt; store.depth(), if answer.is_ok() { depth } else { 2 });
}

// With the two values that are farthest from 0, and the next ones.
pub(crate) fn authors_and_values<S: LayOut>(
    rt: &impl Abort,
    store: &mut S,
    [largest, smallest]: [i64; 2],
    [above, below]: [i64; 2],
) {
    expect(rt, store, &[(Call::LayOut(1, 2), Ok(()))]);
    let cases = [
        (largest, 15, 1, Ok(())),
        (smallest, 0, 1_000_000, Ok(())),
        (above, 15, 1, Err(Refusal::ValueBeyondReach)),
        (below, 15, 1, Err(Refusal::ValueBeyondReach)),
        (above, 16, 1, Err(Refusal::NoSuchAuthor)),
        (0, 15, 0, Err(Refusal::NoSuchAuthor)),
        (0, 15, 1_000_001, Err(Refusal::NoSuchAuthor)),
    ];
    for (value, seat, serial, answer) in cases {
        let version = by(seat, serial, value);
        assert_eq!(rt; store.stage(0, version), answer);
        assert_eq!(rt; store.staged_at(0) == Some(version), answer.is_ok());
        assert_eq!(rt; store.stage(1, version), Err(Refusal::NoSuchEntry));
    }
}

// Of a store with room for five versions: what is refused leaves what is staged, and laying out drops it.
pub(crate) fn laid_out_twice<S: LayOut>(rt: &impl Abort, store: &mut S) {
    let refused = [
        (Call::LayOut(2, 2), Ok(())),
        (Call::Publish(1), Err(Refusal::NothingStaged)),
        (Call::Withdraw(1), Err(Refusal::NothingStaged)),
        (Call::Publish(2), Err(Refusal::NoSuchEntry)),
        (Call::Withdraw(2), Err(Refusal::NoSuchEntry)),
        (Call::Stage(1, by(0, 1, 3)), Ok(())),
        (Call::LayOut(2, 3), Err(Refusal::MemoryTooShort)),
    ];
    expect(rt, store, &refused);
    assert_eq!(rt; store.staged_at(1), Some(by(0, 1, 3)));
    expect(rt, store, &[(Call::LayOut(2, 2), Ok(()))]);
    assert_eq!(rt; store.staged_at(1), None);
}

// Of such a store then: the last version that is staged is published.
pub(crate) fn the_last_staged<S: LayOut>(rt: &impl Abort, store: &mut S) {
    let published = [
        (Call::Stage(1, by(0, 1, 4)), Ok(())),
        (Call::Withdraw(1), Ok(())),
        (Call::Withdraw(1), Err(Refusal::NothingStaged)),
        (Call::Stage(1, by(0, 1, 5)), Ok(())),
        (Call::Stage(1, by(0, 1, 6)), Ok(())),
        (Call::Publish(1), Ok(())),
        (Call::Publish(1), Err(Refusal::NothingStaged)),
        (Call::Stage(1, by(0, 1, 7)), Err(Refusal::ChainFull)),
    ];
    expect(rt, store, &published);
    assert_eq!(rt;
        [store.version(1, 1), store.version(1, 2)],
        [Some(by(0, 1, 6)), None]
    );
}

// Of a store with room for four versions at least.
pub(crate) fn two_entries<S: LayOut>(rt: &impl Abort, store: &mut S) {
    let calls = [
        (Call::LayOut(2, 2), Ok(())),
        (Call::Stage(1, by(7, 3, -1)), Ok(())),
        (Call::Stage(0, by(2, 1, 500)), Ok(())),
        (Call::Publish(1), Ok(())),
        (Call::Publish(1), Err(Refusal::NothingStaged)),
        (Call::Publish(2), Err(Refusal::NoSuchEntry)),
        (Call::Stage(1, by(7, 6, 3)), Err(Refusal::ChainFull)),
        (Call::Publish(0), Ok(())),
    ];
    expect(rt, store, &calls);
    let versions = [
        store.version(1, 0),
        store.version(1, 1),
        store.version(1, 2),
        store.version(0, 1),
        store.version(2, 0),
    ];
    assert_eq!(rt;
        versions,
        [
            Some(OPENING),
            Some(by(7, 3, -1)),
            None,
            Some(by(2, 1, 500)),
            None
        ]
    );
}

// Of a store with room for three versions at least: what is withdrawn stands in no chain.
pub(crate) fn one_entry<S: LayOut>(rt: &impl Abort, store: &mut S) {
    let calls = [
        (Call::LayOut(1, 3), Ok(())),
        (Call::Stage(0, by(1, 1, 2)), Ok(())),
        (Call::Publish(0), Ok(())),
        (Call::Stage(0, by(1, 2, 3)), Ok(())),
        (Call::Withdraw(0), Ok(())),
        (Call::Withdraw(0), Err(Refusal::NothingStaged)),
        (Call::Withdraw(1), Err(Refusal::NoSuchEntry)),
        (Call::Stage(0, by(1, 3, 4)), Ok(())),
        (Call::Stage(0, by(1, 3, 5)), Ok(())),
        (Call::Publish(0), Ok(())),
    ];
    expect(rt, store, &calls);
    assert_eq!(rt; store.chain_len(0), 3);
}

// Of such a store then: laying out drops all but the opening version.
pub(crate) fn laid_out_again<S: LayOut>(rt: &impl Abort, store: &mut S) {
    expect(rt, store, &[(Call::LayOut(1, 2), Ok(()))]);
    assert_eq!(rt;
        [store.version(0, 0), store.version(0, 1)],
        [Some(OPENING), None]
    );
}
