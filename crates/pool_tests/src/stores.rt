use crate::fixture::{OLD, TOO_FAR, a_table, number, version};
use crate::seen::seen_table;
use std::process::Abort;
use std::test::Fail;
use store::laying::LayOut;
use store::version::{OPENING, Version};
use store::writing::WritingStore;
use table::TableStore;

fn expect_stage(
    rt: &impl Abort,
    table: &mut TableStore,
    entry: usize,
    version: Version,
    answer: Result<(), u8>,
) {
    let before = seen_table(table);
    assert_eq!(rt; number(table.stage(entry, version)), answer, "{version}");
    assert!(rt; answer.is_ok() || seen_table(table) == before, "{version}");
    assert_eq!(rt;
        table.staged_at(entry) == Some(version),
        answer.is_ok(),
        "{version}"
    );
}

// No such entry, then no such author, then a value that is too far, then a full chain. Entry 0 is full, entry 1 is not.
#[test]
fn staging(rt: HostRuntime) -> Result<(), Fail> {
    let mut table = a_table(rt.alloc(), 5, 2, 2)?;
    table.stage(0, version(1, 1, 1))?;
    table.publish(0)?;
    let cases = [
        (2, version(TOO_FAR, 16, 0), Err(2)),
        (2, version(TOO_FAR, 0, 1), Err(2)),
        (2, version(0, 16, 1), Err(2)),
        (usize::MAX, version(0, 0, 1), Err(2)),
        (0, version(TOO_FAR, 16, 1), Err(14)),
        (0, version(0, 16, 1), Err(14)),
        (0, version(0, 0, 0), Err(14)),
        (1, version(TOO_FAR, 255, 1), Err(14)),
        (1, version(-TOO_FAR, 0, 0), Err(14)),
        (1, version(TOO_FAR, 0, 1_000_001), Err(14)),
        (1, version(0, 16, 1), Err(14)),
        (1, version(0, 0, 0), Err(14)),
        (1, version(0, 0, 1_000_001), Err(14)),
        (0, version(TOO_FAR, 0, 1), Err(6)),
        (0, version(-TOO_FAR, 0, 1), Err(6)),
        (0, version(i64::MIN, 0, 1), Err(6)),
        (1, version(TOO_FAR, 0, 1), Err(6)),
        (1, version(-TOO_FAR, 15, 1_000_000), Err(6)),
        (1, version(i64::MIN, 0, 1), Err(6)),
        (0, version(TOO_FAR - 1, 0, 1), Err(7)),
        (0, version(0, 15, 1_000_000), Err(7)),
        (1, version(TOO_FAR - 1, 0, 1), Ok(())),
        (1, version(1 - TOO_FAR, 15, 1_000_000), Ok(())),
    ];
    for (entry, version, answer) in cases {
        expect_stage(&rt, &mut table, entry, version, answer);
    }
    assert_eq!(rt;
        table.cells(),
        &[OPENING, version(1, 1, 1), OPENING, OLD, OLD][..]
    );
    Ok(())
}

// No such entry, though nothing is staged there either; then nothing staged.
#[test]
fn publishing_and_withdrawing(rt: HostRuntime) -> Result<(), Fail> {
    let mut table = TableStore::over(vec![in rt.alloc(); OLD; 6]?);
    assert_eq!(rt; number(table.publish(0)), Err(2));
    assert_eq!(rt; number(table.withdraw(0)), Err(2));
    table.lay_out(2, 3)?;
    table.stage(1, version(4, 2, 9))?;
    let before = seen_table(&table);
    for (entry, refusal) in [(2, 2), (usize::MAX, 2), (0, 13)] {
        assert_eq!(rt; number(table.publish(entry)), Err(refusal));
        assert_eq!(rt; number(table.withdraw(entry)), Err(refusal));
        assert!(rt; seen_table(&table) == before, "{entry}");
    }
    table.publish(1)?;
    let before = seen_table(&table);
    assert_eq!(rt; number(table.publish(1)), Err(13));
    assert_eq!(rt; number(table.withdraw(1)), Err(13));
    assert!(rt; seen_table(&table) == before);
    assert_eq!(rt;
        table.cells(),
        &[OPENING, OLD, OLD, OPENING, version(4, 2, 9), OLD][..]
    );
    Ok(())
}

// A size out of range, then too few cells. A refused table is laid out as before, and what is staged there stays.
#[test]
fn laying_out(rt: HostRuntime) -> Result<(), Fail> {
    let mut table = a_table(rt.alloc(), 5, 1, 4)?;
    table.stage(0, version(4, 2, 9))?;
    let before = seen_table(&table);
    let cases = [
        (0, 2, 12),
        (65, 200, 12),
        (65, 2, 12),
        (64, 201, 12),
        (1, 1, 12),
        (1, 201, 12),
        (usize::MAX, usize::MAX, 12),
        (64, 200, 16),
        (3, 2, 16),
        (1, 6, 16),
    ];
    for (entries, depth, refusal) in cases {
        assert_eq!(rt;
            number(table.lay_out(entries, depth)),
            Err(refusal),
            "{entries} {depth}"
        );
        assert!(rt; seen_table(&table) == before, "{entries} {depth}");
    }
    table.lay_out(1, 5)?;
    assert_eq!(rt; table.staged_at(0), None);
    Ok(())
}
