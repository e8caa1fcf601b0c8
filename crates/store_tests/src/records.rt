use record::record::{RECORD_SIZE, Record};
use std::test::Fail;
use store::version::Version;

fn a_record(entry: u8, value: i64, seat: u8, serial: u32, previous: Option<u32>) -> Record {
    Record {
        entry,
        version: Version {
            value,
            seat,
            serial,
        },
        previous,
    }
}

// The bytes are written by hand from the format.
#[test]
fn bytes(rt: HostRuntime) -> Result<(), Fail> {
    let cases: [(Record, [u8; RECORD_SIZE]); 4] = [
        (
            a_record(3, -2, 15, 1_000_000, None),
            [
                3, 15, 0x40, 0x42, 0x0F, 0, 0xFE, 0xFF, 0xFF, 0xFF, 0xFF, 0xFF, 0xFF, 0xFF, 0xFF,
                0xFF,
            ],
        ),
        (
            a_record(63, 140_737_488_355_327, 0, 1, Some(258)),
            [
                63, 0, 1, 0, 0, 0, 0xFF, 0xFF, 0xFF, 0xFF, 0xFF, 0x7F, 2, 1, 0, 0,
            ],
        ),
        (
            a_record(0, -140_737_488_355_328, 255, 0, Some(0)),
            [0, 255, 0, 0, 0, 0, 0, 0, 0, 0, 0, 0x80, 0, 0, 0, 0],
        ),
        (
            a_record(255, 0x0605_0403_0201, 7, 0x0D0C_0B0A, Some(4_294_967_294)),
            [
                255, 7, 0x0A, 0x0B, 0x0C, 0x0D, 1, 2, 3, 4, 5, 6, 0xFE, 0xFF, 0xFF, 0xFF,
            ],
        ),
    ];
    for (record, bytes) in cases {
        assert_eq!(rt; record.encode(), bytes);
        assert_eq!(rt; Record::decode(bytes), record);
    }
    Ok(())
}

#[test]
fn places(rt: HostRuntime) -> Result<(), Fail> {
    let bytes = [9, 9, 5, 1, 2, 0, 0, 0, 3, 0, 0, 0, 0, 0, 4, 0, 0, 0];
    assert_eq!(rt;
        Record::read(&bytes, 2),
        Some(a_record(5, 3, 1, 2, Some(4)))
    );
    assert_eq!(rt; Record::read(&bytes, 3), None);
    assert_eq!(rt; Record::read(&bytes, 19), None);
    assert_eq!(rt; Record::read(&bytes, usize::MAX), None);
    Ok(())
}
