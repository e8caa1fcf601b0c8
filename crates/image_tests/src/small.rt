use image::copies::write_image;
use image::image::is_image;
use image::reading::read_image;
use journal::JournalStore;
use std::test::Fail;
use store::reading::ReadingStore;
use store::refusal::Refusal;
use store::version::{OPENING, Version};

const LEN: usize = 52;

// One entry of depth 2, with -1 by seat 7 serial 3 behind its opening version.
const IMAGE: [u8; LEN] = [
    0, 255, 0, 0, 0, 0, 0, 0, 0, 0, 0, 0, 255, 255, 255, 255, // opens
    0, 7, 3, 0, 0, 0, 255, 255, 255, 255, 255, 255, 0, 0, 0, 0, // -1
    16, 0, 0, 0, // the last record of entry 0
    32, 0, 0, 0, 2, 0, 0, 0, 1, 0, 2, 0, 0x54, 0x52, 0x4C, 0x31,
];

// The version that stands in it.
const WRITTEN: Version = Version {
    value: -1,
    seat: 7,
    serial: 3,
};

// The image with other bytes at a place.
fn with(at: usize, bytes: &[u8]) -> [u8; LEN] {
    let mut image = IMAGE;
    for (old, new) in image.iter_mut().skip(at).zip(bytes) {
        *old = *new;
    }
    image
}

#[test]
fn whole(rt: HostRuntime) -> Result<(), Fail> {
    assert!(rt; is_image(&IMAGE));
    for len in 0..LEN {
        assert!(rt; !is_image(&IMAGE[..len]));
    }
    Ok(())
}

// Of all changes of one byte these are images again: 6 × 255 of the value, 15 of the seat, 254 + 255 + 15 of the serial, and
// 198 of the depth.
#[test]
fn one_byte(rt: HostRuntime) -> Result<(), Fail> {
    let mut images: u32 = 0;
    for at in 0..LEN {
        for value in 0..=255 {
            let changed = with(at, &[value]);
            if changed != IMAGE && is_image(&changed) {
                images = images.saturating_add(1);
            }
        }
    }
    assert_eq!(rt; images, 6 * 255 + 15 + 254 + 255 + 15 + 198);
    Ok(())
}

#[test]
fn damaged(rt: HostRuntime) -> Result<(), Fail> {
    let cases = [
        // The two records the other way round.
        with(
            0,
            &[
                0, 7, 3, 0, 0, 0, 255, 255, 255, 255, 255, 255, 0, 0, 0, 0, 0, 255, 0, 0, 0, 0, 0,
                0, 0, 0, 0, 0, 255, 255, 255, 255,
            ],
        ),
        // Two opening versions.
        with(
            16,
            &[0, 255, 0, 0, 0, 0, 0, 0, 0, 0, 0, 0, 255, 255, 255, 255],
        ),
        // The place before: itself, the middle of a record, past the end, none.
        with(28, &[16, 0, 0, 0]),
        with(28, &[8, 0, 0, 0]),
        with(28, &[32, 0, 0, 0]),
        with(28, &[255, 255, 255, 255]),
        // Seat 16; serials 0 and 1,000,001; the value -2^47.
        with(17, &[16]),
        with(18, &[0]),
        with(18, &[0x41, 0x42, 0x0F, 0]),
        with(22, &[0, 0, 0, 0, 0, 0x80]),
        // An entry that there is not.
        with(16, &[1]),
        // The last place; where the places begin; one record; huge counts; no entries; depths 1 and 201; the mark.
        with(32, &[0]),
        with(36, &[31]),
        with(40, &[1]),
        with(40, &[255, 255, 255, 255]),
        with(44, &[0]),
        with(44, &[255, 255]),
        with(46, &[1]),
        with(46, &[201]),
        with(51, &[0x32]),
    ];
    for image in &cases {
        assert!(rt; !is_image(image));
    }
    assert!(rt; is_image(&with(22, &[1, 0, 0, 0, 0, 0x80])));
    assert!(rt; is_image(&with(18, &[0x40, 0x42, 0x0F, 0])));
    Ok(())
}

// The journal that the image is of writes it, and reads it again; the byte behind it stays.
#[test]
fn there_and_back(rt: HostRuntime) -> Result<(), Fail> {
    let mut journal = JournalStore::over(vec![in rt.alloc(); 0xAB; 33]?);
    let mut out = [9; LEN + 1];
    assert_eq!(rt;
        write_image(&journal, &mut out),
        Err(Refusal::SizeOrSetting)
    );
    assert_eq!(rt;
        read_image(&mut journal, &IMAGE[1..]),
        Err(Refusal::NoImage)
    );
    assert_eq!(rt;
        read_image(&mut journal, &with(46, &[3])),
        Err(Refusal::MemoryTooShort)
    );
    assert_eq!(rt; read_image(&mut journal, &IMAGE), Ok(()));
    assert_eq!(rt;
        [journal.version(0, 0), journal.version(0, 1)],
        [Some(OPENING), Some(WRITTEN)]
    );
    assert_eq!(rt;
        write_image(&journal, &mut out[..LEN - 1]),
        Err(Refusal::MemoryTooShort)
    );
    assert_eq!(rt; write_image(&journal, &mut out), Ok(LEN));
    assert!(rt; out.starts_with(&IMAGE));
    assert_eq!(rt; out[LEN], 9);
    Ok(())
}
