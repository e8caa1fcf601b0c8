use crate::fixture::{FAR, a_table, version};
use std::test::Fail;
use store::text::chain_text;
use store::writing::WritingStore;

// Two entries with room for three versions each: entry 1 has all three, entry 0 the first alone, and there is no entry 2.
#[test]
fn chains_as_text(rt: HostRuntime) -> Result<(), Fail> {
    let mut store = a_table(rt.alloc(), 6, 2, 3)?;
    for version in [version(-5, 3, 2), version(FAR, 15, 1_000_000)] {
        store.stage(1, version)?;
        store.publish(1)?;
    }
    let texts = [
        (0, "  0 by seat 255 serial 0\n"),
        (
            1,
            "  0 by seat 255 serial 0\n  -5 by seat 3 serial 2\n  100000000000000000 by seat 15 serial 1000000\n",
        ),
        (2, ""),
    ];
    for (entry, text) in texts {
        assert_eq!(rt;
            chain_text(rt.alloc(), &store, entry)?.as_str(),
            text,
            "at {entry}"
        );
    }
    Ok(())
}
