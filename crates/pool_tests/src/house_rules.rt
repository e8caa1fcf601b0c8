use crate::fixture::{FAR, TOO_FAR, number};
use rules::house::HouseRule;
use rules::range::RangeRule;
use rules::step::StepRule;
use std::array;
use std::process::Abort;
use std::test::Fail;

// The longest step that may be set.
const LONGEST: u64 = 200_000_000_000_000_000;

// What a rule says at an entry, of values about those that the tests set.
fn says<R: HouseRule>(rule: &R, entry: usize) -> [bool; 5] {
    [-TOO_FAR, -6, 0, 6, TOO_FAR].map(|new| rule.allows(entry, 0, new))
}

// What it says at each entry, and at one more.
fn says_everywhere<R: HouseRule>(rule: &R) -> [[bool; 5]; 65] {
    array::from_fn(|entry| says(rule, entry))
}

// Holds what a rule answers, of an entry, a last value and a new one, to the answer beside them.
fn expect<R: HouseRule>(rt: &impl Abort, rule: &R, answers: &[(usize, i64, i64, bool)]) {
    for &(entry, last, new, answer) in answers {
        assert_eq!(rt;
            rule.allows(entry, last, new),
            answer,
            "{last} {new} at {entry}"
        );
    }
}

// No such entry, then a setting that may not stand. A refused setting changes nothing.
#[test]
fn limits_are_set_or_refused(rt: HostRuntime) -> Result<(), Fail> {
    let mut rule = RangeRule::new();
    rule.set(1, -5, 5)?;
    assert_eq!(rt; says(&rule, 0), [false, true, true, true, false]);
    assert_eq!(rt; says(&rule, 1), [false, false, true, false, false]);
    assert_eq!(rt; says(&rule, 64), [false; 5]);
    let cases = [
        (64, 0, 0, Err(2)),
        (64, 1, 0, Err(2)),
        (64, -TOO_FAR, 0, Err(2)),
        (usize::MAX, 0, 0, Err(2)),
        (usize::MAX, 1, 0, Err(2)),
        (0, i64::MAX, i64::MIN, Err(12)),
        (1, 1, 0, Err(12)),
        (1, -TOO_FAR, 0, Err(12)),
        (1, 0, TOO_FAR, Err(12)),
        (1, i64::MIN, i64::MIN, Err(12)),
        (5, 1, 0, Err(12)),
        (5, -TOO_FAR, 0, Err(12)),
        (5, 0, TOO_FAR, Err(12)),
        (5, TOO_FAR, TOO_FAR, Err(12)),
        (5, i64::MIN, i64::MAX, Err(12)),
        (0, -FAR, FAR, Ok(())),
        (63, FAR, FAR, Ok(())),
        (63, -FAR, -FAR, Ok(())),
    ];
    for (entry, smallest, largest, answer) in cases {
        let before = says_everywhere(&rule);
        let given = number(rule.set(entry, smallest, largest));
        assert_eq!(rt; given, answer, "{smallest} {largest} at {entry}");
        assert!(rt;
            answer.is_ok() || says_everywhere(&rule) == before,
            "{smallest} {largest} at {entry}"
        );
    }
    expect(&rt, &rule, &[(5, 0, -FAR, true), (5, 0, FAR, true)]);
    Ok(())
}

#[test]
fn steps_are_set_or_refused(rt: HostRuntime) -> Result<(), Fail> {
    let mut rule = StepRule::new();
    rule.set(1, 5)?;
    assert_eq!(rt; says(&rule, 0), [true; 5]);
    assert_eq!(rt; says(&rule, 1), [false, false, true, false, false]);
    assert_eq!(rt; says(&rule, 64), [false; 5]);
    let cases = [
        (64, 0, Err(2)),
        (64, LONGEST + 1, Err(2)),
        (usize::MAX, 0, Err(2)),
        (0, u64::MAX, Err(12)),
        (1, LONGEST + 1, Err(12)),
        (5, LONGEST + 1, Err(12)),
        (5, u64::MAX, Err(12)),
        (0, 0, Ok(())),
        (63, LONGEST, Ok(())),
    ];
    for (entry, step, answer) in cases {
        let before = says_everywhere(&rule);
        let given = number(rule.set(entry, step));
        assert_eq!(rt; given, answer, "{step} at {entry}");
        assert!(rt;
            answer.is_ok() || says_everywhere(&rule) == before,
            "{step} at {entry}"
        );
    }
    expect(&rt, &rule, &[(5, -FAR, FAR, true)]);
    Ok(())
}

#[test]
fn a_range_is_kept(rt: HostRuntime) -> Result<(), Fail> {
    let mut rule = RangeRule::new();
    rule.set(63, -2, 7)?;
    expect(
        &rt,
        &rule,
        &[
            (63, 0, -3, false),
            (63, 0, -2, true),
            (63, 0, 7, true),
            (63, 0, 8, false),
            (62, 0, -FAR, true),
            (62, 0, FAR, true),
            (62, 0, -TOO_FAR, false),
            (62, 0, TOO_FAR, false),
            (62, 0, i64::MIN, false),
            (62, 0, i64::MAX, false),
            (64, 0, 0, false),
            (usize::MAX, 0, 0, false),
        ],
    );
    Ok(())
}

#[test]
fn a_step_is_kept(rt: HostRuntime) -> Result<(), Fail> {
    let mut rule = StepRule::new();
    rule.set(1, 5)?;
    rule.set(2, 0)?;
    expect(
        &rt,
        &rule,
        &[
            (1, 10, 4, false),
            (1, 10, 5, true),
            (1, 10, 15, true),
            (1, 10, 16, false),
            (1, -2, 3, true),
            (1, i64::MAX, i64::MIN, false),
            (2, 9, 9, true),
            (2, 9, 8, false),
            (2, 9, 10, false),
            (63, -FAR, FAR, true),
            (63, FAR, -FAR, true),
            (63, -TOO_FAR, FAR, false),
            (63, i64::MIN, i64::MAX, false),
            (63, i64::MAX, i64::MIN, false),
            (64, 0, 0, false),
            (usize::MAX, 0, 0, false),
        ],
    );
    Ok(())
}
