use crate::fixture::{FAR, TOO_FAR, by_number, number, version};
use calls::answer::Decision;
use calls::answer::Reply::{self, Decided, Done, Serial, Value, Voted};
use edges::cases::{Edge, follows_ten, open_for, play, stage_first};
use std::alloc::Global;
use std::process::Abort;
use std::test::Fail;

fn expect(
    rt: &impl Abort,
    alloc: Global,
    edge: Edge,
    answers: &[Result<Reply, u8>],
) -> Result<(), Fail> {
    let given = play(alloc, edge)?;
    assert_eq!(rt; given.len(), answers.len(), "{edge:?}");
    for (given, answer) in given.iter().zip(answers.iter()) {
        assert_eq!(rt; by_number(*given), *answer, "{edge:?}");
    }
    Ok(())
}

#[test]
fn lists_of_calls(rt: HostRuntime) -> Result<(), Fail> {
    let answers: [(Edge, &[Result<Reply, u8>]); 5] = [
        (
            Edge::FilledChain,
            &[
                Ok(Serial(1)),
                Ok(Done),
                Ok(Done),
                Ok(Voted(true)),
                Ok(Decided(Decision::Commit)),
                Ok(Done),
                Ok(Done),
                Ok(Serial(2)),
                Err(7),
            ],
        ),
        (
            Edge::TwoReaders,
            &[
                Ok(Serial(1)),
                Ok(Serial(1)),
                Ok(Value(0)),
                Ok(Value(0)),
                Err(5),
                Err(5),
            ],
        ),
        (
            Edge::LoneReader,
            &[Ok(Serial(1)), Ok(Value(0)), Ok(Done), Ok(Value(7))],
        ),
        (
            Edge::EmptyEdit,
            &[
                Ok(Serial(1)),
                Ok(Done),
                Ok(Decided(Decision::Commit)),
                Ok(Done),
            ],
        ),
        (
            Edge::OneNo,
            &[
                Ok(Serial(1)),
                Ok(Done),
                Ok(Done),
                Ok(Done),
                Ok(Voted(false)),
                Ok(Decided(Decision::Abort)),
            ],
        ),
    ];
    for (edge, answers) in answers {
        expect(&rt, rt.alloc(), edge, answers)?;
    }
    Ok(())
}

#[test]
fn seats_values_and_steps(rt: HostRuntime) -> Result<(), Fail> {
    for (seats, answer) in [(16, Ok(())), (17, Err(12))] {
        let given = open_for(rt.alloc(), seats)?;
        assert_eq!(rt; by_number(given), answer);
    }
    for (value, answer) in [
        (FAR, Ok(())),
        (TOO_FAR, Err(6)),
        (-FAR, Ok(())),
        (-TOO_FAR, Err(6)),
    ] {
        let given = stage_first(rt.alloc(), version(value, 0, 1))?;
        assert_eq!(rt; number(given), answer);
    }
    for (value, allowed) in [(4, false), (5, true), (15, true), (16, false)] {
        assert_eq!(rt; follows_ten(value), allowed);
    }
    Ok(())
}
