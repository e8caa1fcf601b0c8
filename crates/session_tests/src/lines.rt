use calls::call::Call;
use calls::fault::Fault;
use session_lines::call::read_call;
use session_lines::fault::{Cause, Layer, LineFault, SessionFault};
use session_lines::sizes::{Sizes, read_sizes};
use session_lines::timescale::read_timescale;
use std::test::Fail;
use store::refusal::Refusal;
use words::fault::WordFault;

const WORDS: Cause = Cause::Line(LineFault::WrongWords);

const NUMBER: Cause = Cause::Word(WordFault::NumberForm);

const TOO_FAR: Cause = Cause::Line(LineFault::TooFar);

// Timescales, their factors, and the farthest value that is within reach and the next that is not.
const SCALES: [(&str, i64, &str, &str); 18] = [
    ("1 fs", 1, "100000000000000000", "100000000000000001"),
    ("10 fs", 10, "10000000000000000", "10000000000000001"),
    ("100 fs", 100, "1000000000000000", "1000000000000001"),
    ("1 ps", 1_000, "100000000000000", "100000000000001"),
    ("10 ps", 10_000, "10000000000000", "10000000000001"),
    ("100 ps", 100_000, "1000000000000", "1000000000001"),
    ("1 ns", 1_000_000, "100000000000", "100000000001"),
    ("10 ns", 10_000_000, "10000000000", "10000000001"),
    ("100 ns", 100_000_000, "1000000000", "1000000001"),
    ("1 us", 1_000_000_000, "100000000", "100000001"),
    ("10 us", 10_000_000_000, "10000000", "10000001"),
    ("100 us", 100_000_000_000, "1000000", "1000001"),
    ("1 ms", 1_000_000_000_000, "100000", "100001"),
    ("10 ms", 10_000_000_000_000, "10000", "10001"),
    ("100 ms", 100_000_000_000_000, "1000", "1001"),
    ("1 s", 1_000_000_000_000_000, "100", "101"),
    ("10 s", 10_000_000_000_000_000, "10", "11"),
    ("100 s", 100_000_000_000_000_000, "1", "2"),
];

#[test]
fn timescales_reach_as_far_as_a_store(rt: HostRuntime) -> Result<(), Fail> {
    for (scale, factor, farthest, beyond) in SCALES {
        let line = format!(in rt.alloc(); "timescale {scale}")?;
        let Ok(timescale) = read_timescale(line.as_bytes()) else {
            panic!(rt; "a timescale");
        };
        assert_eq!(rt; timescale.factor(), factor, "{scale}");
        for (sign, reached) in [
            ("", 100_000_000_000_000_000),
            ("-", -100_000_000_000_000_000),
        ] {
            for (value, wanted) in [(farthest, edit(reached)), (beyond, Err(TOO_FAR))] {
                let line = format!(in rt.alloc(); "write 3 5 {sign}{value}")?;
                assert_eq!(rt;
                    read_call(line.as_bytes(), timescale),
                    wanted,
                    "{scale}: {line}"
                );
            }
        }
    }
    Ok(())
}

fn edit(value: i64) -> Result<Call, Cause> {
    Ok(Call::Write {
        seat: 3,
        entry: 5,
        value,
    })
}

#[test]
fn other_timescales_are_none(rt: HostRuntime) {
    let lines = [
        "",
        "timescale",
        "timescale 1",
        "timescale 1 ",
        "timescale  ns",
        " timescale 1 ns",
        "timescale  1 ns",
        "timescale 1 ns ",
        "timescale 1 ns 1",
        "timescale 2 ns",
        "timescale 01 ns",
        "timescale 1000 ns",
        "timescale 1 as",
        "timescale 1 NS",
        "Timescale 1 ns",
        "timescales 1 ns",
        "timescale\t1\tns",
        "timescale 1 ns\r",
        "pool 1 1 2",
    ];
    for line in lines {
        assert_eq!(rt; read_timescale(line.as_bytes()), Err(WORDS), "{line}");
    }
}

#[test]
fn sizes_are_three_numbers(rt: HostRuntime) {
    let sizes = Sizes {
        seats: 2,
        entries: 0,
        depth: 999_999_999,
    };
    assert_eq!(rt; read_sizes(b"pool 2 0 999999999"), Ok(sizes));
    for line in [
        "",
        "pool",
        "pool ",
        "pool 2 2",
        "pool 2 2 ",
        "pool 2  4",
        "pool 2 2 4 ",
        "pool 2 2 4 4",
        "pools 2 2 4",
        "begin 0",
        "pool 02 2",
        "pool 02 2 4 4",
    ] {
        assert_eq!(rt; read_sizes(line.as_bytes()), Err(WORDS), "{line}");
    }
    for line in [
        "pool 02 2 4",
        "pool 2 -2 4",
        "pool 2 2 1000000000",
        "pool 2 2 4\r",
        "pool two 2 4",
    ] {
        assert_eq!(rt; read_sizes(line.as_bytes()), Err(NUMBER), "{line}");
    }
}

// A call, the same with a word less, one more and an empty one, and with a number that is out of form.
const CASES: [(Call, [&str; 5]); 9] = [
    (
        Call::Begin { seat: 1 },
        ["begin 1", "begin", "begin 1 4", "begin  1", "begin 01"],
    ),
    (
        Call::Read { seat: 1, entry: 2 },
        ["read 1 2", "read 1", "read 1 2 4", "read 1  2", "read 1 02"],
    ),
    (
        Call::Write {
            seat: 1,
            entry: 2,
            value: -3_000,
        },
        [
            "write 1 2 -3",
            "write 1 2",
            "write 1 2 -3 4",
            "write 1 2  -3",
            "write 1 2 0-3",
        ],
    ),
    (
        Call::Prepare { seat: 1 },
        [
            "prepare 1",
            "prepare",
            "prepare 1 4",
            "prepare  1",
            "prepare 01",
        ],
    ),
    (
        Call::Vote { seat: 1, entry: 2 },
        ["vote 1 2", "vote 1", "vote 1 2 4", "vote 1  2", "vote 1 02"],
    ),
    (
        Call::Decide { seat: 1 },
        ["decide 1", "decide", "decide 1 4", "decide  1", "decide 01"],
    ),
    (
        Call::Abort { seat: 1 },
        ["abort 1", "abort", "abort 1 4", "abort  1", "abort 01"],
    ),
    (
        Call::Finish { seat: 1, entry: 2 },
        [
            "finish 1 2",
            "finish 1",
            "finish 1 2 4",
            "finish 1  2",
            "finish 1 02",
        ],
    ),
    (
        Call::Close { seat: 1 },
        ["close 1", "close", "close 1 4", "close  1", "close 01"],
    ),
];

#[test]
fn calls_have_their_numbers(rt: HostRuntime) {
    let Ok(timescale) = read_timescale(b"timescale 1 ps") else {
        panic!(rt; "a timescale");
    };
    for (call, [line, less, more, empty, amiss]) in CASES {
        for (line, wanted) in [
            (line, Ok(call)),
            (less, Err(WORDS)),
            (more, Err(WORDS)),
            (empty, Err(WORDS)),
            (amiss, Err(NUMBER)),
        ] {
            assert_eq!(rt; read_call(line.as_bytes(), timescale), wanted, "{line}");
        }
    }
}

#[test]
fn the_first_fault_of_a_call_counts(rt: HostRuntime) {
    let Ok(timescale) = read_timescale(b"timescale 100 s") else {
        panic!(rt; "a timescale");
    };
    for (line, cause) in [
        ("", WORDS),
        ("begin", WORDS),
        ("begin ", WORDS),
        (" begin 0", WORDS),
        ("begin 0 ", WORDS),
        ("start 0", WORDS),
        ("Begin 0", WORDS),
        ("begin\t0", WORDS),
        ("begin 0\r", NUMBER),
        ("begin 01", NUMBER),
        ("begin 1000000000", NUMBER),
        ("begin -1", NUMBER),
        ("write 01 0 2 2", WORDS),
        ("write 0 0  2", WORDS),
        ("write 01 0 2", NUMBER),
        ("write 0 0 1000000000000000000", NUMBER),
        ("write 0 0 -0", NUMBER),
        ("write 0 0 999999999999999999", TOO_FAR),
        ("write 0 0 -2", TOO_FAR),
    ] {
        assert_eq!(rt; read_call(line.as_bytes(), timescale), Err(cause), "{line}");
    }
}

#[test]
fn faults_keep_their_number_and_layer(rt: HostRuntime) -> Result<(), Fail> {
    let heap = rt.alloc();
    for (cause, number, layer, text) in [
        (WORDS, 17, Layer::Session, "4 fault 17 session"),
        (NUMBER, 18, Layer::Word, "4 fault 18 word"),
        (TOO_FAR, 19, Layer::Session, "4 fault 19 session"),
        (
            WordFault::LineForm.into(),
            20,
            Layer::Word,
            "4 fault 20 word",
        ),
        (
            Fault::LockInTheWay.into(),
            5,
            Layer::Pool,
            "4 refused 5 pool",
        ),
        (
            Fault::CannotOpen.into(),
            12,
            Layer::Pool,
            "4 refused 12 pool",
        ),
        (
            Fault::Store(Refusal::ChainFull).into(),
            7,
            Layer::Store,
            "4 refused 7 store",
        ),
        (
            Fault::Store(Refusal::SizeOrSetting).into(),
            12,
            Layer::Store,
            "4 refused 12 store",
        ),
    ] {
        let fault = SessionFault { line: 4, cause };
        assert_eq!(rt; fault.number(), number, "{text}");
        assert_eq!(rt; fault.layer(), layer, "{text}");
        assert_eq!(rt; format!(in heap; "{fault}")?.as_str(), text);
    }
    Ok(())
}
