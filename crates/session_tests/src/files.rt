use calls::call::Call;
use calls::failure::Failure;
use session_file::session::{LineCall, Session, read_session};
use session_lines::fault::{Cause, LineFault, SessionFault};
use session_lines::sizes::Sizes;
use session_lines::timescale::{Amount, Timescale, Unit};
use std::alloc::Global;
use std::test::Fail;
use words::fault::WordFault;

const WORDS: Cause = Cause::Line(LineFault::WrongWords);

const TOO_FAR: Cause = Cause::Line(LineFault::TooFar);

const NUMBER: Cause = Cause::Word(WordFault::NumberForm);

const LINE: Cause = Cause::Word(WordFault::LineForm);

// The fault of a file, if it has one.
fn fault_of(heap: Global, file: &[u8]) -> Option<SessionFault> {
    match read_session(heap, file) {
        Err(Failure::Refused(fault)) => Some(fault),
        Err(Failure::NoMemory) | Ok(_) => None,
    }
}

#[test]
fn a_session_is_read(rt: HostRuntime) -> Result<(), Fail> {
    let file =
        b"timescale 1 ns\npool 2 3 4\nbegin 0\nread 0 1\nwrite 0 1 -3\nprepare 0\nvote 0 1\ndecide 0\nfinish 0 1\nclose 0\nabort 1\n";
    let Ok(session) = read_session(rt.alloc(), file) else {
        panic!(rt; "a session");
    };
    let Session {
        timescale,
        sizes,
        calls,
    } = session;
    assert_eq!(rt;
        timescale,
        Timescale {
            amount: Amount::One,
            unit: Unit::Nanoseconds,
        }
    );
    assert_eq!(rt;
        sizes,
        Sizes {
            seats: 2,
            entries: 3,
            depth: 4,
        }
    );
    let wanted = [
        Call::Begin { seat: 0 },
        Call::Read { seat: 0, entry: 1 },
        Call::Write {
            seat: 0,
            entry: 1,
            value: -3_000_000,
        },
        Call::Prepare { seat: 0 },
        Call::Vote { seat: 0, entry: 1 },
        Call::Decide { seat: 0 },
        Call::Finish { seat: 0, entry: 1 },
        Call::Close { seat: 0 },
        Call::Abort { seat: 1 },
    ];
    assert_eq!(rt; calls.len(), wanted.len());
    for (found, (line, call)) in calls.iter().zip((3..).zip(wanted)) {
        assert_eq!(rt; *found, LineCall { line, call });
    }
    Ok(())
}

#[test]
fn a_session_may_have_no_calls(rt: HostRuntime) {
    let Ok(session) = read_session(rt.alloc(), b"timescale 100 s\npool 0 0 0\n") else {
        panic!(rt; "a session");
    };
    assert!(rt; session.calls.is_empty());
}

#[test]
fn the_first_fault_of_a_file_counts(rt: HostRuntime) {
    let heap = rt.alloc();
    let eighty_one =
        b"timescale 1 ns\npool 1 1 2\nbegin 000000000000000000000000000000000000000000000000000000000000000000000000000\nbegin\n";
    let eighty =
        b"timescale 1 ns\npool 1 1 2\nbegin 00000000000000000000000000000000000000000000000000000000000000000000000000\nbegin\n";
    for (file, line, cause) in [
        (&b""[..], 1, LINE),
        (b"timescale 1 ns", 1, LINE),
        (b"timescale 1 ns\n", 2, WORDS),
        (b"timescale 1 ns\npool 1 1 2", 2, LINE),
        (b"\n", 1, WORDS),
        (b"\n\n\n\n", 1, WORDS),
        (b"timescale 1 ns\n\n", 2, WORDS),
        (b"timescale 1 ns\npool 1 1 2\n\n", 3, WORDS),
        (b"timescale 1 ns\npool 1 1 2\nbegin 0", 3, LINE),
        (b"timescale 1 ns\r\npool 1 1 2\r\n", 1, WORDS),
        (b"timescale 1 ns\npool 1 1 2\r\n", 2, NUMBER),
        (b"timescale 1 ns\npool 1 1 2\nbegin 0\r\n", 3, NUMBER),
        (b"timescale 1 ns\npool 1 1 2\nbegin\t0\n", 3, WORDS),
        (b"timescale 2 ns\npool 1 1\nbegin 01\n", 1, WORDS),
        (b"timescale 1 ns\npool 1 1\nbegin 01\n", 2, WORDS),
        (
            b"timescale 1 ns\npool 1 1 2\nbegin 0\nbegin 01\nbegin\n",
            4,
            NUMBER,
        ),
        (
            b"timescale 100 s\npool 1 1 2\nwrite 0 0 1\nwrite 0 0 2\nbegin\n",
            4,
            TOO_FAR,
        ),
        (&eighty_one[..], 3, LINE),
        (&eighty[..], 3, NUMBER),
    ] {
        assert_eq!(rt; fault_of(heap, file), Some(SessionFault { line, cause }));
    }
}

// A file of 65,526 bytes, to which a call of ten bytes is wanting.
fn long_file(heap: Global) -> Result<Vec<u8>, Fail> {
    let mut file = Vec::new(heap);
    file.extend_from_slice(b"timescale 1 fs\npool 1 1 2\nwrite 0 0 0\n")?;
    for _ in 0..8186 {
        file.extend_from_slice(b"close 0\n")?;
    }
    Ok(file)
}

#[test]
fn files_have_65536_bytes_at_most(rt: HostRuntime) -> Result<(), Fail> {
    let heap = rt.alloc();
    let mut longest = long_file(heap)?;
    longest.extend_from_slice(b"prepare 0\n")?;
    assert_eq!(rt; longest.len(), 65_536);
    let Ok(session) = read_session(heap, &longest) else {
        panic!(rt; "a session");
    };
    assert_eq!(rt; session.calls.len(), 8_188);
    let mut longer = long_file(heap)?;
    longer.extend_from_slice(b"finish 0 0\n")?;
    assert_eq!(rt; longer.len(), 65_537);
    assert_eq!(rt;
        fault_of(heap, &longer),
        Some(SessionFault {
            line: 1,
            cause: LINE,
        })
    );
    Ok(())
}
