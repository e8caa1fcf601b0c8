use session_run::session::session_text;
use std::test::Fail;

#[test]
fn each_call_answers_on_its_line(rt: HostRuntime) -> Result<(), Fail> {
    let text = session_text(
        rt.alloc(),
        b"timescale 100 fs\npool 1 2 2\nbegin 0\nread 0 1\nwrite 0 1 -7\nwrite 1 1 2\nread 0 2\nprepare 0\nclose 0\nvote 0 1\nvote 0 1\ndecide 0\nfinish 0 1\nclose 0\nbegin 0\nread 0 1\nabort 0\nfinish 0 1\nclose 0\n",
    )?;
    assert_eq!(rt;
        text.as_str(),
        "3 serial 1\n4 value 0\n5 ok\n6 refused 1 pool\n7 refused 2 store\n8 ok\n9 refused 3 pool\n10 vote yes\n11 refused 9 pool\n12 decided commit\n13 ok\n14 ok\n15 serial 2\n16 value -700\n17 ok\n18 ok\n19 ok\n"
    );
    Ok(())
}

#[test]
fn a_fault_is_the_whole_output(rt: HostRuntime) -> Result<(), Fail> {
    let heap = rt.alloc();
    for (file, text) in [
        (&b""[..], "1 fault 20 word\n"),
        (b"timescale 2 ns\n", "1 fault 17 session\n"),
        (b"timescale 1 ns\n", "2 fault 17 session\n"),
        (
            b"timescale 1 ns\npool 1 1 2\nbegin 0\nbegin 01\n",
            "4 fault 18 word\n",
        ),
        (
            b"timescale 100 s\npool 1 1 2\nwrite 0 0 2\n",
            "3 fault 19 session\n",
        ),
        // The fault of a call comes before a refusal of the sizes.
        (b"timescale 1 ns\npool 0 0 0\nbegin 0", "3 fault 20 word\n"),
    ] {
        assert_eq!(rt; session_text(heap, file)?.as_str(), text);
    }
    Ok(())
}

#[test]
fn a_refusal_of_the_sizes_is_the_whole_output(rt: HostRuntime) -> Result<(), Fail> {
    let heap = rt.alloc();
    for (file, text) in [
        (
            &b"timescale 1 ns\npool 1 0 2\nbegin 0\n"[..],
            "2 refused 12 store\n",
        ),
        (
            b"timescale 1 ns\npool 1 65 2\nbegin 0\n",
            "2 refused 12 store\n",
        ),
        (
            b"timescale 1 ns\npool 1 1 1\nbegin 0\n",
            "2 refused 12 store\n",
        ),
        (
            b"timescale 1 ns\npool 1 1 201\nbegin 0\n",
            "2 refused 12 store\n",
        ),
        (
            b"timescale 1 ns\npool 1 64 17\nbegin 0\n",
            "2 refused 16 store\n",
        ),
        (b"timescale 1 ns\npool 1 64 16\nbegin 0\n", "3 serial 1\n"),
        // The store refuses before the pool, and a size before too few cells.
        (
            b"timescale 1 ns\npool 0 65 2\nbegin 0\n",
            "2 refused 12 store\n",
        ),
        (
            b"timescale 1 ns\npool 17 64 17\nbegin 0\n",
            "2 refused 16 store\n",
        ),
        (
            b"timescale 1 ns\npool 1 64 201\nbegin 0\n",
            "2 refused 12 store\n",
        ),
        (
            b"timescale 1 ns\npool 0 1 2\nbegin 0\n",
            "2 refused 12 pool\n",
        ),
        (
            b"timescale 1 ns\npool 17 1 2\nbegin 0\n",
            "2 refused 12 pool\n",
        ),
        (b"timescale 1 ns\npool 16 1 2\nbegin 15\n", "3 serial 1\n"),
        (b"timescale 1 ns\npool 1 1 2\n", ""),
    ] {
        assert_eq!(rt; session_text(heap, file)?.as_str(), text);
    }
    Ok(())
}
