use words::fault::WordFault;
use words::line::first_line;
use words::number::{plain, value};
use words::token::{Token, next_word, one_word, three_words, token_at, two_words};

#[test]
fn lines_end_within_eighty_bytes(rt: HostRuntime) {
    let eighty = [b'x'; 80];
    let mut ended = [b'x'; 81];
    ended[80] = b'\n';
    assert_eq!(rt; first_line(&ended), Ok((&eighty[..], &b""[..])));
    let mut longer = [b'x'; 82];
    longer[81] = b'\n';
    assert_eq!(rt; first_line(&longer), Err(WordFault::LineForm));
    assert_eq!(rt; first_line(b"\n"), Ok((&b""[..], &b""[..])));
    assert_eq!(rt; first_line(b"a b\nc\n"), Ok((&b"a b"[..], &b"c\n"[..])));
    assert_eq!(rt; first_line(b"a b"), Err(WordFault::LineForm));
    assert_eq!(rt; first_line(b""), Err(WordFault::LineForm));
}

#[test]
fn tokens_know_their_place(rt: HostRuntime) {
    let line = b"read 0  1";
    let read = Token::Word {
        text: b"read",
        at: 0,
    };
    assert_eq!(rt; token_at(line, 0), read);
    assert_eq!(rt; token_at(line, 5), Token::Word { text: b"0", at: 5 });
    assert_eq!(rt; token_at(line, 7), Token::Empty { at: 7 });
    assert_eq!(rt; token_at(line, 8), Token::Last { text: b"1", at: 8 });
    assert_eq!(rt; token_at(line, 9), Token::Empty { at: 9 });
    assert_eq!(rt; token_at(line, 99), Token::Empty { at: 99 });
}

#[test]
fn words_have_one_blank_between(rt: HostRuntime) {
    assert_eq!(rt; next_word(b"begin 0", 0), Some((&b"begin"[..], 6)));
    assert_eq!(rt; next_word(b"begin ", 0), Some((&b"begin"[..], 6)));
    assert_eq!(rt; next_word(b"begin", 0), None);
    assert_eq!(rt; next_word(b" begin", 0), None);
    assert_eq!(rt; one_word(b"begin 0", 6), Some(&b"0"[..]));
    assert_eq!(rt; one_word(b"begin 0", 0), None);
    assert_eq!(rt; one_word(b"begin ", 6), None);
    assert_eq!(rt; two_words(b"read 0 1", 5), Some((&b"0"[..], &b"1"[..])));
    assert_eq!(rt; two_words(b"read 0", 5), None);
    assert_eq!(rt; two_words(b"read 0 ", 5), None);
    assert_eq!(rt; two_words(b"read 0 1 2", 5), None);
    let three = Some((&b"0"[..], &b"1"[..], &b"-3"[..]));
    assert_eq!(rt; three_words(b"write 0 1 -3", 6), three);
    assert_eq!(rt; three_words(b"write 0 1", 6), None);
    assert_eq!(rt; three_words(b"write 0 1 -3 ", 6), None);
    assert_eq!(rt; three_words(b"write 0  -3", 6), None);
}

#[test]
fn plain_numbers_have_nine_digits_at_most(rt: HostRuntime) {
    assert_eq!(rt; plain(b"0"), Ok(0));
    assert_eq!(rt; plain(b"10"), Ok(10));
    assert_eq!(rt; plain(b"999999999"), Ok(999_999_999));
    let refused = [
        &b"1000000000"[..],
        b"",
        b"00",
        b"01",
        b"-1",
        b"+1",
        b"1a",
        b"a1",
        b"1\r",
        b"\t1",
        b"/",
        b":",
    ];
    for word in refused {
        assert_eq!(rt; plain(word), Err(WordFault::NumberForm));
    }
}

#[test]
fn values_have_eighteen_digits_at_most(rt: HostRuntime) {
    assert_eq!(rt; value(b"0"), Ok(0));
    assert_eq!(rt; value(b"-1"), Ok(-1));
    assert_eq!(rt; value(b"999999999999999999"), Ok(999_999_999_999_999_999));
    assert_eq!(rt; value(b"-999999999999999999"), Ok(-999_999_999_999_999_999));
    let refused = [
        &b"1000000000000000000"[..],
        b"-1000000000000000000",
        b"",
        b"-",
        b"-0",
        b"-01",
        b"01",
        b"--1",
        b"+1",
        b"1-",
        b"1.5",
    ];
    for word in refused {
        assert_eq!(rt; value(word), Err(WordFault::NumberForm));
    }
}
