//! Tests of lines, words and numbers.

use book_text::{
    Micro, NumberFault, Span, coordinate_of, count_lines, micro_of, next_line, next_word,
    put_micro, read_micro, read_whole,
};
use std::test::Fail;

const WORDS: &[(&[u8], &[&[u8]])] = &[
    (b"", &[]),
    (b" \t \r", &[]),
    (b"a 2 10\r", &[b"a", b"2", b"10"]),
    (b"\t o197239\tI  : 0.5", &[b"o197239", b"I", b":", b"0.5"]),
    (b"numnodes: 3", &[b"numnodes", b":", b"3"]),
    (b"numnodes :5", &[b"numnodes", b":", b"5"]),
    (b"a:b", &[b"a:b"]),
    (b"::", &[b":", b":"]),
    (b"::a::", &[b":", b":", b"a", b":", b":"]),
    (b":a:b: c", &[b":", b"a:b", b":", b"c"]),
    (b"#a b\x0b\xff", &[b"#a", b"b\x0b\xff"]),
];

/// Whether the words of the line are these, walked one by one.
fn are_words(line: &[u8], words: &[&[u8]]) -> bool {
    let whole = Span {
        from: 0,
        to: line.len(),
    };
    let mut at = 0;
    for word in words {
        if at > line.len() {
            return false;
        }
        let Some(found) = next_word(line, whole, at) else {
            return false;
        };
        if &line[found.from..found.to] != *word {
            return false;
        }
        at = found.to;
    }
    at <= line.len() && next_word(line, whole, at).is_none()
}

#[test]
fn lines_are_cut_into_words(rt: HostRuntime) {
    for (line, words) in WORDS {
        assert!(rt; are_words(line, words), "{line:?}");
    }
}

/// A text, how many lines it has, and those that aren't passed over, with their numbers.
type Lines = (&'static [u8], u64, &'static [(u64, &'static [u8])]);

const LINES: &[Lines] = &[
    (b"", 0, &[]),
    (b"\n", 1, &[]),
    (b"\n\r\n \t\n", 3, &[]),
    (b"\n\n#", 3, &[]),
    (b"a", 1, &[(1, b"a")]),
    (b"a\n", 1, &[(1, b"a")]),
    (b"a\r\nb", 2, &[(1, b"a\r"), (2, b"b")]),
    (
        b"UCLA pl 1.0\r\n\r\n a 4 0\r\n",
        3,
        &[(1, b"UCLA pl 1.0\r"), (3, b" a 4 0\r")],
    ),
    (
        b"# one\n\t # two\n:#three\na # b\n#",
        5,
        &[(3, b":#three"), (4, b"a # b")],
    ),
    (b"a\n\n#\n\nb c", 5, &[(1, b"a"), (5, b"b c")]),
];

/// Whether the lines of the text that aren't passed over are these, walked one by one.
fn are_lines(text: &[u8], lines: &[(u64, &[u8])]) -> bool {
    let mut at = 0;
    let mut number: u64 = 1;
    for (expected, words) in lines {
        if at > text.len() || number > at as u64 + 1 {
            return false;
        }
        let Some(line) = next_line(text, at, number) else {
            return false;
        };
        if line.number != *expected || &text[line.words.from..line.words.to] != *words {
            return false;
        }
        at = line.next;
        number = line.number + 1;
    }
    at <= text.len() && number <= at as u64 + 1 && next_line(text, at, number).is_none()
}

#[test]
fn texts_are_cut_into_lines(rt: HostRuntime) {
    for (text, count, lines) in LINES {
        assert!(rt;
            count_lines(text) == *count && are_lines(text, lines),
            "{text:?}"
        );
    }
}

const WHOLES: &[(&[u8], Result<u64, NumberFault>)] = &[
    (b"0", Ok(0)),
    (b"007", Ok(7)),
    (b"1000000", Ok(1_000_000)),
    (b"1099511627776", Ok(1_099_511_627_776)),
    (b"1099511627777", Err(NumberFault::OutOfRange)),
    (b"000000000000000000000000000003", Ok(3)),
    (
        b"999999999999999999999999999999",
        Err(NumberFault::OutOfRange),
    ),
    (
        b"0000000000000000000000000000003",
        Err(NumberFault::NotNumber),
    ),
    (b"9999999999999999999x", Err(NumberFault::NotNumber)),
    (b"-1", Err(NumberFault::NotNumber)),
    (b"1.0", Err(NumberFault::NotNumber)),
    (b"", Err(NumberFault::NotNumber)),
];

#[test]
fn whole_words_have_values(rt: HostRuntime) {
    for (word, value) in WHOLES {
        assert!(rt; read_whole(word) == *value, "{word:?}");
    }
}

/// Words, and the decimals that they are.
const DECIMALS: &[(&[u8], Result<Micro, NumberFault>)] = &[
    (b".5", Ok(Micro(500_000))),
    (b"5.", Ok(Micro(5_000_000))),
    (b"0.0000019", Ok(Micro(1))),
    (b"-0.0000009", Ok(Micro(0))),
    (b"1e6", Ok(Micro(1_000_000_000_000))),
    (b"-1000000", Ok(Micro(-1_000_000_000_000))),
    (b"1000000.0000009", Ok(Micro(1_000_000_000_000))),
    (b"-1000000.0000009", Ok(Micro(-1_000_000_000_000))),
    (b"0e99", Ok(Micro(0))),
    (b"-0", Ok(Micro(0))),
    (b"+18", Ok(Micro(18_000_000))),
    (b"-12.345678", Ok(Micro(-12_345_678))),
    (b"1e+01", Ok(Micro(10_000_000))),
    (b"25E-1", Ok(Micro(2_500_000))),
    (b"1.5e-000000000000000000000009", Ok(Micro(0))),
    (b"0.000000000000000000000002e9", Ok(Micro(0))),
    (b"0.0000000000000000000000002e23", Ok(Micro(20_000))),
    (b"999999999999999999999999e-20", Ok(Micro(9_999_999_999))),
    (b"9e-99999999999999999999999999", Ok(Micro(0))),
    (b"000000000000000000000000000042", Ok(Micro(42_000_000))),
    (b"1000000.000001", Err(NumberFault::OutOfRange)),
    (b"-1000000.000001", Err(NumberFault::OutOfRange)),
    (b"1e7", Err(NumberFault::OutOfRange)),
    (
        b"1e99999999999999999999999999",
        Err(NumberFault::OutOfRange),
    ),
    (
        b"0.0000000000000000000000002e32",
        Err(NumberFault::OutOfRange),
    ),
    (
        b"999999999999999999999999999999",
        Err(NumberFault::OutOfRange),
    ),
    (b"", Err(NumberFault::NotNumber)),
    (b"+", Err(NumberFault::NotNumber)),
    (b".", Err(NumberFault::NotNumber)),
    (b"-.", Err(NumberFault::NotNumber)),
    (b"1e", Err(NumberFault::NotNumber)),
    (b"1e+", Err(NumberFault::NotNumber)),
    (b".e5", Err(NumberFault::NotNumber)),
    (b"e5", Err(NumberFault::NotNumber)),
    (b"%50", Err(NumberFault::NotNumber)),
    (b"1.2.3", Err(NumberFault::NotNumber)),
    (b"1e2e3", Err(NumberFault::NotNumber)),
    (b"1e2.0", Err(NumberFault::NotNumber)),
    (b"+-1", Err(NumberFault::NotNumber)),
    (b"1 ", Err(NumberFault::NotNumber)),
    (b"0x10", Err(NumberFault::NotNumber)),
    (b"12a", Err(NumberFault::NotNumber)),
    (
        b"0000000000000000000000000000042",
        Err(NumberFault::NotNumber),
    ),
];

#[test]
fn decimals_have_values_or_faults(rt: HostRuntime) {
    for (word, value) in DECIMALS {
        assert!(rt; read_micro(word) == *value, "{word:?}");
    }
}

const WRITTEN: &[(i128, &[u8])] = &[
    (0, b"X 0"),
    (-500_000, b"X -0.5"),
    (500_000, b"X 0.5"),
    (1, b"X 0.000001"),
    (-1, b"X -0.000001"),
    (10_000_000, b"X 10"),
    (10_500_000, b"X 10.5"),
    (-1_000_000_000_000, b"X -1000000"),
    (37_012_300, b"X 37.0123"),
    (i128::MIN, b"X -170141183460469231731687303715884.105728"),
];

#[test]
fn decimals_are_written(rt: HostRuntime) -> Result<(), Fail> {
    for (value, text) in WRITTEN {
        let mut out = b"X ".to_vec(rt.alloc())?;
        put_micro(&mut out, *value)?;
        assert!(rt; out.as_slice() == *text, "{value}");
    }
    Ok(())
}

#[test]
fn coordinates_are_shifted(rt: HostRuntime) {
    assert!(rt; coordinate_of(Micro(-1_000_000_000_000)) == 0);
    assert!(rt; coordinate_of(Micro(500_000)) == 1_000_000_500_000);
    assert!(rt; micro_of(2_000_000_000_000) == Micro(1_000_000_000_000));
    assert!(rt; micro_of(999_999_999_999) == Micro(-1));
}
