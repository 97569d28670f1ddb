//! Lines, words and numbers.

use std::test::Fail;
use vrp_lex::{Amount, Line, bad_byte, next_line, number, split_word, word};

#[test]
fn lines(rt: HostRuntime) -> Result<(), Fail> {
    for (name, text, from, number, expected) in [
        ("no byte", "", 0, 1, None),
        ("a line with its LF", "ab\nc", 0, 1, Some((0, 2, 3))),
        ("a last line without LF", "ab\nc", 3, 2, Some((3, 4, 4))),
        ("nothing after the last LF", "ab\n", 3, 2, None),
        ("an empty line", "\nab", 0, 7, Some((0, 0, 1))),
        ("CR belongs to the line", "a\r\nb", 0, 1, Some((0, 2, 3))),
    ] {
        let found = next_line(text.as_bytes(), from, number);
        let expected = expected.map(|(from, to, next)| Line {
            number,
            from,
            to,
            next,
        });
        assert_eq!(rt; found, expected, "{name}");
    }
    Ok(())
}

#[test]
fn words(rt: HostRuntime) -> Result<(), Fail> {
    for (name, text, k, expected) in [
        ("the first word", "  ab c", 0, Some((2, 4))),
        ("the second word", "  ab c", 1, Some((5, 6))),
        ("no third word", "  ab c ", 2, None),
        ("a tab and a CR between", "a\t\rbc", 1, Some((3, 5))),
        ("a comment ends a word", "ab#c d", 0, Some((0, 2))),
        ("no word in a comment", "ab #c d", 1, None),
        ("no word in an empty line", "", 0, None),
    ] {
        let text = text.as_bytes();
        let Some(line) = next_line(text, 0, 1) else {
            assert!(rt; text.is_empty(), "{name}");
            continue;
        };
        assert_eq!(rt; word(text, &line, k), expected, "{name}");
    }
    Ok(())
}

#[test]
fn one_word_after_the_other(rt: HostRuntime) -> Result<(), Fail> {
    for (text, expected) in [
        ("", None),
        ("\t # a b", None),
        ("var", Some(("var", ""))),
        (" var  0\t2", Some(("var", "  0\t2"))),
        ("0#2", Some(("0", "#2"))),
    ] {
        let expected = expected.map(|(first, rest)| (first.as_bytes(), rest.as_bytes()));
        assert_eq!(rt; split_word(text.as_bytes()), expected, "{text}");
    }
    Ok(())
}

#[test]
fn bytes(rt: HostRuntime) -> Result<(), Fail> {
    for (name, text, expected) in [
        ("accepted", b"a\t\r !~".as_slice(), false),
        ("0xFF", b"a \xff".as_slice(), true),
        ("0xFF in a comment", b"a # \xff".as_slice(), false),
        ("0xFF before a comment", b"\xff # a".as_slice(), true),
        ("NUL", b"a\x00".as_slice(), true),
        ("0x7F", b"\x7f".as_slice(), true),
        ("0xFF in the next line", b"a\n\xff".as_slice(), false),
    ] {
        let line = next_line(text, 0, 1).expect(&rt, name);
        assert_eq!(rt; bad_byte(text, &line), expected, "{name}");
    }
    Ok(())
}

#[test]
fn numbers(rt: HostRuntime) -> Result<(), Fail> {
    for (text, expected) in [
        ("0", Amount::Value(0)),
        ("-0", Amount::Value(0)),
        ("007", Amount::Value(7)),
        ("-12", Amount::Value(-12)),
        (
            "1329227995784915872903807060280344576",
            Amount::Value(1 << 120),
        ),
        ("1329227995784915872903807060280344577", Amount::Big),
        ("-1329227995784915872903807060280344577", Amount::Big),
        ("", Amount::Not),
        ("-", Amount::Not),
        ("--1", Amount::Not),
        ("+1", Amount::Not),
        ("1.0", Amount::Not),
        ("1e3", Amount::Not),
        ("*", Amount::Not),
    ] {
        assert_eq!(rt; number(text.as_bytes()), expected, "{text}");
    }
    let zeros = [b'0'; 400];
    assert_eq!(rt; number(zeros.as_slice()), Amount::Value(0));
    let nines = [b'9'; 400];
    assert_eq!(rt; number(nines.as_slice()), Amount::Big);
    Ok(())
}
