//! Calls of line_text that no text makes yet: wide numbers, and words in hand.

use line_text::{Kind, LineFault, has_word, known_word, limited_wide, version_line, wide_in};
use std::test::Fail;

const LIMIT: i128 = 1 << 112;

#[test]
fn wide_numbers(rt: HostRuntime) -> Result<(), Fail> {
    for (name, word, expected) in [
        ("the limit", "5192296858534827628530496329220096", Ok(LIMIT)),
        (
            "the lower limit with zeros",
            "-005192296858534827628530496329220096",
            Ok(-LIMIT),
        ),
        (
            "above the limit",
            "5192296858534827628530496329220097",
            Err(LineFault::Fault(Kind::Range)),
        ),
        ("no number", "--1", Err(LineFault::Fault(Kind::Number))),
    ] {
        let found = limited_wide(word.as_bytes(), -LIMIT, LIMIT);
        assert_eq!(rt; found, expected, "{name}");
        let next = wide_in(word.as_bytes(), -LIMIT, LIMIT).map(|parts| parts.0);
        assert_eq!(rt; next, expected, "{name}");
    }
    Ok(())
}

#[test]
fn words_in_hand(rt: HostRuntime) -> Result<(), Fail> {
    assert_eq!(rt; known_word(b"03", 4), Ok(3));
    assert_eq!(rt; known_word(b"4", 4), Err(LineFault::Fault(Kind::Unknown)));
    Ok(())
}

#[test]
fn version_lines(rt: HostRuntime) -> Result<(), Fail> {
    for (name, words, expected) in [
        ("its words", " proof\t1 # first", true),
        ("another spelling", "proof 01", false),
        ("another version", "proof 2", false),
        ("a word too many", "proof 1 1", false),
        ("no version", "proof", false),
        ("no word", "", false),
    ] {
        let found = match version_line(words.as_bytes(), b"proof", b"1") {
            Ok(rest) => !has_word(rest),
            Err(_) => false,
        };
        assert_eq!(rt; found, expected, "{name}");
    }
    Ok(())
}
