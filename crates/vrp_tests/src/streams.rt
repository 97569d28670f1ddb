//! Faults of reading and writing, input that is too long, and runs over files.

use crate::retrying::Retrying;
use crate::running::{Streams, run, words_of};
use std::fs;
use std::fs::File;
use std::test::Fail;
use test_models::texts;
use vrp_cli::run_vrp;
use vrp_io::{Gate, MemSink, MemSource, NoGate, StdSink, StdSource, write_all};

/// A model of nothing, and a certificate of it.
const NOTHING_PROVED: &str = "vrpmodel 1
end
optimal 0
proof 1
close
end
";

/// A model of nothing, and the plan without a path.
const NOTHING: &str = "vrpmodel 1
end
end
";

#[test]
fn faults(rt: HostRuntime) -> Result<(), Fail> {
    let none: &[u32] = &[];
    for (words, input, read_piece, failing_reads, write_piece, failing_writes, number, text) in [
        // The third read fails.
        (
            "solve",
            texts::SETS,
            100,
            [3].as_slice(),
            1_000,
            none,
            7,
            "fault read\n",
        ),
        (
            "print",
            texts::SETS,
            100,
            [3].as_slice(),
            1_000,
            none,
            7,
            "fault read\n",
        ),
        (
            "eval",
            NOTHING,
            8,
            [3].as_slice(),
            1_000,
            none,
            7,
            "fault read\n",
        ),
        // The second write fails.
        (
            "solve",
            texts::SETS,
            1_000,
            none,
            10,
            [2].as_slice(),
            8,
            "optimal 9\n",
        ),
        (
            "print",
            texts::SETS,
            1_000,
            none,
            10,
            [2].as_slice(),
            8,
            "vrpmodel 1",
        ),
        ("eval", NOTHING, 1_000, none, 4, [2].as_slice(), 8, "fine"),
        // The first write fails.
        ("solve", texts::SETS, 1_000, none, 10, [1].as_slice(), 8, ""),
        ("print", texts::SETS, 1_000, none, 10, [1].as_slice(), 8, ""),
        ("eval", NOTHING, 1_000, none, 10, [1].as_slice(), 8, ""),
        // Words that are refused are told, or not.
        (
            "Print",
            texts::SETS,
            100,
            [1].as_slice(),
            10,
            [2].as_slice(),
            8,
            "refused wo",
        ),
        // A fault of reading, and one of writing what it was.
        (
            "print",
            texts::SETS,
            100,
            [1].as_slice(),
            6,
            [2].as_slice(),
            8,
            "fault ",
        ),
        // Small pieces.
        (
            "solve --labels 1",
            texts::SETS,
            1,
            none,
            1,
            none,
            5,
            "label limit 1\nbound 0\nincumbent none\n",
        ),
        ("print", texts::SETS, 1, none, 1, none, 0, texts::SETS),
        ("eval", NOTHING, 1, none, 1, none, 0, "fine 0\n"),
    ] {
        let streams = Streams {
            read_piece,
            failing_reads,
            write_piece,
            failing_writes,
        };
        let ended = run(&rt, rt.alloc(), words, input.as_bytes(), streams)?;
        assert_eq!(rt; ended.number, number, "{words}");
        assert_eq!(rt; ended.sink.written(), text.as_bytes(), "{words}");
    }
    Ok(())
}

#[test]
fn faults_of_check(rt: HostRuntime) -> Result<(), Fail> {
    let none: &[u32] = &[];
    for (read_piece, failing_reads, write_piece, failing_writes, number, text) in [
        (8, [3].as_slice(), 1_000, none, 7, "fault read\n"),
        (1_000, none, 8, [2].as_slice(), 8, "accepted"),
        (1, none, 1, none, 0, "accepted optimal 0\n"),
    ] {
        let streams = Streams {
            read_piece,
            failing_reads,
            write_piece,
            failing_writes,
        };
        let input = NOTHING_PROVED.as_bytes();
        let ended = run(&rt, rt.alloc(), "check", input, streams)?;
        assert_eq!(rt; ended.number, number, "{text}");
        assert_eq!(rt; ended.sink.written(), text.as_bytes(), "{text}");
    }
    Ok(())
}

#[test]
fn reads_that_are_tried_again(rt: HostRuntime) -> Result<(), Fail> {
    let words = words_of(rt.alloc(), "solve")?;
    for (failing, status, text, faults) in [
        ([2].as_slice(), 0, "optimal 9\npath 0 1 0 2 5\n", 1),
        ([2, 3].as_slice(), 7, "fault read\n", 2),
    ] {
        let input = MemSource::new(rt.alloc(), texts::SETS.as_bytes(), 100, failing)?;
        let mut source = Retrying::new(input);
        let mut sink = MemSink::new(rt.alloc(), 1_000, 1_000, &[])?;
        let ended = run_vrp(
            &rt,
            rt.alloc(),
            words.as_slice(),
            &mut source,
            &mut sink,
            &NoGate,
        );
        assert_eq!(rt; ended.number, status);
        assert!(rt; sink.written().starts_with(text.as_bytes()));
        assert_eq!(rt; source.faults(), faults);
    }
    Ok(())
}

#[test]
fn input_too_long(rt: HostRuntime) -> Result<(), Fail> {
    let blanks = vec![in rt.alloc(); b' '; 67_108_865]?;
    let streams = Streams {
        read_piece: 1_000_000,
        failing_reads: &[],
        write_piece: 1_000,
        failing_writes: &[],
    };
    for words in ["solve", "print", "eval", "check"] {
        let ended = run(&rt, rt.alloc(), words, blanks.as_slice(), streams)?;
        assert_eq!(rt; ended.number, 10, "{words}");
        assert_eq!(rt;
            ended.sink.written(),
            b"refused input too long\n".as_slice(),
            "{words}"
        );
    }
    Ok(())
}

#[test]
fn files(rt: HostRuntime) -> Result<(), Fail> {
    let mut model = StdSink::new(fs::create(&rt, "model")?);
    let wrote = write_all(&mut model, texts::FOUR.as_bytes());
    assert!(rt; wrote.is_ok());
    let words = words_of(rt.alloc(), "solve")?;
    let mut source = StdSource::new(File::open(&rt, "model")?);
    let mut sink = StdSink::new(fs::create(&rt, "answer")?);
    let status = run_vrp(
        &rt,
        rt.alloc(),
        words.as_slice(),
        &mut source,
        &mut sink,
        &NoGate,
    );
    assert_eq!(rt; status.number, 0);
    let answer = fs::read_to_string(&rt, "answer")?;
    assert!(rt; answer.starts_with("optimal 9\npath 0 1 0 2 5\nproof 1\n"));
    Ok(())
}

/// Passes a gate, which does nothing here.
fn pass<G: Gate>(gate: &G) {
    gate.turn(0, 1);
}

#[test]
fn gates(_rt: HostRuntime) {
    pass(&NoGate);
}
