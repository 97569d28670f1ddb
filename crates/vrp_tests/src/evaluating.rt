//! What `eval` answers to a model and a path text behind it. The expected values are worked out by hand.

use crate::running::{Streams, answers, edits_answer, inputs_answer, run};
use std::test::Fail;
use test_models::texts;

/// Path texts behind the text with packing sets: plans with their costs, and with their first faults.
const PLANS: &str = "23 23 | path 0 1 0 2 5 / end | 0 | fine 9
23 23 | path 00 001 -0 02 5 # the cheapest /  / end | 0 | fine 9
23 23 | path 0 1 1 3 4 / end | 0 | fine 12
23 23 | path 0 1 1 5 / path 0 1 0 4 / end | 0 | fine 14
22 22 | end # of the model / # and its plan / path 0 1 0 2 5 / end | 0 | fine 9
23 23 | path 0 1 0 5 / end | 4 | refused plan walk 0
23 23 | path 0 1 0 2 / end | 4 | refused plan walk 0
23 23 | path 0 1 2 5 / end | 4 | refused plan walk 0
23 23 | path 0 1 0 2 3 4 / end | 4 | refused plan walk 0
23 23 | path 0 1 6 / end | 4 | refused plan walk 0
23 23 | path 0 1 4294967295 / end | 4 | refused plan walk 0
23 23 | path 1 1 0 2 5 / end | 4 | refused plan walk 0
23 23 | path 0 1 0 2 5 / path 4294967295 1 0 2 5 / end | 4 | refused plan walk 1
23 23 | path 0 4096 0 4 / path 1 4096 0 / end | 4 | refused plan walk 1
23 23 | path 0 3 0 4 / path 0 1 4 / end | 4 | refused plan walk 1
23 23 | path 0 3 0 4 / end | 4 | refused plan count 0
23 23 | path 0 4096 0 2 5 / end | 4 | refused plan count 0
23 23 | path 0 1 0 4 / path 0 1 1 5 / path 0 1 1 5 / end | 4 | refused plan count 0
23 23 | path 0 2 0 2 5 / end | 4 | refused plan packing 0
23 23 | path 0 2 1 5 / end | 4 | refused plan packing 1
23 23 | path 0 1 0 2 5 / path 0 1 1 5 / end | 4 | refused plan packing 1
23 23 | path 0 1 1 3 4 / path 0 1 0 4 / end | 4 | refused plan packing 0
23 23 | end | 4 | refused plan row 0
23 23 | path 0 1 0 4 / end | 4 | refused plan row 1
23 23 | path 0 1 1 5 / end | 4 | refused plan row 0
";

/// Faults of path texts behind that text.
const PATH_FAULTS: &str = "1 0 |  | 4 | refused paths 1 7 EndMissing
23 23 |  | 4 | refused paths 1 7 EndMissing
23 23 | path 0 1 0 2 5 | 4 | refused paths 2 7 EndMissing
23 23 | path 0 1 0 2 5 / # end /  | 4 | refused paths 4 7 EndMissing
23 23 | path 0 1 0 2 5 / path 0 1 x / end | 4 | refused paths 2 3 Number
23 23 |  / # the plan / path zero 1 0 2 5 / end | 4 | refused paths 3 3 Number
23 23 | path 0 0 0 2 5 / end | 4 | refused paths 1 4 Range
23 23 | path 0 4097 0 2 5 / end | 4 | refused paths 1 4 Range
23 23 | path 0 1 0 2 4294967296 / end | 4 | refused paths 1 4 Range
23 23 | path 0 4096 0 2 5 / path 0 1 0 2 5 / end | 4 | refused paths 2 15 TooMany
23 23 | path 0 1 / end | 4 | refused paths 1 2 Word
23 23 | var 0 2 3 / end | 4 | refused paths 1 2 Word
23 23 | path 0 1 0 2 5 / end x | 4 | refused paths 2 2 Word
23 23 | path 0 1 0 2 5 / end / end | 4 | refused paths 3 8 AfterEnd
23 23 | path 0 1 0 2 5 / e\x7fnd | 4 | refused paths 2 16 Byte
";

/// Faults of that text, alone or before a fault of the path text behind it.
const MODEL_FAULTS: &str = "16 16 | arc 0 1 -1 0 | 3 | refused model 16 11 MainNegative
21 22 | arc 2 3 -1 5 / end / path x | 3 | refused model 21 11 MainNegative
22 22 | end end / path x | 3 | refused model 22 2 Word
22 22 | end\x01 / path x | 3 | refused model 22 16 Byte
18 22 | arc 1 2 0 2 / arc 2 1 0 3 / arc 1 3 0 4 / arc 2 3 0 5 / end / path 0 0 | 3 | refused model 22 12 FreeCycle
22 22 | path 0 1 0 2 5 / end | 3 | refused model 22 2 Word
22 22 | # end | 3 | refused model 23 7 EndMissing
1 1 | end | 3 | refused model 1 1 Version
";

/// Path texts behind the text with three customers.
const OF_CUSTOMERS: &str = "26 26 | path 0 1 0 3 10 / path 0 1 2 11 / end | 0 | fine 4
26 26 | path 0 1 0 9 / path 0 1 1 10 / path 0 1 2 11 / end | 0 | fine 6
26 26 | path 0 1 0 9 / path 0 1 1 10 / end | 4 | refused plan variable 2
26 26 | path 0 1 2 8 10 / end | 4 | refused plan variable 0
26 26 | path 0 1 0 3 10 / path 0 1 2 8 10 / end | 4 | refused plan packing 1
26 26 | path 0 4 0 3 10 / end | 4 | refused plan count 0
26 26 | path 0 1 0 3 6 11 / end | 4 | refused plan walk 0
";

/// Path texts behind the text with two graphs.
const OF_GRAPHS: &str = "14 14 | path 0 1 0 / path 1 1 0 / end | 0 | fine 7
14 14 | path 1 1 0 / path 0 1 0 / end | 0 | fine 7
14 14 | path 0 1 0 / end | 4 | refused plan row 0
14 14 | path 1 1 0 / end | 4 | refused plan variable 0
14 14 | end | 4 | refused plan variable 0
14 14 | path 0 1 0 / path 1 2 0 / end | 4 | refused plan count 1
14 14 | path 1 2 0 / path 0 2 0 / end | 4 | refused plan count 0
14 14 | path 1 1 0 / path 1 1 1 / end | 4 | refused plan walk 1
14 14 | path 2 1 0 / end | 4 | refused plan walk 0
14 14 | path 0 4096 0 / path 1 4096 0 / end | 4 | refused plan count 0
";

/// Path texts behind the text in which one walk is taken three times.
const OF_THREE_TIMES: &str = "8 8 | path 0 3 0 / end | 0 | fine -6
8 8 | path 0 1 0 / path 0 2 0 / end | 0 | fine -6
8 8 | path 0 4 0 / end | 4 | refused plan variable 0
";

/// Whole inputs.
const INPUTS: &str = " | 3 | refused model 1 7 EndMissing
end/ | 3 | refused model 1 1 Version
vrpmodel 1/end | 4 | refused paths 1 7 EndMissing
vrpmodel 1/end/ | 4 | refused paths 1 7 EndMissing
vrpmodel 1/end/end | 0 | fine 0
vrpmodel 1\r/end\r/end\r/ | 0 | fine 0
vrpmodel 1/end/end/end/ | 4 | refused paths 2 8 AfterEnd
vrpmodel 1/var 0 1 5/graph 2 0 1 0 1 1 0/vertex - 0 1/vertex - 0 1/arc 0 1 0 0/end/path 0 1 0/end | 0 | fine 5
vrpmodel 1/var 0 1 5/graph 2 0 1 0 1 1 0/vertex - 0 1/vertex - 0 1/arc 0 1 0 0/end/path 0 1 0 | 4 | refused paths 1 7 EndMissing
";

#[test]
fn evaluated(rt: HostRuntime) -> Result<(), Fail> {
    for (text, rows) in [
        (texts::SETS, PLANS),
        (texts::CUSTOMERS, OF_CUSTOMERS),
        (texts::GRAPHS, OF_GRAPHS),
        (texts::THREE_TIMES, OF_THREE_TIMES),
    ] {
        edits_answer(&rt, rt.alloc(), "eval", text, rows)?;
    }
    inputs_answer(&rt, rt.alloc(), "eval", INPUTS)
}

#[test]
fn refused(rt: HostRuntime) -> Result<(), Fail> {
    for rows in [PATH_FAULTS, MODEL_FAULTS] {
        edits_answer(&rt, rt.alloc(), "eval", texts::SETS, rows)?;
    }
    Ok(())
}

#[test]
fn evaluated_as_solved(rt: HostRuntime) -> Result<(), Fail> {
    for (name, model, optimal, fine) in [
        ("packing sets", texts::SETS, "optimal 9\n", "fine 9\n"),
        (
            "three customers",
            texts::CUSTOMERS,
            "optimal 4\n",
            "fine 4\n",
        ),
        ("two graphs", texts::GRAPHS, "optimal 7\n", "fine 7\n"),
        ("narrow windows", texts::NARROW, "optimal 14\n", "fine 14\n"),
        ("arcs that pay", texts::PAYS, "optimal -6\n", "fine -6\n"),
    ] {
        let streams = Streams {
            read_piece: 1_000,
            failing_reads: &[],
            write_piece: 1_000,
            failing_writes: &[],
        };
        let solved = run(
            &rt,
            rt.alloc(),
            "solve --nodes 1000000",
            model.as_bytes(),
            streams,
        )?;
        assert_eq!(rt; solved.number, 0, "{name}");
        let written = solved.sink.written();
        assert!(rt; written.starts_with(optimal.as_bytes()), "{name}");
        let mut input = Vec::from_slice(rt.alloc(), model.as_bytes())?;
        for line in written.split(|byte| *byte == b'\n') {
            if line.starts_with(b"path ") {
                input.extend_from_slice(line)?;
                input.push(b'\n')?;
            }
        }
        input.extend_from_slice(b"end\n")?;
        answers(
            &rt,
            rt.alloc(),
            "eval",
            input.as_slice(),
            0,
            fine.as_bytes(),
            name,
        )?;
    }
    Ok(())
}
