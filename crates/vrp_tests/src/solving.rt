//! What `solve` answers: the first lines of a certificate, which `check` accepts; or a limit. The expected values are worked out
//! by hand.

use crate::running::{Streams, edits_answer, inputs_answer, run, solves};
use std::test::Fail;
use test_models::texts;

#[test]
fn solved(rt: HostRuntime) -> Result<(), Fail> {
    for (name, input, status, text) in [
        // The walks cost 6, 8, 9 and 12; that of cost 9 visits both.
        (
            "four vertices",
            texts::FOUR,
            0,
            "optimal 9\npath 0 1 0 2 5\n",
        ),
        // 3 + 3 for the first alone, 4 + 4 for the second alone.
        (
            "narrow windows",
            texts::NARROW,
            0,
            "optimal 14\npath 0 1 0 4\npath 0 1 1 5\n",
        ),
        ("one path", texts::ONE_PATH, 1, "infeasible\n"),
        ("no paths", texts::NO_PATHS, 0, "optimal 0\n"),
        // 4 + 5 + 3 by the second vertex and then the first.
        ("a dear arc", texts::DEAR, 0, "optimal 12\npath 0 1 1 3 4\n"),
        // -3 + 2 + 4 by the first vertex and then the second.
        (
            "an arc that pays",
            texts::PAYS_FIRST,
            0,
            "optimal 3\npath 0 1 0 2 5\n",
        ),
        ("a row that no plan meets", texts::UNMET, 1, "infeasible\n"),
        // Three times -2.
        (
            "one walk three times",
            texts::THREE_TIMES,
            0,
            "optimal -6\npath 0 3 0\n",
        ),
        // Twice -1 and once -4: three paths are allowed, and the second arc is taken once at the most.
        (
            "arcs that pay",
            texts::PAYS,
            0,
            "optimal -6\npath 0 2 0\npath 0 1 1\n",
        ),
        // A alone, B and C, D and E: 8 + 15 + 10, each driven either way. By hand, and by trying all routes.
        ("five customers", texts::FIVE_CUSTOMERS, 0, "optimal 33\n"),
        // B before A, C alone, D before E: 12 + 12 + 10, the only routes of this cost.
        (
            "time windows",
            texts::TIME_WINDOWS,
            0,
            "optimal 34\npath 0 1 1 6 13\npath 0 1 2 15\npath 0 1 3 11 17\n",
        ),
        // 5 of the first graph and 2 of the second.
        (
            "two graphs",
            texts::GRAPHS,
            0,
            "optimal 7\npath 0 1 0\npath 1 1 0\n",
        ),
    ] {
        solves(
            &rt,
            rt.alloc(),
            "solve --nodes 1000000",
            input.as_bytes(),
            status,
            text.as_bytes(),
            name,
        )?;
    }
    Ok(())
}

/// Edits of the text with packing sets: models with their least plans, then a fault of each kind.
const EDITS: &str = "1 0 |  | 0 | optimal 9 / path 0 1 0 2 5
12 15 | vertex - 0 1 / vertex 0 0 1 / vertex 1 0 1 / vertex - 0 1 | 0 | optimal 14 / path 0 1 0 4 / path 0 1 1 5
11 15 | graph 4 0 3 0 1 1 0 / vertex - 0 1 / vertex 0 0 1 / vertex 1 0 1 / vertex - 0 1 | 1 | infeasible
8 11 | sets 2 / graph 4 0 3 0 0 1 0 | 0 | optimal 0
10 14 | graph 4 0 3 0 2 1 0 / vertex - 0 2 / vertex - 0 2 / vertex - 0 2 | 0 | optimal 9 / path 0 1 0 2 5
13 14 | vertex 0 0 2 / vertex 0 0 2 | 1 | infeasible
11 21 | graph 4 0 3 0 2 1 1 / vertex - 0 2 -5 5 / vertex 0 0 2 -5 5 / vertex 1 0 2 -5 5 / vertex - 0 2 -5 5 / arc 0 1 1 -1 0 / arc 0 2 1 -1 1 / arc 1 2 1 -1 2 / arc 2 1 1 -1 3 / arc 1 3 0 -1 4 / arc 2 3 0 -1 5 | 0 | optimal 9 / path 0 1 0 2 5
2 2 | var 0 2 1000000000 | 0 | optimal 12 / path 0 1 1 3 4
15 15 | vertex - 4 4 | 0 | optimal 9 / path 0 1 0 2 5
18 18 | arc 1 2 0 2 | 0 | optimal 9 / path 0 1 0 2 5
1 1 | vrpmodel 2 | 3 | refused model 1 1 Version
16 16 | route 0 1 1 0 | 3 | refused model 16 2 Word
8 8 | row 1 1 0 one 3 1 | 3 | refused model 8 3 Number
2 2 | var 0 2 1000000001 | 3 | refused model 2 4 Range
9 8 | sets 2 | 3 | refused model 10 5 Order
10 10 | sets 1 | 3 | refused model 14 6 Unknown
22 22 |  | 3 | refused model 22 7 EndMissing
23 23 | x | 3 | refused model 23 8 AfterEnd
23 23 | path 0 1 0 2 5 / end | 3 | refused model 23 8 AfterEnd
11 11 | graph 4 0 0 0 2 1 0 | 3 | refused model 11 9 Ends
12 12 | vertex - 5 4 | 3 | refused model 12 10 Window
16 16 | arc 0 1 -1 0 | 3 | refused model 16 11 MainNegative
18 19 | arc 1 2 0 2 / arc 2 1 0 3 | 3 | refused model 22 12 FreeCycle
11 11 | graph 4 0 3 2 1 1 0 | 3 | refused model 11 13 Box
2 2 | var 0 1000000 1000000000 | 3 | refused model 22 14 CostRange
8 9 | row * * 0 1000000 / row * * 0 48577 | 3 | refused model 9 15 TooMany
3 3 | var 0 2 4\x7f | 3 | refused model 3 16 Byte
";

/// Whole inputs.
const INPUTS: &str = " | 3 | refused model 1 7 EndMissing
/ | 3 | refused model 2 7 EndMissing
vrpmodel 1/end/ | 0 | optimal 0
vrpmodel 1/var 1 1 5/end/ | 1 | infeasible
vrpmodel 1/var 1 1 5/graph 2 0 1 1 1 1 0/vertex - 0 1/vertex - 0 1/arc 0 1 1 0/end/ | 0 | optimal 5 / path 0 1 0
vrpmodel 1/var 2 2 -5/graph 2 0 1 0 3 1 0/vertex - 0 1/vertex - 0 1/arc 0 1 1 0/end/ | 0 | optimal -10 / path 0 2 0
vrpmodel 1/graph 2 0 1 0 0 1 0/vertex - 0 1/vertex - 0 1/end/ | 0 | optimal 0
vrpmodel  1/graph 2 0 1 0 0 1 0/vertex - 0 1/vertex - 0 1/end/ | 0 | optimal 0
vrpmodel 1/graph 2 0 1 0 00 1 0/vertex - 0 1/vertex - 0 1/end/ | 0 | optimal 0
vrpmodel 1 # one/graph 2 0 1 0 0 1 0/vertex - 0 1/vertex - 0 1/end/ | 0 | optimal 0
vrpmodel 1\r/graph 2 0 1 0 0 1 0\r/vertex - 0 1\r/vertex - 0 1\r/end\r/ | 0 | optimal 0
vrpmodel 1/graph 2 0 1 0 0 1 0/vertex - 0 1/vertex - 0 1/end | 0 | optimal 0
vrpmodel 1/graph 2 0 1 0 0 1 0/vertex - 0 1/vertex - 0 1/end/x/ | 3 | refused model 6 8 AfterEnd
vrpmodel 1/graph 2 0 1 0 0 1 0/vertex - 0 1/vertex - 0 1/ | 3 | refused model 5 7 EndMissing
vrpmodel 1/graph 2 0 1 0 0 1 0/vertex - 0 1/vertex - 0 1 | 3 | refused model 4 7 EndMissing
vrpmodel 1\r/var 0 2 3 # note\r/var 0 2 4\r/var 0 2 2\r/var 0 2 5\r/var 0 2 3\r/var 0 2 4\r/row 1 1 0 1 3 1\r/row 1 1 1 1 2 1\r/sets 2\r/graph 4 0 3 0 2 1 0\r/vertex - 0 2\r/vertex 0 0 2\r/vertex 1 0 2\r/vertex - 0 2\r/arc 0 1 1 0\r/arc 0 2 1 1\r/arc 1 2 1 2\r/arc 2 1 1 3\r/arc 1 3 0 4\r/arc 2 3 0 5\r/end\r/ | 0 | optimal 9 / path 0 1 0 2 5
";

#[test]
fn solved_edits(rt: HostRuntime) -> Result<(), Fail> {
    edits_answer(&rt, rt.alloc(), "solve --nodes 1000", texts::SETS, EDITS)
}

#[test]
fn solved_inputs(rt: HostRuntime) -> Result<(), Fail> {
    inputs_answer(&rt, rt.alloc(), "solve", INPUTS)
}

/// One label is that of the root.
#[test]
fn stopped_at_labels(rt: HostRuntime) -> Result<(), Fail> {
    for words in ["solve --labels 1", "solve --labels=1 --nodes 1000"] {
        edits_answer(
            &rt,
            rt.alloc(),
            words,
            texts::SETS,
            "1 0 |  | 5 | label limit 1 / bound 0 / incumbent none",
        )?;
    }
    Ok(())
}

/// One node is the split of the root place, at the bound of half of three walks of cost 2; both parts are open.
#[test]
fn stopped_at_nodes(rt: HostRuntime) -> Result<(), Fail> {
    solves(
        &rt,
        rt.alloc(),
        "solve --nodes 1",
        texts::CUSTOMERS.as_bytes(),
        6,
        b"node limit 1\nbound 3\nincumbent none\n",
        "three customers",
    )
}

/// With multipliers the root place closes by tables of nine labels, where a list of walks would have thirty lines.
#[test]
fn closed_at_the_root(rt: HostRuntime) -> Result<(), Fail> {
    solves(
        &rt,
        rt.alloc(),
        "solve --labels 20",
        texts::SIXTEEN_WALKS.as_bytes(),
        0,
        b"optimal 4\npath 0 1 1 3 5 7\nproof 1\nclose\n",
        "sixteen walks",
    )
}

#[test]
fn solved_twice(rt: HostRuntime) -> Result<(), Fail> {
    let streams = Streams {
        read_piece: 1_000,
        failing_reads: &[],
        write_piece: 1_000,
        failing_writes: &[],
    };
    let input = texts::TIME_WINDOWS.as_bytes();
    let first = run(&rt, rt.alloc(), "solve --nodes 1000", input, streams)?;
    let second = run(
        &rt,
        rt.alloc(),
        "solve --nodes=1000 --workers 1",
        input,
        streams,
    )?;
    assert_eq!(rt; first.number, 0);
    assert_eq!(rt; first.sink.written(), second.sink.written());
    Ok(())
}
