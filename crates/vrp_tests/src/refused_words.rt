//! Words that are not taken.

use crate::running::answers;
use std::test::Fail;
use test_models::texts;

#[test]
fn refused_words(rt: HostRuntime) -> Result<(), Fail> {
    for words in [
        "",
        "solve x",
        "print x",
        "eval x",
        "check x",
        "eval check",
        "print print",
        "print eval",
        "Solve",
        "Print",
        "Eval",
        "Check",
        "solv",
        "prints",
        "evaluate",
        "checks",
        "help",
        "--",
        "-- print",
        "print --",
        "solve --labels 0",
        "solve --labels 16777217",
        "solve --nodes 5 --nodes 6",
        "solve --nodes 1000001",
        "solve --nodes",
        "solve --nodes -1",
        "solve --workers 65",
        "solve --labels 00000000005",
        "solve --lab 5",
        "solve -l 5",
        "--labels 5 solve",
        "print --labels 5",
    ] {
        answers(
            &rt,
            rt.alloc(),
            words,
            texts::SETS.as_bytes(),
            2,
            b"refused words\n",
            words,
        )?;
    }
    Ok(())
}
