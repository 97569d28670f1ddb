//! Path texts: what is read and printed again, the faults, and where a model text ends. In a row stand a text, in which
//! `/` stands for LF, and what is expected of it.

ghost use Rattle.std.specs.Prelude.{IfOk};
ghost use Rattle.model_text.specs.PathText.{PlanFits};

use model_text::{ReadError, TextFault, model_end, print_plan, read_plan};
use route_model::Plan;
use std::alloc::Global;
use std::test::Fail;
use test_models::edits::joined;

/// Texts that are read, each with what is printed: `same` is the same.
const READ: &str = "end/ | same
path 0 1 0 2 5/end/ | same
path 0 1 0 3 10/path 0 1 2 11/end/ | same
path 1 1 0/path 0 1 0/path 1 2 0/end/ | same
path 4294967295 1 4294967295/end/ | same
path 0 4096 0/path 1 4096 0/end/ | same
path 0 4095 0/path 1 4096 0/path 0 1 0/end/ | same
path 0 1 0/path 0 1 0/end/ | same
path 0 1 5 5 5/end/ | same
end | end/
path 0 1 0/end | path 0 1 0/end/
path 00 001 -0 02 05/end/ | path 0 1 0 2 5/end/
path 0 01  00000000004294967295/end/ | path 0 1 4294967295/end/
\tpath  0\t1 0 # note/ # /\r/  end\t# end/ | path 0 1 0/end/
path 0 1 0\r/end\r/ | path 0 1 0/end/
# \x01\x7f é/path 0 1 0/end/# path 0 1 0/ / | path 0 1 0/end/
path 0 1 0# 2 5/end# end/ | path 0 1 0/end/
";

/// Texts with one fault.
const FAULTY: &str = "route 0 1 0/end/ | 1 Word
Path 0 1 0/end/ | 1 Word
path/end/ | 1 Word
path 0/end/ | 1 Word
path 0 1/end/ | 1 Word
path 0 1 # 0/end/ | 1 Word
path 0 1 0/end end/ | 2 Word
vrpmodel 1/end/ | 1 Word
path zero 1 0/end/ | 1 Number
path - 1 0/end/ | 1 Number
path 0 one 0/end/ | 1 Number
path 0 1 */end/ | 1 Number
path 0 1 0 2 5x/end/ | 1 Number
path 0 1 0 +2/end/ | 1 Number
path -1 1 0/end/ | 1 Range
path 4294967296 1 0/end/ | 1 Range
path 0 0 0/end/ | 1 Range
path 0 -1 0/end/ | 1 Range
path 0 4097 0/end/ | 1 Range
path 0 1 -1/end/ | 1 Range
path 0 1 4294967296/end/ | 1 Range
path 0 1 0 340282366920938463463374607431768211457/end/ | 1 Range
 | 1 EndMissing
/ | 2 EndMissing
path 0 1 0 | 1 EndMissing
path 0 1 0/ | 2 EndMissing
path 0 1 0/# end/ / | 4 EndMissing
end/x/ | 2 AfterEnd
end/end | 2 AfterEnd
path 0 1 0/end/ /path 0 1 0/ | 4 AfterEnd
path 0 4096 0/path 0 1 0/end/ | 2 TooMany
path 0 1 0/path 1 1 0/path 0 4095 1/path 0 1 1/end/ | 4 TooMany
path 7 2049 0/path 7 2048 1/end/ | 2 TooMany
path 0 1 0\x01/end/ | 1 Byte
path 0 1 0/é/end/ | 2 Byte
path 0 1 0/end/\x7f | 3 Byte
";

/// Texts with two faults or more, of which the first in the order is answered: the kinds in their order, the words in
/// theirs, the lines in theirs.
const FIRST: &str = "x \x01/end/ | 1 Byte
path x\x7f 0/end/ | 1 Byte
end/x \x01/ | 2 Byte
end/x/\x01/ | 2 AfterEnd
end/path x/ | 2 AfterEnd
end/path 0 0/ | 2 AfterEnd
route x/end/ | 1 Word
path x/end/ | 1 Number
path x 0 0/end/ | 1 Number
path 4294967296 x 0/end/ | 1 Range
path 4294967296/end/ | 1 Range
path 0 0/end/ | 1 Range
path 0 0 x/end/ | 1 Range
path 0 x -1/end/ | 1 Number
path 0 1 -1 x/end/ | 1 Range
path 0 1 x -1/end/ | 1 Number
path 0 4096 0/path 0 4097 0/end/ | 2 Range
path 0 4096 0/path 0 1/end/ | 2 TooMany
path 0 4096 0/path 0 1 x/end/ | 2 TooMany
path 0 4096 0/path 0 1 -1/end/ | 2 TooMany
path 0 4096 0/path 0 1 0/path x | 2 TooMany
path 0 4096 0/path x 1 0/path 0 1 0/end/ | 2 Number
path 0 0 0/x \x01/end/ | 1 Range
path 0 0 0 | 1 Range
path 0 4096 0/path 0 1 0/ | 2 TooMany
end end/x/ | 1 Word
path 0 1/end/x/ | 1 Word
path 0 1/ | 1 Word
path 0 1 0/\x01 | 2 Byte
";

/// Texts that begin with a model text, each with the number of bytes to its end.
const ENDS: &str = " | 0
vrpmodel 1/end/ | 15
vrpmodel 1/end | 14
vrpmodel 1/end/path 0 1 0/end/ | 15
vrpmodel 1/end\r/end/ | 16
vrpmodel 1/end x/end/ | 17
vrpmodel 1/\t end # end/x/ | 23
vrpmodel 1/end#x/x/ | 17
vrpmodel 1/# end/ends/x end/End/ | 32
vrpmodel 1/# end/ends/x end/End/end/x | 36
vrpmodel 1/ | 11
vrpmodel 1 | 10
end/end/ | 4
/end/ | 5
\x01/end \x01/x/ | 8
";

/// The plan of a text, or its fault.
fn read(alloc: Global, text: &[u8]) -> Result<Result<Plan, TextFault>, Fail>
    ensures { IfOk result (λ read. IfOk read (λ plan. PlanFits plan)) }
{
    if text.len() >= 4_294_967_295 {
        return Err(Fail::new("a text is too long"));
    }
    match read_plan(alloc, text) {
        Ok(plan) => Ok(Ok(plan)),
        Err(ReadError::Text(fault)) => Ok(Err(fault)),
        Err(ReadError::Memory) => Err(Fail::new("out of memory")),
    }
}

#[test]
fn plans_printed_again(rt: HostRuntime) -> Result<(), Fail> {
    for row in READ.lines() {
        let (text, expected) = row.rsplit_once(" | ").ok_or("a row without a print")?;
        let printed = match expected {
            "same" => joined(rt.alloc(), text)?,
            printed => joined(rt.alloc(), printed)?,
        };
        let text = joined(rt.alloc(), text)?;
        let plan = read(rt.alloc(), text.as_slice())?.expect(&rt, row);
        let again = print_plan(rt.alloc(), &plan)?;
        assert_eq!(rt; again.as_slice(), printed.as_slice(), "{row}");
    }
    Ok(())
}

#[test]
fn plan_faults(rt: HostRuntime) -> Result<(), Fail> {
    for rows in [FAULTY, FIRST] {
        for row in rows.lines() {
            let (text, expected) = row.rsplit_once(" | ").ok_or("a row without a fault")?;
            let (line, kind) = expected.split_once(' ').ok_or("a fault without a kind")?;
            let text = joined(rt.alloc(), text)?;
            let fault = read(rt.alloc(), text.as_slice())?.err().expect(&rt, row);
            assert_eq!(rt; fault.kind.name(), kind, "{row}");
            assert_eq!(rt; fault.line, line.parse::<u32>()?, "{row}");
        }
    }
    Ok(())
}

#[test]
fn model_ends(rt: HostRuntime) -> Result<(), Fail> {
    for row in ENDS.lines() {
        let (text, end) = row.rsplit_once(" | ").ok_or("a row without an end")?;
        let text = joined(rt.alloc(), text)?;
        assert!(rt; text.len() < 1_000, "{row}");
        let found = model_end(text.as_slice());
        assert_eq!(rt; found, end.parse::<u32>()?, "{row}");
    }
    Ok(())
}
