//! What a text is read as, and what is expected of it.

use model_text::{ReadError, TextFault, print_model, read_model};
use route_model::Model;
use std::alloc::Global;
use std::process::Abort;
use std::test::Fail;

/// The model of the text, or its fault.
fn read(alloc: Global, text: &[u8]) -> Result<Result<Model, TextFault>, Fail> {
    if text.len() >= 4_294_967_295 {
        return Err(Fail::new("a text is too long"));
    }
    match read_model(alloc, text) {
        Ok(model) => Ok(Ok(model)),
        Err(ReadError::Text(fault)) => Ok(Err(fault)),
        Err(ReadError::Memory) => Err(Fail::new("out of memory")),
    }
}

/// Asserts that the text has the fault that is told as `16 MainNegative`.
pub fn refuses<R: Abort>(
    rt: &R,
    alloc: Global,
    text: &[u8],
    expected: &str,
    row: &str,
) -> Result<(), Fail> {
    let (line, kind) = expected.split_once(' ').ok_or("a fault without a kind")?;
    let fault = read(alloc, text)?.err().expect(rt, row);
    assert_eq!(rt; fault.kind.name(), kind, "{row}");
    assert_eq!(rt; fault.line, line.parse::<u32>()?, "{row}");
    Ok(())
}

/// Asserts that the text is read, and printed so.
pub fn prints<R: Abort>(
    rt: &R,
    alloc: Global,
    text: &[u8],
    expected: &[u8],
    row: &str,
) -> Result<(), Fail> {
    let model = read(alloc, text)?.expect(rt, row);
    let printed = print_model(alloc, &model)?;
    assert_eq!(rt; printed.as_slice(), expected, "{row}");
    Ok(())
}
