//! What a text is read as, and what is expected of it.

use certificate::{Cert, read_cert, write_cert};
use model_text::{ReadError, TextFault, read_model};
use route_model::Model;
use std::alloc::Global;
use std::process::Abort;
use std::test::Fail;

/// The model of a text.
pub fn model_of(alloc: Global, text: &[u8]) -> Result<Model, Fail> {
    if text.len() >= 4_294_967_295 {
        return Err(Fail::new("a text is too long"));
    }
    read_model(alloc, text).map_err(|_| Fail::new("the text of a model is not valid"))
}

/// The certificate of the text, or its fault.
fn read(alloc: Global, model: &Model, text: &[u8]) -> Result<Result<Cert, TextFault>, Fail> {
    if text.len() >= 4_294_967_295 {
        return Err(Fail::new("a text is too long"));
    }
    match read_cert(alloc, model, text) {
        Ok(cert) => Ok(Ok(cert)),
        Err(ReadError::Text(fault)) => Ok(Err(fault)),
        Err(ReadError::Memory) => Err(Fail::new("out of memory")),
    }
}

/// Asserts that the text has the fault that is told as `16 Word`.
pub fn refuses<R: Abort>(
    rt: &R,
    alloc: Global,
    model: &Model,
    text: &[u8],
    expected: &str,
    row: &str,
) -> Result<(), Fail> {
    let (line, kind) = expected.split_once(' ').ok_or("a fault without a kind")?;
    let fault = read(alloc, model, text)?.err().expect(rt, row);
    assert_eq!(rt; fault.kind.name(), kind, "{row}");
    assert_eq!(rt; fault.line, line.parse::<u32>()?, "{row}");
    Ok(())
}

/// Asserts that the text is read, and printed so.
pub fn prints<R: Abort>(
    rt: &R,
    alloc: Global,
    model: &Model,
    text: &[u8],
    expected: &[u8],
    row: &str,
) -> Result<(), Fail> {
    if text.len() >= 4_294_967_295 {
        return Err(Fail::new("a text is too long"));
    }
    let cert = read_cert(alloc, model, text).ok().expect(rt, row);
    let printed = write_cert(alloc, model, &cert)?;
    assert_eq!(rt; printed.as_slice(), expected, "{row}");
    Ok(())
}
