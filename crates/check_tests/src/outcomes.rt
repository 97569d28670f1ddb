//! What the check says of a certificate, and what is expected.

use cert_check::{CheckError, CheckFault, check};
use certificate::read_cert;
use model_text::read_model;
use route_model::Model;
use std::alloc::Global;
use std::process::Abort;
use std::test::Fail;
use test_models::edits::{edit_of, edited};

/// The model of a text.
fn model_of(alloc: Global, text: &[u8]) -> Result<Model, Fail> {
    if text.len() >= 4_294_967_295 {
        return Err(Fail::new("a text is too long"));
    }
    read_model(alloc, text).map_err(|_| Fail::new("the text of a model is not valid"))
}

/// The first fault of the certificate of a text that is read, if it has one.
fn checked(alloc: Global, model: &Model, text: &[u8]) -> Result<Option<CheckFault>, Fail> {
    if text.len() >= 4_294_967_295 {
        return Err(Fail::new("a text is too long"));
    }
    let cert = read_cert(alloc, model, text).map_err(|_| Fail::new(
        "the text of a certificate is not valid",
    ))?;
    match check(alloc, model, &cert) {
        Ok(()) => Ok(None),
        Err(CheckError::Refused(fault)) => Ok(Some(fault)),
        Err(CheckError::Memory) => Err(Fail::new("out of memory")),
    }
}

/// Asserts what the check says, told as `accepted` or as `4 26 Cover`.
pub fn answers<R: Abort>(
    rt: &R,
    alloc: Global,
    model: &[u8],
    text: &[u8],
    expected: &str,
    row: &str,
) -> Result<(), Fail> {
    let model = model_of(alloc, model)?;
    let found = checked(alloc, &model, text)?;
    if expected == "accepted" {
        assert_eq!(rt; found, None, "{row}");
        return Ok(());
    }
    let (line, kind) = expected.split_once(' ').ok_or("a fault without a kind")?;
    let (number, name) = kind.split_once(' ').ok_or("a kind without a name")?;
    let fault = found.expect(rt, row);
    assert_eq!(rt; fault.kind.name(), name, "{row}");
    assert_eq!(rt; fault.kind.number(), number.parse::<u8>()?, "{row}");
    assert_eq!(rt; fault.line, line.parse::<u32>()?, "{row}");
    Ok(())
}

/// Asserts what the check says of each edit of a certificate, for a model.
pub fn table<R: Abort>(
    rt: &R,
    alloc: Global,
    model: &[u8],
    cert: &str,
    rows: &str,
) -> Result<(), Fail> {
    for row in rows.split_terminator('\n') {
        let (edit, expected) = edit_of(row)?;
        let text = edited(alloc, cert, edit)?;
        answers(rt, alloc, model, text.as_slice(), expected, row)?;
    }
    Ok(())
}

/// A model of a text, edited by a row that ends with the name of the model.
pub fn edited_model(alloc: Global, model: &str, row: &str) -> Result<Vec<u8>, Fail> {
    let (edit, _) = edit_of(row)?;
    edited(alloc, model, edit)
}
