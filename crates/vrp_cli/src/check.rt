ghost use Rattle.std.specs.Prelude.{◌<◌, ◌^◌, ◌-◌, length, IfOk};
ghost use Rattle.certificate.specs.CertFits.{CertFits};
ghost use Rattle.vrp_cli.specs.Answer.{AnswersCertificate, AnswersClaim, AnswersInput};

use crate::answer::Answer;
use crate::texts::{accepted_line, check_fault_line, fault_line};
use cert_check::{CheckError, check as check_cert};
use certificate::{Cert, read_cert};
use command_words::Command;
use model_text::{ReadError, model_end, read_model};
use path_graph::NoMemory;
use route_model::Model;
use std::alloc::Global;

/// What `check` answers to an input: a model text, up to and with the first line that begins with `end`, and then the text of
/// a certificate, whose lines are counted from 1.
pub(crate) fn check(alloc: Global, input: &[u8]) -> Result<Answer, NoMemory>
    requires { length input.now < 2 ^ 32 - 1 }
    ensures { IfOk result (AnswersInput Command.Check input.now) }
{
    let end = model_end(input) as usize;
    match read_model(alloc, &input[..end]) {
        Ok(model) => check_text(alloc, &model, &input[end..]),
        Err(ReadError::Text(fault)) => Ok(Answer::RefusedModel(fault_line(
            alloc, b"model", fault,
        )?)),
        Err(ReadError::Memory) => Err(NoMemory),
    }
}

/// The answer to the text of a certificate after a model.
fn check_text(alloc: Global, model: &Model, certificate: &[u8]) -> Result<Answer, NoMemory>
    requires { length certificate.now < 2 ^ 32 - 1 }
    ensures { IfOk result (AnswersCertificate model.now certificate.now) }
{
    match read_cert(alloc, model, certificate) {
        Ok(cert) => check_claim(alloc, model, &cert),
        Err(ReadError::Text(fault)) => Ok(Answer::NoCertificate(fault_line(
            alloc,
            b"certificate",
            fault,
        )?)),
        Err(ReadError::Memory) => Err(NoMemory),
    }
}

/// The answer to a certificate.
fn check_claim(alloc: Global, model: &Model, cert: &Cert) -> Result<Answer, NoMemory>
    requires { CertFits model.now cert.now }
    ensures { IfOk result (AnswersClaim model.now cert.now) }
{
    match check_cert(alloc, model, cert) {
        Ok(()) => Ok(Answer::Accepted(accepted_line(alloc, cert.goal)?)),
        Err(CheckError::Refused(fault)) => Ok(Answer::RefusedCertificate(check_fault_line(
            alloc, fault,
        )?)),
        Err(CheckError::Memory) => Err(NoMemory),
    }
}
