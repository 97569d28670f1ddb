ghost use Rattle.std.specs.Prelude.{◌<◌, ◌^◌, ◌-◌, length, IfOk};
ghost use Rattle.model_text.specs.Spelling.{Spells};
ghost use Rattle.certificate.specs.CertFits.{CertFits};
ghost use Rattle.solve_run.specs.Limits.{LimitsFit};
ghost use Rattle.solve_run.specs.Outcomes.{IsOutcome, IsPassed};
ghost use Rattle.vrp_cli.specs.Answer.{AnswersInput};
ghost use Rattle.vrp_cli.specs.Solved.{IsProofTold};
ghost use Rattle.vrp_cli.specs.Texts.{limit_text};

use crate::answer::Answer;
use crate::texts::{fault_line, limit_lines};
use certificate::{Cert, printed_cert_laws, write_cert};
use command_words::Command;
use model_text::{ReadError, read_model};
use path_graph::{List, NoMemory};
use route_model::Model;
use solve_run::{Limits, Outcome, solve as solve_model};
use std::alloc::Global;
use std::thread::Threads;
use vrp_io::Gate;

/// What `solve` answers to an input.
pub(crate) fn solve<R: Threads + Sync, G: Gate + Sync>(
    rt: &R,
    alloc: Global,
    limits: &Limits,
    input: &[u8],
    gate: &G,
) -> Result<Answer, NoMemory>
    requires limits { LimitsFit limits.now }
    requires few { length input.now < 2 ^ 32 - 1 }
    ensures { IfOk result (AnswersInput (Command.Solve limits.now) input.now) }
{
    match read_model(alloc, input) {
        Ok(model) => {
            let outcome = solve_model(rt, alloc, &model, limits, gate);
            outcome_answer(alloc, input, &model, limits, outcome)
        }
        Err(ReadError::Text(fault)) => Ok(Answer::RefusedModel(fault_line(
            alloc, b"model", fault,
        )?)),
        Err(ReadError::Memory) => Err(NoMemory),
    }
}

/// What a search of the model that the input spells ended with, as an answer.
fn outcome_answer(
    alloc: Global,
    input: &[u8],
    model: &Model,
    limits: &Limits,
    outcome: Outcome,
) -> Result<Answer, NoMemory>
    requires model { Spells input.now model.now }
    requires outcome { IsOutcome model.now limits.now outcome }
    requires passed { IsPassed model.now limits.now outcome }
    ensures { IfOk result (AnswersInput (Command.Solve limits.now) input.now) }
{
    let _input = input.len();
    match outcome {
        Outcome::Optimal { cert, .. } => Ok(Answer::Optimal(proof_text(alloc, model, &cert)?)),
        Outcome::Infeasible { cert } => Ok(Answer::Infeasible(proof_text(alloc, model, &cert)?)),
        Outcome::LabelLimit { wall, best, bound } => {
            let text = limit_lines(alloc, b"label", limits.labels, bound, &best)?;
            Ok(Answer::LabelLimit(text, wall))
        }
        Outcome::NodeLimit { nodes, best, bound } => {
            let text = limit_lines(alloc, b"node", limits.nodes, bound, &best)?;
            Ok(Answer::NodeLimit(text, nodes, best))
        }
        Outcome::Memory => Err(NoMemory),
    }
}

/// The text of a certificate that the check accepts.
fn proof_text(alloc: Global, model: &Model, cert: &Cert) -> Result<List<u8>, NoMemory>
    requires { CertFits model.now cert.now }
    ensures { IfOk result (IsProofTold model.now cert.now) }
{
    let _sets = model.sets;
    printed_cert_laws();
    write_cert(alloc, model, cert)
}
