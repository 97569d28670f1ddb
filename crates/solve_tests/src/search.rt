//! The solver on the models of blocks, and what is expected of it.

use cert_check::check;
use model_text::{LineWriter, print_path, read_model};
use path_graph::NoMemory;
use route_model::{Model, Plan, Verdict, judge};
use solve_run::{Limits, Outcome, solve};
use std::alloc::Global;
use std::process::Abort;
use std::test::Fail;
use std::thread::Threads;
use test_models::blocks::block_of;
use vrp_io::NoGate;

/// Limits that none of the models meets.
const LIMITS: Limits = Limits {
    workers: 1,
    labels: 100_000,
    nodes: 10_000,
};

/// The answer where there is no solution.
fn infeasible(alloc: Global) -> Result<LineWriter, NoMemory> {
    let mut text = LineWriter::new(alloc);
    text.first(b"infeasible")?;
    text.end_line()?;
    Ok(text)
}

/// The answer of a least plan: its cost, and its path lines.
fn optimal(alloc: Global, cost: i64, plan: &Plan) -> Result<LineWriter, NoMemory> {
    let mut text = LineWriter::new(alloc);
    text.first(b"optimal")?;
    text.number(cost)?;
    text.end_line()?;
    for path in plan.paths.as_slice() {
        print_path(&mut text, path)?;
    }
    Ok(text)
}

/// The model of a text that is not too long.
fn short_model(alloc: Global, text: &[u8]) -> Result<Model, Fail> {
    if text.len() >= 10_000 {
        return Err(Fail::new("a text is too long"));
    }
    Ok(read_model(alloc, text)?)
}

/// Solves a model: the answer, and whether its plan is a solution of its cost and its certificate is accepted.
fn searched<R: Threads + Sync>(
    rt: &R,
    alloc: Global,
    text: &[u8],
) -> Result<(LineWriter, bool), Fail> {
    let model = short_model(alloc, text)?;
    match solve(rt, alloc, &model, &LIMITS, &NoGate) {
        Outcome::Optimal { cost, plan, cert } => {
            let fine = judge(&model, &plan) == Verdict::Fine { cost };
            let accepted = check(alloc, &model, &cert).is_ok();
            Ok((optimal(alloc, cost, &plan)?, fine && accepted))
        }
        Outcome::Infeasible { cert } => {
            let accepted = check(alloc, &model, &cert).is_ok();
            Ok((infeasible(alloc)?, accepted))
        }
        Outcome::LabelLimit { .. } | Outcome::NodeLimit { .. } => Err(Fail::new("a limit was met")),
        Outcome::Memory => Err(Fail::new("there was no memory")),
    }
}

/// Whether an answer is one that is said: the same lines, or where that ends in ` by any`, the same first line.
fn is_said(answer: &[u8], said: &str) -> bool {
    match said.strip_suffix(" by any") {
        Some(line) => answer.split(|byte| *byte == b'\n').next() == Some(line.as_bytes()),
        None => answer.strip_suffix(b"\n".as_slice()) == Some(said.as_bytes()),
    }
}

/// Solves the model of a block and compares.
fn compare<R: Threads + Sync + Abort>(rt: &R, alloc: Global, text: &str) -> Result<(), Fail> {
    let block = block_of(alloc, text)?;
    let (answer, fine) = searched(rt, alloc, block.model.as_slice())?;
    assert!(rt; fine, "{text}");
    assert!(rt; is_said(answer.as_slice(), block.said.trim()), "{text}");
    Ok(())
}

/// Solves the models of the blocks, which stand apart by an empty line.
pub fn search<R: Threads + Sync + Abort>(rt: &R, alloc: Global, blocks: &str) -> Result<(), Fail> {
    for text in blocks.split("\n\n") {
        compare(rt, alloc, text)?;
    }
    Ok(())
}
