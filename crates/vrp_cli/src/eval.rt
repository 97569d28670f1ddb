ghost use Rattle.std.specs.Prelude.{◌≡◌, ◌<◌, ◌^◌, ◌-◌, length, IfOk};
ghost use Rattle.route_model.specs.Verdicts.{IsCounted};
ghost use Rattle.vrp_cli.specs.Texts.{fine_text};
ghost use Rattle.vrp_cli.specs.Answer.{AnswersInput, AnswersPaths, AnswersPlan};

use crate::answer::Answer;
use crate::texts::{fault_line, plan_fault_line, write_cost};
use command_words::Command;
use model_text::{LineWriter, ReadError, model_end, read_model, read_plan};
use path_graph::NoMemory;
use route_model::{Model, Plan, Verdict, judge};
use std::alloc::Global;

/// What `eval` answers to an input: a model text, up to and with the first line that begins with `end`, and then a path
/// text, whose lines are counted from 1.
pub(crate) fn eval(alloc: Global, input: &[u8]) -> Result<Answer, NoMemory>
    requires { length input.now < 2 ^ 32 - 1 }
    ensures { IfOk result (AnswersInput Command.Eval input.now) }
{
    let end = model_end(input) as usize;
    match read_model(alloc, &input[..end]) {
        Ok(model) => eval_paths(alloc, &model, &input[end..]),
        Err(ReadError::Text(fault)) => Ok(Answer::RefusedModel(fault_line(
            alloc, b"model", fault,
        )?)),
        Err(ReadError::Memory) => Err(NoMemory),
    }
}

/// The answer to the text of a plan after a model.
fn eval_paths(alloc: Global, model: &Model, paths: &[u8]) -> Result<Answer, NoMemory>
    requires { length paths.now < 2 ^ 32 - 1 }
    ensures { IfOk result (AnswersPaths model.now paths.now) }
{
    match read_plan(alloc, paths) {
        Ok(plan) => eval_plan(alloc, model, &plan),
        Err(ReadError::Text(fault)) => Ok(Answer::RefusedPaths(fault_line(
            alloc, b"paths", fault,
        )?)),
        Err(ReadError::Memory) => Err(NoMemory),
    }
}

/// The answer to a plan.
fn eval_plan(alloc: Global, model: &Model, plan: &Plan) -> Result<Answer, NoMemory>
    requires { IsCounted plan.now }
    ensures { IfOk result (AnswersPlan model.now plan.now) }
{
    match judge(model, plan) {
        Verdict::Fine { cost } => Ok(Answer::Fine(cost_text(alloc, cost)?)),
        verdict => Ok(Answer::RefusedPlan(plan_fault_line(alloc, verdict)?)),
    }
}

/// `fine COST`
fn cost_text(alloc: Global, cost: i64) -> Result<LineWriter, NoMemory>
    ensures { IfOk result (λ text. text ≡ fine_text cost) }
{
    let mut text = LineWriter::new(alloc);
    write_cost(&mut text, b"fine", cost)?;
    Ok(text)
}
