ghost use Rattle.std.specs.Prelude.{◌≡◌, ◌∷◌, [], ◌++◌, IfOk, OnOk};
ghost use Rattle.std.specs.List.{flat_map};
ghost use Rattle.std.specs.Fmt.{decimal};
ghost use Rattle.model_text.specs.PathText.{path_line};
ghost use Rattle.vrp_cli.specs.Texts.{accepted_text, claim_words, cost_line, fault_text, incumbent_text};
ghost use Rattle.vrp_cli.specs.Texts.{limit_text, plan_fault_words};
ghost use Rattle.vrp_cli.specs.Texts.{refused_certificate_text, refused_plan_text};

use cert_check::CheckFault;
use certificate::Goal;
use model_text::{LineWriter, TextFault, print_path};
use path_graph::NoMemory;
use route_model::{Taken, Verdict};
use solve_run::Best;
use std::alloc::Global;

/// Writes a line of a word and a cost.
pub(crate) fn write_cost(text: &mut LineWriter, word: &[u8], cost: i64) -> Result<(), NoMemory>
    ensures { OnOk result (text.new ≡ text.old ++ cost_line word.now cost) }
{
    text.first(word)?;
    text.number(cost)?;
    text.end_line()
}

/// `refused PART LINE NUMBER KIND`
pub(crate) fn fault_line(
    alloc: Global,
    part: &[u8],
    fault: TextFault,
) -> Result<LineWriter, NoMemory>
    ensures { IfOk result (λ text. text ≡ fault_text part.now fault) }
{
    let mut text = LineWriter::new(alloc);
    text.first(b"refused")?;
    text.word(part)?;
    text.number(fault.line)?;
    text.number(fault.kind.number())?;
    text.word(fault.kind.name().as_bytes())?;
    text.end_line()?;
    Ok(text)
}

/// `refused certificate LINE NUMBER KIND`
pub(crate) fn check_fault_line(alloc: Global, fault: CheckFault) -> Result<LineWriter, NoMemory>
    ensures { IfOk result (λ text. text ≡ refused_certificate_text fault) }
{
    let mut text = LineWriter::new(alloc);
    text.first(b"refused")?;
    text.word(b"certificate")?;
    text.number(fault.line)?;
    text.number(fault.kind.number())?;
    text.word(fault.kind.name().as_bytes())?;
    text.end_line()?;
    Ok(text)
}

/// `accepted`, then the claim of a certificate.
pub(crate) fn accepted_line(alloc: Global, claim: Goal) -> Result<LineWriter, NoMemory>
    ensures { IfOk result (λ text. text ≡ accepted_text claim) }
{
    let mut text = LineWriter::new(alloc);
    text.first(b"accepted")?;
    write_claim(&mut text, claim)?;
    text.end_line()?;
    Ok(text)
}

fn write_claim(text: &mut LineWriter, claim: Goal) -> Result<(), NoMemory>
    ensures { OnOk result (text.new ≡ text.old ++ flat_map (λ word. 32 ∷ word) (claim_words claim)) }
{
    match claim {
        Goal::Optimal(cost) => {
            text.word(b"optimal")?;
            text.number(cost)
        }
        Goal::Infeasible => text.word(b"infeasible"),
    }
}

/// `refused plan`, then the first fault of a plan.
pub(crate) fn plan_fault_line(alloc: Global, verdict: Verdict) -> Result<LineWriter, NoMemory>
    ensures { IfOk result (λ text. text ≡ refused_plan_text verdict) }
{
    let mut text = LineWriter::new(alloc);
    text.first(b"refused")?;
    text.word(b"plan")?;
    write_plan_fault(&mut text, verdict)?;
    text.end_line()?;
    Ok(text)
}

fn write_plan_fault(text: &mut LineWriter, verdict: Verdict) -> Result<(), NoMemory>
    ensures { OnOk result (text.new
        ≡ text.old ++ flat_map (λ word. 32 ∷ word) (plan_fault_words verdict)) }
{
    match verdict {
        Verdict::Fine { .. } => Ok(()),
        Verdict::NotWalk(place) => write_place(text, b"walk", place),
        Verdict::Count(graph) => write_place(text, b"count", graph),
        Verdict::Packing(set) => write_place(text, b"packing", u32::from(set)),
        Verdict::VarBox(var) => write_place(text, b"variable", var),
        Verdict::RowBox(row) => write_place(text, b"row", row),
    }
}

/// Writes a word and a number.
fn write_place(text: &mut LineWriter, word: &[u8], place: u32) -> Result<(), NoMemory>
    ensures { OnOk result (text.new
        ≡ text.old ++ flat_map (λ word. 32 ∷ word) (word.now ∷ decimal place ∷ [])) }
{
    text.word(word)?;
    text.number(place)
}

/// `KIND limit NUMBER`, `bound BOUND`, then the best plan.
pub(crate) fn limit_lines(
    alloc: Global,
    kind: &[u8],
    limit: u32,
    bound: i64,
    best: &Option<Best>,
) -> Result<LineWriter, NoMemory>
    ensures { IfOk result (λ text. text ≡ limit_text kind.now limit bound best.now) }
{
    let mut text = LineWriter::new(alloc);
    text.first(kind)?;
    text.word(b"limit")?;
    text.number(limit)?;
    text.end_line()?;
    write_cost(&mut text, b"bound", bound)?;
    write_incumbent(&mut text, best)?;
    Ok(text)
}

/// `incumbent COST` and the path lines of the best plan, or `incumbent none`.
fn write_incumbent(text: &mut LineWriter, best: &Option<Best>) -> Result<(), NoMemory>
    ensures { OnOk result (text.new ≡ text.old ++ incumbent_text best.now) }
{
    match best {
        Some(best) => {
            write_cost(text, b"incumbent", best.cost)?;
            write_paths(text, best.plan.paths.as_slice())
        }
        None => {
            text.first(b"incumbent")?;
            text.word(b"none")?;
            text.end_line()
        }
    }
}

fn write_paths(text: &mut LineWriter, paths: &[Taken]) -> Result<(), NoMemory>
    ensures { OnOk result (text.new ≡ text.old ++ flat_map path_line paths.now) }
{
    for path in paths {
        print_path(text, path)?;
    }
    Ok(())
}
