ghost use Rattle.std.specs.Prelude.{◌≡◌, ◌<◌, ◌≤◌, ◌-◌, ◌^◌, OnOk, IfOk, IfErr, length};
ghost use Rattle.route_model.specs.declared.plan.Plan.{Plan};
ghost use Rattle.model_text.specs.PathText.{SpellsPlan};
ghost use Rattle.vrp_lex.specs.Text.{words_of};
ghost use Rattle.line_text.specs.Gives.{Gives};
ghost use Rattle.line_text.specs.Words.{and_then, give};
ghost use Rattle.model_text.specs.PathFault.{empty_plan, path_rule, put, path_reading, IsPathRefusal};
ghost use Rattle.model_text.specs.PathCounts.{AreCounts};

use crate::path_words::take_path;
use line_text::{Kind, LineFault, LineReader, ReadError, read_text, word};
use path_graph::List;
use route_model::Plan;
use std::alloc::Global;
use std::collections::BTreeMap;

/// What the lines of a path text say so far, and whether the end line is read.
#[derive(Drop)]
pub struct PlanDraft {
    pub ended: bool,
    pub plan: Plan,
}

/// The same with the counts of the graphs so far.
#[derive(Drop)]
struct PlanReader {
    draft: PlanDraft,
    counts: BTreeMap<u32, u32>,
}

/// `GRAPH COUNT ARC ..` of a path, after the paths of a draft.
fn take_path_line<'a>(
    alloc: Global,
    draft: &mut PlanDraft,
    counts: &mut BTreeMap<u32, u32>,
    words: &'a [u8],
) -> Result<&'a [u8], LineFault>
    requires { AreCounts counts.old draft.old.plan }
    ensures gives { Gives (λ rest. (draft.new, words_of rest.now)) result
        (and_then (path_rule.further draft.old (words_of words.now)) (λ item. give (put draft.old item))) }
    ensures counts { OnOk result (AreCounts counts.new draft.new.plan) }
{
    take_path(alloc, &mut draft.plan, counts, words)
}

impl PlanReader {
    /// Before the first line.
    fn new(alloc: Global) -> PlanReader
        ensures draft { result.draft ≡ empty_plan }
        ensures counts { AreCounts result.counts result.draft.plan }
    {
        let draft = PlanDraft {
            ended: false,
            plan: Plan {
                paths: List::new(alloc),
            },
        };
        PlanReader {
            draft,
            counts: BTreeMap::new(alloc),
        }
    }
}

impl LineReader for PlanReader {
    type Told = PlanDraft;

    ghost reading = { λ _. path_reading };

    ghost told = { λ r. r.draft };

    ghost sound = { λ r. AreCounts r.counts r.draft.plan };

    fn is_ended(&self) -> bool {
        self.draft.ended
    }

    fn take_line<'a>(
        &mut self,
        alloc: Global,
        _number: u32,
        words: &'a [u8],
    ) -> Result<&'a [u8], LineFault> {
        let (first, words) = word(words)?;
        if first == b"path".as_slice() {
            return take_path_line(alloc, &mut self.draft, &mut self.counts, words);
        }
        if first == b"end".as_slice() {
            self.draft.ended = true;
            return Ok(words);
        }
        Err(LineFault::Fault(Kind::Word))
    }
}

/// The plan of a path text.
///
/// Lines, words, numbers and comments are those of model texts. Each line is `path GRAPH COUNT ARC ..`, with one arc or
/// more, and `end` is the last. An unknown graph or arc is no fault: the judge of plans looks at these. The time is
/// linear in the text, but for the count of each graph so far, which is looked up in a tree for each path.
pub fn read_plan(alloc: Global, bytes: &[u8]) -> Result<Plan, ReadError>
    requires { length bytes.now < 2 ^ 32 - 1 }
    ensures ok { IfOk result (SpellsPlan bytes.now) }
    ensures only { IfOk result (λ plan. (other : Plan) → SpellsPlan bytes.now other → other ≡ plan) }
    ensures refused { IfErr result (IsPathRefusal bytes.now) }
{
    let reader = read_text(PlanReader::new(alloc), alloc, bytes)?;
    Ok(reader.draft.plan)
}
