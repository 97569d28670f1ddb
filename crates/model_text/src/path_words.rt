ghost use Rattle.std.specs.Prelude.{◌≡◌, ◌+◌, ◌<◌, ◌≤◌, ◌++◌, ◌∷◌, [], false, length, IfOk, OnOk};
ghost use Rattle.std.specs.BTreeMap.{get};
ghost use Rattle.std.specs.Map.{count_at};
ghost use Rattle.std.specs.Ordering.{nat_cmp};
ghost use Rattle.vrp_lex.specs.Text.{words_of};
ghost use Rattle.line_text.specs.Gives.{Gives, IsShorter};
ghost use Rattle.model_text.specs.PathFault.{name_wanted, arcs_wanted, path_wanted, with_path};
ghost use Rattle.model_text.specs.PathCounts.{AreCounts};
ghost use Rattle.line_text.specs.Words.{and_then, give};

use line_text::{ItemReader, Kind, LineFault, fault_if, items, natural_in};
use path_graph::{List, MAX_PATHS};
use route_model::{Plan, Taken};
use std::alloc::Global;
use std::collections::BTreeMap;

/// The count of a graph so far.
fn count_of(counts: &BTreeMap<u32, u32>, graph: u32) -> u32
    ensures { result ≡ count_at (get nat_cmp counts.now) graph }
{
    match counts.get(&graph) {
        Some(count) => *count,
        None => 0,
    }
}

/// The number of a graph or an arc, known or not.
pub fn name_of(words: &[u8]) -> Result<(u32, &[u8]), LineFault>
    ensures gives { Gives (λ x. (x.0, words_of x.1.now)) result (name_wanted (words_of words.now)) }
    ensures shorter { IfOk result (λ x. IsShorter words.now x.1.now) }
{
    natural_in(words, 0, u32::MAX)
}

/// The arcs of a path.
#[derive(Drop)]
struct Arcs;

impl ItemReader for Arcs {
    type Item = u32;

    ghost stops = { λ _. false };

    ghost wanted = { λ _ _. name_wanted };

    ghost sound = { λ _ _. Unit {0} };

    fn stops_at(&self, _word: &[u8]) -> bool {
        false
    }

    fn take<'a>(&mut self, _before: &[u32], words: &'a [u8]) -> Result<(u32, &'a [u8]), LineFault> {
        name_of(words)
    }
}

/// `ARC ..`, to the end of the line: one arc or more.
pub fn arcs_of(alloc: Global, words: &[u8]) -> Result<(List<u32>, &[u8]), LineFault>
    ensures { Gives (λ x. (x.0, words_of x.1.now)) result (arcs_wanted (words_of words.now)) }
{
    let (arcs, rest) = items(&mut Arcs, alloc, words)?;
    fault_if(Kind::Word, arcs.is_empty())?;
    Ok((arcs, rest))
}

/// `GRAPH COUNT ARC ..` of a path. Appends the path to the plan, and its count to those of the graphs.
pub fn take_path<'a>(
    alloc: Global,
    plan: &mut Plan,
    counts: &mut BTreeMap<u32, u32>,
    words: &'a [u8],
) -> Result<&'a [u8], LineFault>
    requires { AreCounts counts.old plan.old }
    ensures gives { Gives (λ rest. (plan.new, words_of rest.now)) result
        (and_then (path_wanted plan.old (words_of words.now)) (λ path. give (with_path plan.old path))) }
    ensures counts { OnOk result (AreCounts counts.new plan.new) }
{
    let (graph, words) = name_of(words)?;
    let (count, words) = natural_in(words, 1, MAX_PATHS)?;
    let sum = count_of(counts, graph) + count;
    fault_if(Kind::TooMany, sum > MAX_PATHS)?;
    let (arcs, words) = arcs_of(alloc, words)?;
    counts.insert(graph, sum)?;
    plan.paths.push(Taken { graph, count, arcs })?;
    Ok(words)
}
