ghost use Rattle.std.specs.Prelude.{◌≡◌, false, ℕ, ◌+◌, ◌<◌, ◌≤◌, ◌^◌, [], ◌∷◌, length, sum_by, take, drop, map, pos, IfOk, if◌then◌else◌};
ghost use Rattle.vrp_lex.specs.Text.{words_of};
ghost use Rattle.path_graph.specs.Fit.{is_used_at};
ghost use Rattle.path_graph.specs.Walk.{positions};
ghost use Rattle.line_text.specs.Words.{give};
ghost use Rattle.model_text.specs.LineWords.{last_of, is_above, graph_wanted, window_at, need_at, vertex_wanted, mapped_wanted, arc_wanted};
ghost use Rattle.line_text.specs.Words.{for_each, to_the_end};
ghost use Rattle.model_text.specs.Totals.{path_total};
ghost use Rattle.line_text.specs.Gives.{Gives, IsShorter};

use crate::draft::Section;
use crate::line_words::{is_above, need_of, set_of, window_of};
use line_text::{ItemReader, Kind, LineFault, fault_if, has_word, items, known_below, natural_in};
use path_graph::{Ends, GraphArc, List, MAX_PATHS, MAX_VERTICES, Vertex, Window, is_used};
use route_model::{MAX_GRAPHS, MAX_MAPPED};
use std::alloc::Global;

/// The sum of the high path counts.
fn path_total(sections: &[Section]) -> u64
    requires few { length sections.now ≤ MAX_GRAPHS }
    ensures { result ≡ path_total sections.now }
{
    sections.iter().map(|s| u64::from(s.ends.high)).sum()
}

/// `VERTICES SOURCE SINK LOWPATHS HIGHPATHS MAINS SECONDARIES` of a graph, after these graphs.
pub fn graph_of<'a>(
    words: &'a [u8],
    sections: &[Section],
) -> Result<((u32, Ends), &'a [u8]), LineFault>
    requires few { length sections.now ≤ MAX_GRAPHS }
    requires paths { path_total sections.now ≤ MAX_PATHS }
    ensures gives { Gives (λ x. (x.0, words_of x.1.now)) result
        (graph_wanted sections.now (words_of words.now)) }
    ensures count { IfOk result (λ x. (0 < x.0.0) × (x.0.0 ≤ MAX_VERTICES)) }
    ensures paths { IfOk result (λ x. path_total sections.now + x.0.1.high ≤ MAX_PATHS) }
{
    let (count, words) = natural_in(words, 2, MAX_VERTICES as u32)?;
    let (source, words) = known_below(words, count)?;
    let (sink, words) = known_below(words, count)?;
    fault_if(Kind::Ends, sink == source)?;
    let (low, words) = natural_in(words, 0, MAX_PATHS)?;
    let (high, words) = natural_in(words, 0, MAX_PATHS)?;
    fault_if(Kind::Box, high < low)?;
    fault_if(
        Kind::TooMany,
        path_total(sections) + u64::from(high) > u64::from(MAX_PATHS),
    )?;
    let (mains, words) = natural_in(words, 1, 2)?;
    let (seconds, words) = natural_in(words, 0, 4)?;
    let ends = Ends {
        source,
        sink,
        low,
        high,
        mains: mains as u8,
        seconds: seconds as u8,
    };
    Ok(((count, ends), words))
}

const NO_WINDOW: Window = Window { low: 0, high: 0 };

/// The window at a position, where it has a resource.
fn window_at<'a>(
    words: &'a [u8],
    ends: &Ends,
    place: usize,
) -> Result<(Window, &'a [u8]), LineFault>
    requires { place < 6 }
    ensures { Gives (λ x. (x.0, words_of x.1.now)) result (window_at ends.now place (words_of words.now)) }
{
    if is_used(ends, place) {
        window_of(words)
    } else {
        Ok((NO_WINDOW, words))
    }
}

/// The consumption at a position, where it has a resource.
fn need_at<'a>(words: &'a [u8], ends: &Ends, place: usize) -> Result<(i32, &'a [u8]), LineFault>
    requires { place < 6 }
    ensures { Gives (λ x. (x.0, words_of x.1.now)) result (need_at ends.now place (words_of words.now)) }
{
    if is_used(ends, place) {
        need_of(words, place)
    } else {
        Ok((0, words))
    }
}

/// `LOW HIGH` for each resource.
fn windows_of<'a>(words: &'a [u8], ends: &Ends) -> Result<([Window; 6], &'a [u8]), LineFault>
    ensures { Gives (λ x. (x.0, words_of x.1.now)) result
        (for_each (window_at ends.now) positions (words_of words.now)) }
{
    let mut windows = [NO_WINDOW; 6];
    let mut rest = words;
    for place in 0..6 {
        let (window, behind) = window_at(rest, ends, place)?;
        windows[place] = window;
        rest = behind;
    }
    Ok((windows, rest))
}

/// A consumption for each resource.
fn needs_of<'a>(words: &'a [u8], ends: &Ends) -> Result<([i32; 6], &'a [u8]), LineFault>
    ensures { Gives (λ x. (x.0, words_of x.1.now)) result
        (for_each (need_at ends.now) positions (words_of words.now)) }
{
    let mut needs = [0; 6];
    let mut rest = words;
    for place in 0..6 {
        let (need, behind) = need_at(rest, ends, place)?;
        needs[place] = need;
        rest = behind;
    }
    Ok((needs, rest))
}

/// `SET`, then `LOW HIGH` for each resource, of the next vertex of a graph.
pub fn vertex_of<'a>(
    words: &'a [u8],
    sets: u16,
    section: &Section,
) -> Result<(Vertex, &'a [u8]), LineFault>
    ensures { Gives (λ x. (x.0, words_of x.1.now)) result (vertex_wanted sets section.now (words_of words.now)) }
{
    let (set, words) = set_of(words, sets)?;
    let place = section.vertices.len();
    let is_end = place == section.ends.source as usize || place == section.ends.sink as usize;
    fault_if(Kind::Ends, set.is_some() && is_end)?;
    let (windows, words) = windows_of(words, &section.ends)?;
    Ok((Vertex { set, windows }, words))
}

/// A mapped variable, after those before it.
fn mapped_var<'a>(words: &'a [u8], vars: u32, mapped: &[u32]) -> Result<(u32, &'a [u8]), LineFault>
    ensures gives { Gives (λ x. (x.0, words_of x.1.now)) result (mapped_wanted vars mapped.now (words_of words.now)) }
    ensures shorter { IfOk result (λ x. IsShorter words.now x.1.now) }
{
    let (var, words) = known_below(words, vars)?;
    fault_if(Kind::Order, !is_above(mapped.last().copied(), var))?;
    fault_if(Kind::TooMany, mapped.len() >= MAX_MAPPED)?;
    Ok((var, words))
}

/// The mapped variables of an arc.
#[derive(Drop)]
struct MappedVars {
    vars: u32,
}

impl ItemReader for MappedVars {
    type Item = u32;

    ghost stops = { λ _. false };

    ghost wanted = { λ r. mapped_wanted r.vars };

    ghost sound = { λ _ _. Unit {0} };

    fn stops_at(&self, _word: &[u8]) -> bool {
        false
    }

    fn take<'a>(&mut self, before: &[u32], words: &'a [u8]) -> Result<(u32, &'a [u8]), LineFault> {
        mapped_var(words, self.vars, before)
    }
}

/// `TAIL HEAD`, then a consumption for each resource, then the mapped variables.
pub fn arc_of<'a>(
    alloc: Global,
    words: &'a [u8],
    vars: u32,
    section: &Section,
) -> Result<((GraphArc, List<u32>), &'a [u8]), LineFault>
    requires { length section.now.vertices ≤ MAX_VERTICES }
    ensures { Gives (λ x. (x.0, words_of x.1.now)) result (arc_wanted vars section.now (words_of words.now)) }
{
    let count = section.vertices.len() as u32;
    let (tail, words) = known_below(words, count)?;
    fault_if(Kind::Ends, tail == section.ends.sink)?;
    let (head, words) = known_below(words, count)?;
    fault_if(Kind::Ends, head == section.ends.source)?;
    let (needs, words) = needs_of(words, &section.ends)?;
    let (mapped, words) = items(&mut MappedVars { vars }, alloc, words)?;
    Ok(((GraphArc { tail, head, needs }, mapped), words))
}
