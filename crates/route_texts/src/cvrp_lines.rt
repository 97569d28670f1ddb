ghost use Rattle.std.specs.Prelude.{◌≡◌, ◌≤◌, ◌&&◌, pos, not, true, false, Some, Ok, IfOk, OnOk, length};
ghost use Rattle.std.specs.Ordering.{int_eq};
ghost use Rattle.route_texts.specs.Words.{words_in, cut_at, word, whole, after};
ghost use Rattle.route_texts.specs.Gives.{Gives};
ghost use Rattle.route_texts.specs.CvrpDraft.{bare_nodes, bare_node, are_some_nodes, has_key, has_keys, has_begun, begun_with, with_point, with_demand, are_placed, are_demanded};
ghost use Rattle.route_texts.specs.CvrpLines.{value_read, key_read, before_colon, key_line, point_line, is_depot, demand_line, depot_wanted, has_load, with_depot, depot_line, inner_line, section_line, section_of, by_section, cvrp_line};
ghost use Rattle.route_texts.specs.CvrpText.{IsNode, CvrpFits};

use crate::cvrp_draft::{Begun, CvrpDraft, Key, Node, Section};
use crate::cvrp_words::{
    capacity, closes, demanded, dimension, is_end, key_of, node, node_at, placed, section_of,
    stated,
};
use crate::fault::{LineFault, RouteKind};
use crate::stops::{Point, is_zero};
use crate::word_reader::{fault_if, has_word, word};
use crate::words::{cut_at, split_word};
use path_graph::{List, NoMemory};
use std::alloc::Global;

/// Whether there are nodes.
pub fn are_some_nodes(nodes: &List<Node>) -> bool
    ensures { result ≡ are_some_nodes nodes.now }
{
    !nodes.is_empty()
}

/// Whether a key is read.
fn has_key(draft: &CvrpDraft, key: Key) -> bool
    ensures { result ≡ has_key draft.now key }
{
    match key {
        Key::Type => draft.has_type,
        Key::Distances => draft.has_distances,
        Key::Dimension => are_some_nodes(&draft.nodes),
        Key::Capacity => draft.capacity.is_some(),
    }
}

/// Whether the four keys are read.
pub fn has_keys(draft: &CvrpDraft) -> bool
    ensures { result ≡ has_keys draft.now }
{
    if !draft.has_type || !draft.has_distances {
        return false;
    }
    are_some_nodes(&draft.nodes) && draft.capacity.is_some()
}

fn bare_node(number: u32) -> Node
    ensures { result ≡ bare_node number }
{
    Node {
        number,
        point: None,
        demand: None,
    }
}

/// The nodes up to a number.
fn bare_nodes(alloc: Global, count: u32) -> Result<List<Node>, NoMemory>
    requires { count ≤ 245 }
    ensures { IfOk result (λ nodes. nodes ≡ bare_nodes count) }
{
    let mut nodes = List::new(alloc);
    for k in 0..count {
        nodes.push(bare_node(k + 1))?;
    }
    Ok(nodes)
}

/// The value of a key.
fn take_value(draft: &mut CvrpDraft, alloc: Global, key: Key, value: &[u8]) -> Result<(), LineFault>
    requires fits { CvrpFits draft.old }
    requires fresh { has_key draft.old key ≡ false }
    ensures gives { Gives (λ _. draft.new) result (value_read draft.old key (words_in value.now)) }
    ensures fits { OnOk result (CvrpFits draft.new) }
{
    match key {
        Key::Type => {
            stated(value, b"CVRP")?;
            draft.has_type = true;
        }
        Key::Distances => {
            stated(value, b"EUC_2D")?;
            draft.has_distances = true;
        }
        Key::Dimension => draft.nodes = bare_nodes(alloc, dimension(value)?)?,
        Key::Capacity => draft.capacity = Some(capacity(value)?),
    }
    Ok(())
}

/// A key, and what stands between it and its colon, and its value.
fn take_key(
    draft: &mut CvrpDraft,
    alloc: Global,
    key: Key,
    further: &[u8],
    value: &[u8],
) -> Result<(), LineFault>
    requires { CvrpFits draft.old }
    ensures gives { Gives (λ _. draft.new) result
        (key_read draft.old (Some key) (words_in further.now) (words_in value.now)) }
    ensures fits { OnOk result (CvrpFits draft.new) }
{
    fault_if(RouteKind::Word, has_word(further))?;
    fault_if(RouteKind::Repeated, has_key(draft, key))?;
    take_value(draft, alloc, key, value)
}

/// What stands before and behind a colon.
fn take_parts(
    draft: &mut CvrpDraft,
    alloc: Global,
    before: &[u8],
    value: &[u8],
) -> Result<(), LineFault>
    requires { CvrpFits draft.old }
    ensures gives { Gives (λ _. draft.new) result
        (before_colon draft.old (words_in before.now) (words_in value.now)) }
    ensures fits { OnOk result (CvrpFits draft.new) }
{
    let Some((first, further)) = split_word(before) else {
        return Ok(());
    };
    let Some(key) = key_of(first) else {
        return Ok(());
    };
    take_key(draft, alloc, key, further, value)
}

/// A line of a key.
fn take_key_line(draft: &mut CvrpDraft, alloc: Global, line: &[u8]) -> Result<(), LineFault>
    requires { CvrpFits draft.old }
    ensures gives { Gives (λ _. draft.new) result (key_line draft.old (cut_at 58 line.now)) }
    ensures fits { OnOk result (CvrpFits draft.new) }
{
    let Some((before, value)) = cut_at(line, b':') else {
        return Err(LineFault::Fault(RouteKind::Word));
    };
    take_parts(draft, alloc, before, value)
}

/// Whether each node has its coordinates.
pub fn are_placed(nodes: &[Node]) -> bool
    ensures { result ≡ are_placed nodes.now }
{
    nodes.iter().all(|node| node.point.is_some())
}

/// Whether each node has its demand.
pub fn are_demanded(nodes: &[Node]) -> bool
    ensures { result ≡ are_demanded nodes.now }
{
    nodes.iter().all(|node| node.demand.is_some())
}

/// Tells where a node lies.
fn place(nodes: &mut List<Node>, number: u32, point: Point)
    requires { IsNode nodes.old number }
    ensures { nodes.new ≡ with_point nodes.old number point }
{
    let node = node_at(nodes, number);
    let placed = Node {
        number: node.number,
        point: Some(point),
        demand: node.demand,
    };
    nodes.set(number as usize - 1, placed);
}

/// Tells the demand of a node.
fn load(nodes: &mut List<Node>, number: u32, demand: i32)
    requires { IsNode nodes.old number }
    ensures { nodes.new ≡ with_demand nodes.old number demand }
{
    let node = node_at(nodes, number);
    let loaded = Node {
        number: node.number,
        point: node.point,
        demand: Some(demand),
    };
    nodes.set(number as usize - 1, loaded);
}

/// A line of the section of coordinates.
fn take_point(draft: &mut CvrpDraft, line: &[u8]) -> Result<(), LineFault>
    requires { CvrpFits draft.old }
    ensures gives { Gives (λ _. draft.new) result (point_line draft.old (words_in line.now)) }
    ensures fits { OnOk result (CvrpFits draft.new) }
{
    fault_if(RouteKind::Word, are_placed(draft.nodes.as_slice()))?;
    let (number, point) = placed(&draft.nodes, line)?;
    place(&mut draft.nodes, number, point);
    Ok(())
}

/// Whether a number is that of the depot.
fn is_depot(depot: Option<u32>, number: u32) -> bool
    ensures { result ≡ is_depot depot number }
{
    match depot {
        None => false,
        Some(depot) => depot == number,
    }
}

/// Whether a demand is not that of the depot.
fn is_loaded_depot(depot: Option<u32>, number: u32, demand: i32) -> bool
    ensures { result ≡ (is_depot depot number && not (int_eq demand (pos 0))) }
{
    is_depot(depot, number) && !is_zero(demand)
}

/// A line of the section of demands.
fn take_demand(draft: &mut CvrpDraft, line: &[u8]) -> Result<(), LineFault>
    requires { CvrpFits draft.old }
    ensures gives { Gives (λ _. draft.new) result (demand_line draft.old (words_in line.now)) }
    ensures fits { OnOk result (CvrpFits draft.new) }
{
    fault_if(RouteKind::Word, are_demanded(draft.nodes.as_slice()))?;
    let (number, demand) = demanded(&draft.nodes, line)?;
    fault_if(
        RouteKind::Depot,
        is_loaded_depot(draft.depot, number, demand),
    )?;
    load(&mut draft.nodes, number, demand);
    Ok(())
}

fn has_load(demand: Option<i32>) -> bool
    ensures { result ≡ has_load demand }
{
    match demand {
        None => false,
        Some(demand) => !is_zero(demand),
    }
}

/// The node of a line of the depot.
fn new_depot(draft: &CvrpDraft, line: &[u8]) -> Result<u32, LineFault>
    requires { length draft.now.nodes ≤ 245 }
    ensures gives { Gives (λ x. x) result (whole (depot_wanted draft.now) (words_in line.now)) }
    ensures within { IfOk result (IsNode draft.now.nodes) }
{
    let (number, words) = node(&draft.nodes, line)?;
    fault_if(RouteKind::Repeated, is_depot(draft.depot, number))?;
    fault_if(RouteKind::Word, has_word(words))?;
    Ok(number)
}

/// Tells the depot.
fn set_depot(draft: &mut CvrpDraft, number: u32) -> Result<(), LineFault>
    requires fits { CvrpFits draft.old }
    requires node { IsNode draft.old.nodes number }
    ensures gives { Gives (λ _. draft.new) result (with_depot draft.old number) }
    ensures fits { OnOk result (CvrpFits draft.new) }
{
    fault_if(RouteKind::Depot, draft.depot.is_some())?;
    fault_if(
        RouteKind::Depot,
        has_load(node_at(&draft.nodes, number).demand),
    )?;
    draft.depot = Some(number);
    Ok(())
}

/// The last line of the depot's section.
fn close(draft: &mut CvrpDraft, line: &[u8]) -> Result<(), LineFault>
    requires { CvrpFits draft.old }
    ensures gives { Gives (λ _. draft.new) result
        (after (whole word (words_in line.now)) (λ _. Ok (record draft.old { closed = true }))) }
    ensures fits { OnOk result (CvrpFits draft.new) }
{
    let (_, words) = word(line)?;
    fault_if(RouteKind::Word, has_word(words))?;
    draft.closed = true;
    Ok(())
}

/// A line of the depot's section.
fn take_depot(draft: &mut CvrpDraft, line: &[u8]) -> Result<(), LineFault>
    requires { CvrpFits draft.old }
    ensures gives { Gives (λ _. draft.new) result (depot_line draft.old (words_in line.now)) }
    ensures fits { OnOk result (CvrpFits draft.new) }
{
    fault_if(RouteKind::Word, draft.closed)?;
    if closes(line) {
        return close(draft, line);
    }
    let number = new_depot(draft, line)?;
    set_depot(draft, number)
}

/// A line of a section, or before all sections.
fn take_inner(draft: &mut CvrpDraft, alloc: Global, line: &[u8]) -> Result<(), LineFault>
    requires { CvrpFits draft.old }
    ensures gives { Gives (λ _. draft.new) result (inner_line draft.old draft.old.section line.now) }
    ensures fits { OnOk result (CvrpFits draft.new) }
{
    match draft.section {
        None => take_key_line(draft, alloc, line),
        Some(Section::Points) => take_point(draft, line),
        Some(Section::Demands) => take_demand(draft, line),
        Some(Section::Depot) => take_depot(draft, line),
    }
}

fn has_begun(begun: &Begun, section: Section) -> bool
    ensures { result ≡ has_begun begun.now section }
{
    match section {
        Section::Points => begun.points,
        Section::Demands => begun.demands,
        Section::Depot => begun.depot,
    }
}

fn begin(begun: &mut Begun, section: Section)
    ensures { begun.new ≡ begun_with begun.old section }
{
    match section {
        Section::Points => begun.points = true,
        Section::Demands => begun.demands = true,
        Section::Depot => begun.depot = true,
    }
}

/// The name of a section, and what stands behind it.
fn take_section(draft: &mut CvrpDraft, section: Section, further: &[u8]) -> Result<(), LineFault>
    requires { CvrpFits draft.old }
    ensures gives { Gives (λ _. draft.new) result
        (section_line draft.old section (words_in further.now)) }
    ensures fits { OnOk result (CvrpFits draft.new) }
{
    fault_if(RouteKind::Missing, !has_keys(draft))?;
    fault_if(RouteKind::Repeated, has_begun(&draft.begun, section))?;
    fault_if(RouteKind::Word, has_word(further))?;
    draft.section = Some(section);
    begin(&mut draft.begun, section);
    Ok(())
}

/// A line with this first word, which does not end the text.
fn take_named(
    draft: &mut CvrpDraft,
    alloc: Global,
    first: &[u8],
    further: &[u8],
    line: &[u8],
) -> Result<(), LineFault>
    requires { CvrpFits draft.old }
    ensures gives { Gives (λ _. draft.new) result
        (by_section draft.old (section_of first.now) (words_in further.now) line.now) }
    ensures fits { OnOk result (CvrpFits draft.new) }
{
    match section_of(first) {
        None => take_inner(draft, alloc, line),
        Some(section) => take_section(draft, section, further),
    }
}

/// A line.
pub fn take_line(draft: &mut CvrpDraft, alloc: Global, line: &[u8]) -> Result<(), LineFault>
    requires { CvrpFits draft.old }
    ensures gives { Gives (λ _. draft.new) result (cvrp_line draft.old line.now) }
    ensures fits { OnOk result (CvrpFits draft.new) }
{
    let Some((first, further)) = split_word(line) else {
        return Ok(());
    };
    if is_end(first) {
        return fault_if(RouteKind::Word, has_word(further));
    }
    take_named(draft, alloc, first, further, line)
}
