ghost use Rattle.std.specs.Prelude.{◌≡◌, ◌≤◌, ◌==◌, pos, neg_ℤ, IfOk, length};
ghost use Rattle.std.specs.List.{list_all};
ghost use Rattle.vrp_lex.specs.Text.{number_of};
ghost use Rattle.route_texts.specs.Stops.{PointFits};
ghost use Rattle.route_texts.specs.Words.{Words, words_in, cut_at, limited, number_in, whole};
ghost use Rattle.route_texts.specs.Gives.{Gives, IsWithinEnds};
ghost use Rattle.route_texts.specs.CvrpDraft.{node_at};
ghost use Rattle.route_texts.specs.CvrpLines.{key_of, section_of, is_end, stated, counted, dimension_wanted, are_zeros, whole_part, coordinate, known_node, node_wanted, two_coordinates, bare_place, bare_load, point_wanted, demand_wanted, is_minus_one, closes};
ghost use Rattle.route_texts.specs.CvrpText.{IsNode};

use crate::cvrp_draft::{Key, Node, Section};
use crate::fault::{LineFault, RouteKind};
use crate::stops::Point;
use crate::word_reader::{fault_if, has_word, limited, number_in, word};
use crate::words::{cut_at, split_word};
use path_graph::List;
use route_tasks::MAX_LOAD;
use vrp_lex::{Amount, number};

/// The key that a word is, if it is one of the four.
pub fn key_of(word: &[u8]) -> Option<Key>
    ensures { result ≡ key_of word.now }
{
    if word == b"TYPE".as_slice() {
        Some(Key::Type)
    } else if word == b"EDGE_WEIGHT_TYPE".as_slice() {
        Some(Key::Distances)
    } else if word == b"DIMENSION".as_slice() {
        Some(Key::Dimension)
    } else if word == b"CAPACITY".as_slice() {
        Some(Key::Capacity)
    } else {
        None
    }
}

/// The section that a word names, if it does.
pub fn section_of(word: &[u8]) -> Option<Section>
    ensures { result ≡ section_of word.now }
{
    if word == b"NODE_COORD_SECTION".as_slice() {
        Some(Section::Points)
    } else if word == b"DEMAND_SECTION".as_slice() {
        Some(Section::Demands)
    } else if word == b"DEPOT_SECTION".as_slice() {
        Some(Section::Depot)
    } else {
        None
    }
}

/// Whether a word ends the text.
pub fn is_end(word: &[u8]) -> bool
    ensures { result ≡ is_end word.now }
{
    word == b"EOF".as_slice()
}

/// A value that must be this one word.
pub fn stated(value: &[u8], name: &[u8]) -> Result<(), LineFault>
    ensures { Gives (λ x. x) result (whole (stated name.now) (words_in value.now)) }
{
    let (word, words) = word(value)?;
    fault_if(RouteKind::Type, word != name)?;
    fault_if(RouteKind::Word, has_word(words))
}

/// How many nodes a word says that there are.
fn counted(word: &[u8]) -> Result<u32, LineFault>
    ensures gives { (words : Words) → Gives (λ n. (n, words)) result (counted (number_of word.now) words) }
    ensures within { IfOk result (λ n. (2 ≤ n) × (n ≤ 245)) }
{
    match number(word) {
        Amount::Not => Err(LineFault::Fault(RouteKind::Number)),
        Amount::Big if word[0] == b'-' => Err(LineFault::Fault(RouteKind::Range)),
        Amount::Big => Err(LineFault::Fault(RouteKind::TooMany)),
        Amount::Value(value) => {
            if value < 2 {
                return Err(LineFault::Fault(RouteKind::Range));
            }
            if value > 245 {
                return Err(LineFault::Fault(RouteKind::TooMany));
            }
            Ok(value as u32)
        }
    }
}

/// A value that must be a number of nodes.
pub fn dimension(value: &[u8]) -> Result<u32, LineFault>
    ensures gives { Gives (λ x. x) result (whole dimension_wanted (words_in value.now)) }
    ensures within { IfOk result (λ n. (2 ≤ n) × (n ≤ 245)) }
{
    let (word, words) = word(value)?;
    let count = counted(word)?;
    fault_if(RouteKind::Word, has_word(words))?;
    Ok(count)
}

/// A value that must be a capacity.
pub fn capacity(value: &[u8]) -> Result<i32, LineFault>
    ensures gives { Gives (λ x. x) result (whole (number_in (pos 1) MAX_LOAD) (words_in value.now)) }
    ensures within { IfOk result (IsWithinEnds (pos 1) MAX_LOAD) }
{
    let (capacity, words) = number_in(value, 1, MAX_LOAD)?;
    fault_if(RouteKind::Word, has_word(words))?;
    Ok(capacity)
}

/// Whether bytes are one or more zeros.
fn are_zeros(bytes: &[u8]) -> bool
    ensures { result ≡ are_zeros bytes.now }
{
    !bytes.is_empty() && all_zeros(bytes)
}

fn all_zeros(bytes: &[u8]) -> bool
    ensures { result ≡ list_all (λ b. b == 48) bytes.now }
{
    bytes.iter().all(|b| *b == b'0')
}

/// A word that must be a coordinate.
fn coordinate_of(word: &[u8]) -> Result<i32, LineFault>
    ensures gives { (words : Words) → Gives (λ z. (z, words)) result
        (limited (neg_ℤ (pos 100000)) (pos 100000) (whole_part word.now (cut_at 46 word.now)) words) }
    ensures within { IfOk result (IsWithinEnds (neg_ℤ (pos 100000)) (pos 100000)) }
{
    let Some((whole, fraction)) = cut_at(word, b'.') else {
        return limited(word, -100_000, 100_000);
    };
    if !are_zeros(fraction) {
        return Err(LineFault::Fault(RouteKind::Number));
    }
    limited(whole, -100_000, 100_000)
}

/// The next word as a coordinate.
fn coordinate(words: &[u8]) -> Result<(i32, &[u8]), LineFault>
    ensures gives { Gives (λ x. (x.0, words_in x.1.now)) result (coordinate (words_in words.now)) }
    ensures within { IfOk result (λ x. IsWithinEnds (neg_ℤ (pos 100000)) (pos 100000) x.0) }
{
    let (word, words) = word(words)?;
    let z = coordinate_of(word)?;
    Ok((z, words))
}

/// A word that must be the number of a node.
fn known_node(word: &[u8], count: u32) -> Result<u32, LineFault>
    ensures gives { (words : Words) → Gives (λ n. (n, words)) result (known_node count (number_of word.now) words) }
    ensures within { IfOk result (λ n. (1 ≤ n) × (n ≤ count)) }
{
    match number(word) {
        Amount::Not => Err(LineFault::Fault(RouteKind::Word)),
        Amount::Big => Err(LineFault::Fault(RouteKind::Range)),
        Amount::Value(value) => {
            if value < 1 || value > i128::from(count) {
                return Err(LineFault::Fault(RouteKind::Range));
            }
            Ok(value as u32)
        }
    }
}

/// The next word as the number of a node.
pub fn node<'a>(nodes: &List<Node>, words: &'a [u8]) -> Result<(u32, &'a [u8]), LineFault>
    requires { length nodes.now ≤ 245 }
    ensures gives { Gives (λ x. (x.0, words_in x.1.now)) result (node_wanted nodes.now (words_in words.now)) }
    ensures within { IfOk result (λ x. IsNode nodes.now x.0) }
{
    let (word, words) = word(words)?;
    let number = known_node(word, nodes.len() as u32)?;
    Ok((number, words))
}

/// The node of a number.
pub fn node_at(nodes: &List<Node>, number: u32) -> Node
    requires { IsNode nodes.now number }
    ensures { result ≡ node_at nodes.now number }
{
    *nodes.at(number as usize - 1)
}

/// Two coordinates.
fn point(words: &[u8]) -> Result<(Point, &[u8]), LineFault>
    ensures gives { Gives (λ x. (x.0, words_in x.1.now)) result (two_coordinates (words_in words.now)) }
    ensures fits { IfOk result (λ x. PointFits x.0) }
{
    let (x, words) = coordinate(words)?;
    let (y, words) = coordinate(words)?;
    Ok((Point { x, y }, words))
}

/// A node that lies nowhere yet.
fn new_point<'a>(nodes: &List<Node>, words: &'a [u8]) -> Result<(u32, &'a [u8]), LineFault>
    requires { length nodes.now ≤ 245 }
    ensures gives { Gives (λ x. (x.0, words_in x.1.now)) result (bare_place nodes.now (words_in words.now)) }
    ensures within { IfOk result (λ x. IsNode nodes.now x.0) }
{
    let (number, words) = node(nodes, words)?;
    fault_if(RouteKind::Repeated, node_at(nodes, number).point.is_some())?;
    Ok((number, words))
}

/// A node that lies nowhere yet, and where it lies.
pub fn placed(nodes: &List<Node>, line: &[u8]) -> Result<(u32, Point), LineFault>
    requires { length nodes.now ≤ 245 }
    ensures gives { Gives (λ x. x) result (whole (point_wanted nodes.now) (words_in line.now)) }
    ensures within { IfOk result (λ x. IsNode nodes.now x.0) }
    ensures fits { IfOk result (λ x. PointFits x.1) }
{
    let (number, words) = new_point(nodes, line)?;
    let (point, words) = point(words)?;
    fault_if(RouteKind::Word, has_word(words))?;
    Ok((number, point))
}

/// A node without demand yet.
fn new_demand<'a>(nodes: &List<Node>, words: &'a [u8]) -> Result<(u32, &'a [u8]), LineFault>
    requires { length nodes.now ≤ 245 }
    ensures gives { Gives (λ x. (x.0, words_in x.1.now)) result (bare_load nodes.now (words_in words.now)) }
    ensures within { IfOk result (λ x. IsNode nodes.now x.0) }
{
    let (number, words) = node(nodes, words)?;
    fault_if(RouteKind::Repeated, node_at(nodes, number).demand.is_some())?;
    Ok((number, words))
}

/// A node without demand yet, and its demand.
pub fn demanded(nodes: &List<Node>, line: &[u8]) -> Result<(u32, i32), LineFault>
    requires { length nodes.now ≤ 245 }
    ensures gives { Gives (λ x. x) result (whole (demand_wanted nodes.now) (words_in line.now)) }
    ensures within { IfOk result (λ x. IsNode nodes.now x.0) }
    ensures fits { IfOk result (λ x. IsWithinEnds (pos 0) MAX_LOAD x.1) }
{
    let (number, words) = new_demand(nodes, line)?;
    let (demand, words) = number_in(words, 0, MAX_LOAD)?;
    fault_if(RouteKind::Word, has_word(words))?;
    Ok((number, demand))
}

/// Whether a word is -1.
fn is_minus_one(word: &[u8]) -> bool
    ensures { result ≡ is_minus_one (number_of word.now) }
{
    match number(word) {
        Amount::Not => false,
        Amount::Big => false,
        Amount::Value(value) => value == -1,
    }
}

/// Whether the first word is -1.
pub fn closes(words: &[u8]) -> bool
    ensures { result ≡ closes (words_in words.now) }
{
    match split_word(words) {
        None => false,
        Some((word, _)) => is_minus_one(word),
    }
}
