ghost use Rattle.std.specs.Prelude.{◌≡◌, ◌<◌, ◌≤◌, ◌^◌, ℕ, [], ◌∷◌, length, option_map, IfOk};
ghost use Rattle.vrp_lex.specs.Text.{words_of};
ghost use Rattle.line_text.specs.Gives.{Gives, IsShorter};
ghost use Rattle.line_text.specs.Words.{Words, for_each, give, word};
ghost use Rattle.std.specs.List.{range_with_len};
ghost use Rattle.model_text.specs.LineWords.{last_of};
ghost use Rattle.certificate.specs.Sizes.{graph_at, SizesFit};
ghost use Rattle.certificate.specs.ProofWords.{one_of, falls, rises, rank, kind_count, mult_kinds, split_kinds, mult_key, mult_wanted, cut_set_wanted, cut_wanted, near_key, near_wanted, form_of_word, least_wanted, table_wanted, drop_wanted, step_wanted, split_at, split_wanted, count_split_wanted, quantity_of};

use crate::cert::Step;
use crate::draft::{CutLine, DropLine, Head, MultKind, MultLine};
use crate::label_words::MAX_LABEL_COST;
use crate::set_words::{is_above, sets_of};
use crate::sizes::{GraphSizes, Sizes};
use label_rules::{Form, ProofTable};
use line_text::{
    Kind, LineFault, fault_if, known_below, limited_wide, natural_in, number_in, word,
};
use model_text::{arcs_of, name_of};
use path_graph::{Ends, List, SetBits};
use rank1_cuts::{Cut, CutSet};
use route_model::{MAX_MULT, Quantity, Split};
use std::alloc::Global;

/// Whether a first number falls below that of the last pair.
fn falls(last: Option<(u32, u32)>, first: u32) -> bool
    ensures { result ≡ falls last first }
{
    match last {
        None => false,
        Some(last) => first < last.0,
    }
}

/// Whether a second number rises above that of the last pair, where the first numbers are the same.
fn rises(last: Option<(u32, u32)>, first: u32, second: u32) -> bool
    ensures { result ≡ rises last first second }
{
    match last {
        None => true,
        Some(last) => first != last.0 || last.1 < second,
    }
}

/// The place of a kind among the kinds of multipliers.
pub fn rank(kind: MultKind) -> u32
    ensures { result ≡ rank kind }
{
    match kind {
        MultKind::Var => 0,
        MultKind::Row => 1,
        MultKind::Set => 2,
        MultKind::Paths => 3,
    }
}

/// How many there are of a kind.
pub fn kind_count(sizes: &Sizes, kind: MultKind) -> u32
    requires { SizesFit sizes.now }
    ensures { result ≡ kind_count sizes.now kind }
{
    match kind {
        MultKind::Var => sizes.vars,
        MultKind::Row => sizes.rows,
        MultKind::Set => u32::from(sizes.sets),
        MultKind::Paths => sizes.graphs.len() as u32,
    }
}

/// The word of a kind of multipliers.
fn mult_kind(word: &[u8]) -> Result<MultKind, LineFault>
    ensures { (words : Words) → Gives (λ kind. (kind, words)) result (one_of mult_kinds word.now words) }
{
    if word == b"var".as_slice() {
        Ok(MultKind::Var)
    } else if word == b"row".as_slice() {
        Ok(MultKind::Row)
    } else if word == b"set".as_slice() {
        Ok(MultKind::Set)
    } else if word == b"paths".as_slice() {
        Ok(MultKind::Paths)
    } else {
        Err(LineFault::Fault(Kind::Word))
    }
}

/// The word of what is split.
fn split_kind(word: &[u8]) -> Result<MultKind, LineFault>
    ensures { (words : Words) → Gives (λ kind. (kind, words)) result (one_of split_kinds word.now words) }
{
    if word == b"var".as_slice() {
        Ok(MultKind::Var)
    } else if word == b"paths".as_slice() {
        Ok(MultKind::Paths)
    } else {
        Err(LineFault::Fault(Kind::Word))
    }
}

/// The key of the last multiplier.
fn last_mult(before: &[MultLine]) -> Option<(u32, u32)>
    ensures { result ≡ option_map mult_key (last_of before.now) }
{
    match before.last() {
        None => None,
        Some(line) => Some((rank(line.kind), line.number)),
    }
}

/// `KIND NUMBER M`, after the multipliers before.
pub fn mult_of<'a>(
    words: &'a [u8],
    sizes: &Sizes,
    before: &[MultLine],
) -> Result<(MultLine, &'a [u8]), LineFault>
    requires { SizesFit sizes.now }
    ensures { Gives (λ x. (x.0, words_of x.1.now)) result
        (mult_wanted sizes.now before.now (words_of words.now)) }
{
    let last = last_mult(before);
    let (name, words) = word(words)?;
    let kind = mult_kind(name)?;
    fault_if(Kind::Order, falls(last, rank(kind)))?;
    let (number, words) = known_below(words, kind_count(sizes, kind))?;
    fault_if(Kind::Order, !rises(last, rank(kind), number))?;
    let (value, words) = number_in(words, -(MAX_MULT as i64), MAX_MULT as i64)?;
    Ok((
        MultLine {
            kind,
            number,
            value,
        },
        words,
    ))
}

/// `SET NUM` of a cut.
fn cut_set(words: &[u8], sets: u16) -> Result<(CutSet, &[u8]), LineFault>
    ensures { Gives (λ x. (x.0, words_of x.1.now)) result (cut_set_wanted sets (words_of words.now)) }
{
    let (set, words) = known_below(words, u32::from(sets))?;
    let (num, words) = natural_in(words, 0, 255)?;
    Ok((
        CutSet {
            set: set as u16,
            num: num as u8,
        },
        words,
    ))
}

/// So many pairs `SET NUM` of a cut.
fn cut_sets(
    alloc: Global,
    words: &[u8],
    sets: u16,
    count: u32,
) -> Result<(List<CutSet>, &[u8]), LineFault>
    ensures { Gives (λ x. (x.0, words_of x.1.now)) result
        (for_each (λ place. cut_set_wanted sets) (range_with_len 0 count) (words_of words.now)) }
{
    let mut pairs = List::new(alloc);
    let mut rest = words;
    for _ in 0..count {
        let (pair, behind) = cut_set(rest, sets)?;
        pairs.push(pair)?;
        rest = behind;
    }
    Ok((pairs, rest))
}

/// `DEN Y N`, the pairs and the memory of a cut.
pub fn cut_of(alloc: Global, words: &[u8], sets: u16) -> Result<(CutLine, &[u8]), LineFault>
    requires { sets ≤ 512 }
    ensures { Gives (λ x. (x.0, words_of x.1.now)) result (cut_wanted sets (words_of words.now)) }
{
    let (den, words) = natural_in(words, 0, 255)?;
    let (weight, words) = number_in(words, 0, MAX_MULT as i64)?;
    let (count, words) = natural_in(words, 0, u32::MAX)?;
    let (pairs, words) = cut_sets(alloc, words, sets, count)?;
    let (memory, words) = sets_of(alloc, words, sets)?;
    let cut = Cut {
        den: den as u8,
        sets: pairs,
        memory,
    };
    let weight = weight as u64;
    Ok((CutLine { weight, cut }, words))
}

const NO_GRAPH: GraphSizes = GraphSizes {
    vertices: 0,
    ends: Ends {
        source: 0,
        sink: 0,
        low: 0,
        high: 0,
        mains: 0,
        seconds: 0,
    },
};

/// The sizes of a graph, if there is one of this number.
pub fn graph_at(sizes: &Sizes, graph: u32) -> GraphSizes
    ensures { result ≡ graph_at sizes.now graph }
{
    match sizes.graphs.as_slice().get(graph as usize) {
        None => NO_GRAPH,
        Some(sizes) => *sizes,
    }
}

/// The key of the last near list.
fn last_near(before: &[(u32, u32, SetBits)]) -> Option<(u32, u32)>
    ensures { result ≡ option_map near_key (last_of before.now) }
{
    match before.last() {
        None => None,
        Some(line) => Some((line.0, line.1)),
    }
}

/// `G V SET ..`, after the near lists before.
pub fn near_of<'a>(
    alloc: Global,
    words: &'a [u8],
    sizes: &Sizes,
    before: &[(u32, u32, SetBits)],
) -> Result<((u32, u32, SetBits), &'a [u8]), LineFault>
    requires { SizesFit sizes.now }
    ensures { Gives (λ x. (x.0, words_of x.1.now)) result
        (near_wanted sizes.now before.now (words_of words.now)) }
{
    let last = last_near(before);
    let (graph, words) = known_below(words, sizes.graphs.len() as u32)?;
    fault_if(Kind::Order, falls(last, graph))?;
    let (vertex, words) = known_below(words, graph_at(sizes, graph).vertices)?;
    fault_if(Kind::Order, !rises(last, graph, vertex))?;
    let (sets, words) = sets_of(alloc, words, sizes.sets)?;
    Ok(((graph, vertex, sets), words))
}

/// `full`, `half T` or `both`: the first word, and the bytes behind it.
fn form_of<'a>(name: &[u8], words: &'a [u8]) -> Result<(Form, &'a [u8]), LineFault>
    ensures { Gives (λ x. (x.0, words_of x.1.now)) result (form_of_word name.now (words_of words.now)) }
{
    if name == b"full".as_slice() {
        return Ok((Form::Full, words));
    }
    if name == b"both".as_slice() {
        return Ok((Form::Both, words));
    }
    fault_if(Kind::Word, name != b"half".as_slice())?;
    let (top, words) = number_in(words, i64::from(i32::MIN), i64::from(i32::MAX))?;
    Ok((Form::Half(top as i32), words))
}

/// The least of a table: a number, or `none`.
fn least_of(words: &[u8]) -> Result<(Option<i128>, &[u8]), LineFault>
    ensures { Gives (λ x. (x.0, words_of x.1.now)) result (least_wanted (words_of words.now)) }
{
    let (word, words) = word(words)?;
    if word == b"none".as_slice() {
        return Ok((None, words));
    }
    let least = limited_wide(word, -MAX_LABEL_COST, MAX_LABEL_COST)?;
    Ok((Some(least), words))
}

/// `G FORM LEAST`, after the tables before: a table without labels.
pub fn table_of<'a>(
    alloc: Global,
    words: &'a [u8],
    sizes: &Sizes,
    before: &[ProofTable],
) -> Result<(ProofTable, &'a [u8]), LineFault>
    requires { SizesFit sizes.now }
    ensures { Gives (λ x. (x.0, words_of x.1.now)) result
        (table_wanted sizes.now before.now (words_of words.now)) }
{
    let (graph, words) = known_below(words, sizes.graphs.len() as u32)?;
    let last = before.last().map(|table| table.graph);
    fault_if(Kind::Order, !is_above(last, graph))?;
    let (name, words) = word(words)?;
    let (form, words) = form_of(name, words)?;
    let (least, words) = least_of(words)?;
    Ok((
        ProofTable {
            graph,
            form,
            least,
            fore: List::new(alloc),
            back: List::new(alloc),
        },
        words,
    ))
}

/// `G ARC ..` of dropped arcs.
pub fn drop_of<'a>(
    alloc: Global,
    words: &'a [u8],
    sizes: &Sizes,
) -> Result<(DropLine, &'a [u8]), LineFault>
    requires { SizesFit sizes.now }
    ensures { Gives (λ x. (x.0, words_of x.1.now)) result (drop_wanted sizes.now (words_of words.now)) }
{
    let (graph, words) = known_below(words, sizes.graphs.len() as u32)?;
    let (arcs, words) = arcs_of(alloc, words)?;
    Ok((DropLine { graph, arcs }, words))
}

/// `PARENT ARC` of a step.
pub fn step_of(words: &[u8]) -> Result<(Step, &[u8]), LineFault>
    ensures { Gives (λ x. (x.0, words_of x.1.now)) result (step_wanted (words_of words.now)) }
{
    let (parent, words) = name_of(words)?;
    let (arc, words) = name_of(words)?;
    Ok((Step { parent, arc }, words))
}

/// What a kind and a number name.
fn quantity_of(kind: MultKind, number: u32) -> Quantity
    requires { number < 2 ^ 16 }
    ensures { result ≡ quantity_of kind number }
{
    match kind {
        MultKind::Var => Quantity::Var(number),
        MultKind::Row => Quantity::Row(number),
        MultKind::Set => Quantity::Set(number as u16),
        MultKind::Paths => Quantity::Paths(number),
    }
}

/// `var J D` or `paths G D` of a split.
pub fn split_of<'a>(words: &'a [u8], sizes: &Sizes) -> Result<(Head, &'a [u8]), LineFault>
    requires { SizesFit sizes.now }
    ensures { Gives (λ x. (x.0, words_of x.1.now)) result (split_wanted sizes.now (words_of words.now)) }
{
    let (name, words) = word(words)?;
    let kind = split_kind(name)?;
    let (number, words) = known_below(words, kind_count(sizes, kind))?;
    let (at, words) = number_in(words, i64::MIN, i64::MAX)?;
    let quantity = quantity_of(kind, number);
    Ok((Head::Split(Split { quantity, at }), words))
}

/// `WALK D` of the split of a count.
pub fn count_split_of(words: &[u8]) -> Result<(Head, &[u8]), LineFault>
    ensures { Gives (λ x. (x.0, words_of x.1.now)) result (count_split_wanted (words_of words.now)) }
{
    let (walk, words) = name_of(words)?;
    let (at, words) = number_in(words, i64::MIN, i64::MAX)?;
    Ok((Head::CountSplit(walk, at), words))
}
