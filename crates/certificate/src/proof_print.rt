ghost use Rattle.std.specs.Prelude.{◌≡◌, ◌≤◌, ◌++◌, ◌∷◌, [], map, length, OnOk};
ghost use Rattle.std.specs.List.{flat_map, zip};
ghost use Rattle.line_text.specs.Spelling.{line_of_words, text_of_lines};
ghost use Rattle.certificate.specs.Sizes.{SizesFit};
ghost use Rattle.certificate.specs.Draft.{shape_of};
ghost use Rattle.certificate.specs.ProofWords.{kind_word, mult_words, cut_set_words, near_words, form_words, least_word, table_words};
ghost use Rattle.certificate.specs.CertText.{table_lines};
ghost use Rattle.certificate.specs.CertPrint.{further, kind_lines, mult_lines, cut_line, HasWeights, proof_part};

use crate::cert::Proof;
use crate::draft::MultKind;
use crate::label_print::{print_labels, print_sets};
use crate::proof_words::graph_at;
use crate::sizes::{Shape, Sizes};
use label_rules::{Form, ProofTable};
use line_text::LineWriter;
use path_graph::{NoMemory, SetBits};
use rank1_cuts::{Cut, CutSet};
use route_model::Mult;

/// The word of a kind of multipliers.
fn kind_word(kind: MultKind) -> &'static [u8]
    ensures { result.now ≡ kind_word kind }
{
    match kind {
        MultKind::Var => b"var",
        MultKind::Row => b"row",
        MultKind::Set => b"set",
        MultKind::Paths => b"paths",
    }
}

/// Writes the line of a multiplier, where it is not 0.
fn print_mult(
    text: &mut LineWriter,
    kind: MultKind,
    number: usize,
    value: i64,
) -> Result<(), NoMemory>
    ensures { OnOk result (text.new ≡ text.old
        ++ flat_map (λ m. line_of_words (mult_words m)) (kind_lines kind number (value ∷ []))) }
{
    if value == 0 {
        return Ok(());
    }
    text.first(b"mult")?;
    text.word(kind_word(kind))?;
    text.number(number)?;
    text.number(value)?;
    text.end_line()
}

/// Writes the lines of a kind's multipliers that are not 0.
fn print_kind(text: &mut LineWriter, kind: MultKind, values: &[i64]) -> Result<(), NoMemory>
    ensures { OnOk result (text.new
        ≡ text.old ++ flat_map (λ m. line_of_words (mult_words m)) (kind_lines kind 0 values.now)) }
{
    for k in 0..values.len() {
        print_mult(text, kind, k, values[k])?;
    }
    Ok(())
}

/// Writes the lines of multipliers, those of cuts aside.
pub fn print_mults(text: &mut LineWriter, mult: &Mult) -> Result<(), NoMemory>
    ensures { OnOk result (text.new
        ≡ text.old ++ text_of_lines (map mult_words (mult_lines mult.now))) }
{
    print_kind(text, MultKind::Var, mult.vars.as_slice())?;
    print_kind(text, MultKind::Row, mult.rows.as_slice())?;
    print_kind(text, MultKind::Set, mult.sets.as_slice())?;
    print_kind(text, MultKind::Paths, mult.paths.as_slice())
}

fn print_cut_sets(text: &mut LineWriter, sets: &[CutSet]) -> Result<(), NoMemory>
    ensures { OnOk result (text.new ≡ text.old ++ further (flat_map cut_set_words sets.now)) }
{
    for set in sets {
        text.number(set.set)?;
        text.number(set.num)?;
    }
    Ok(())
}

fn print_cut(text: &mut LineWriter, weight: u64, cut: &Cut) -> Result<(), NoMemory>
    ensures { OnOk result (text.new ≡ text.old ++ cut_line weight cut.now) }
{
    text.first(b"cut")?;
    text.number(cut.den)?;
    text.number(weight)?;
    text.number(cut.sets.len())?;
    print_cut_sets(text, cut.sets.as_slice())?;
    print_sets(text, &cut.memory)?;
    text.end_line()
}

/// Writes the lines of cuts, each with its multiplier.
fn print_cuts(text: &mut LineWriter, weights: &[u64], cuts: &[Cut]) -> Result<(), NoMemory>
    requires { length weights.now ≡ length cuts.now }
    ensures { OnOk result (text.new
        ≡ text.old ++ flat_map (λ p. cut_line p.0 p.1) (zip weights.now cuts.now)) }
{
    for k in 0..cuts.len() {
        print_cut(text, weights[k], &cuts[k])?;
    }
    Ok(())
}

/// Writes the lines of near lists.
fn print_near(text: &mut LineWriter, lines: &[(u32, u32, SetBits)]) -> Result<(), NoMemory>
    ensures { OnOk result (text.new
        ≡ text.old ++ flat_map (λ l. line_of_words (near_words l)) lines.now) }
{
    for line in lines {
        text.first(b"near")?;
        text.number(line.0)?;
        text.number(line.1)?;
        print_sets(text, &line.2)?;
        text.end_line()?;
    }
    Ok(())
}

fn print_form(text: &mut LineWriter, form: Form) -> Result<(), NoMemory>
    ensures { OnOk result (text.new ≡ text.old ++ further (form_words form)) }
{
    match form {
        Form::Full => text.word(b"full"),
        Form::Half(top) => {
            text.word(b"half")?;
            text.number(top)
        }
        Form::Both => text.word(b"both"),
    }
}

fn print_least(text: &mut LineWriter, least: Option<i128>) -> Result<(), NoMemory>
    ensures { OnOk result (text.new ≡ text.old ++ 32 ∷ least_word least) }
{
    match least {
        None => text.word(b"none"),
        Some(least) => text.number(least),
    }
}

/// Writes the line of a table.
fn print_table_line(text: &mut LineWriter, table: &ProofTable) -> Result<(), NoMemory>
    ensures { OnOk result (text.new ≡ text.old ++ line_of_words (table_words table.now)) }
{
    text.first(b"table")?;
    text.number(table.graph)?;
    print_form(text, table.form)?;
    print_least(text, table.least)?;
    text.end_line()
}

/// What the label lines of a table show.
fn shape_of(sizes: &Sizes, cuts: usize, table: &ProofTable) -> Shape
    requires { SizesFit sizes.now }
    ensures is { result ≡ shape_of sizes.now cuts table.now }
    ensures mains { result.ends.mains ≤ 2 }
    ensures seconds { result.ends.seconds ≤ 4 }
{
    let graph = graph_at(sizes, table.graph);
    Shape {
        vertices: graph.vertices,
        ends: graph.ends,
        sets: sizes.sets,
        cuts,
    }
}

/// Writes a table and its labels.
fn print_table(
    text: &mut LineWriter,
    sizes: &Sizes,
    cuts: usize,
    table: &ProofTable,
) -> Result<(), NoMemory>
    requires sizes { SizesFit sizes.now }
    requires cuts { cuts ≤ 64 }
    ensures { OnOk result (text.new
        ≡ text.old ++ text_of_lines (table_lines sizes.now cuts table.now)) }
{
    let shape = shape_of(sizes, cuts, table);
    print_table_line(text, table)?;
    print_labels(text, b"fore", &shape, table.fore.as_slice())?;
    print_labels(text, b"back", &shape, table.back.as_slice())
}

fn print_tables(
    text: &mut LineWriter,
    sizes: &Sizes,
    cuts: usize,
    tables: &[ProofTable],
) -> Result<(), NoMemory>
    requires sizes { SizesFit sizes.now }
    requires cuts { cuts ≤ 64 }
    ensures { OnOk result (text.new
        ≡ text.old ++ flat_map (λ t. text_of_lines (table_lines sizes.now cuts t)) tables.now) }
{
    for table in tables {
        print_table(text, sizes, cuts, table)?;
    }
    Ok(())
}

/// Writes the lines of a proof.
pub fn print_proof(text: &mut LineWriter, sizes: &Sizes, proof: &Proof) -> Result<(), NoMemory>
    requires sizes { SizesFit sizes.now }
    requires cuts { HasWeights proof.now }
    ensures { OnOk result (text.new ≡ text.old ++ text_of_lines (proof_part sizes.now proof.now)) }
{
    print_mults(text, &proof.mult)?;
    print_cuts(text, proof.mult.cuts.as_slice(), proof.cuts.as_slice())?;
    print_near(text, proof.near.as_slice())?;
    print_tables(text, sizes, proof.cuts.len(), proof.tables.as_slice())
}
