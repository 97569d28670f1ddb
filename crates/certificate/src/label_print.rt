ghost use Rattle.std.specs.Prelude.{◌≡◌, ◌≤◌, ◌+◌, ◌*◌, ◌++◌, ◌∷◌, [], map, filter, decimal, codes, OnOk};
ghost use Rattle.std.specs.Fmt.{signed_decimal};
ghost use Rattle.std.specs.List.{flat_map, range_with_len};
ghost use Rattle.path_graph.specs.SetBits.{has_set};
ghost use Rattle.line_text.specs.Spelling.{line_of_words};
ghost use Rattle.model_text.specs.ModelText.{used};
ghost use Rattle.certificate.specs.SetWords.{set_words};
ghost use Rattle.certificate.specs.LabelWords.{behind_key, label_words};
ghost use Rattle.certificate.specs.CertPrint.{further};

use crate::sizes::Shape;
use label_rules::Label;
use line_text::LineWriter;
use path_graph::{Ends, NoMemory, SetBits, Values};

/// Writes a packing set, where it is a member.
fn print_member(text: &mut LineWriter, set: &SetBits, number: u16) -> Result<(), NoMemory>
    ensures { OnOk result (text.new
        ≡ text.old ++ further (map decimal (filter (has_set set.now) (number ∷ [])))) }
{
    if !set.has(number) {
        return Ok(());
    }
    text.number(number)
}

/// The packing set of a bit of a word.
fn set_at(word: u16, bit: u16) -> u16
    requires word { word ≤ 7 }
    requires bit { bit ≤ 63 }
    ensures { result ≡ word * 64 + bit }
{
    64 * word + bit
}

/// Writes the packing sets of one word of a set's bits.
fn print_word_sets(text: &mut LineWriter, set: &SetBits, word: u16) -> Result<(), NoMemory>
    requires { word ≤ 7 }
    ensures { OnOk result (text.new ≡ text.old
        ++ further (map decimal (filter (has_set set.now) (range_with_len (word * 64) 64)))) }
{
    if set.bits[word as usize] == 0 {
        return Ok(());
    }
    for bit in 0..64 {
        print_member(text, set, set_at(word, bit))?;
    }
    Ok(())
}

/// Writes the packing sets of a set, which ascend.
pub fn print_sets(text: &mut LineWriter, set: &SetBits) -> Result<(), NoMemory>
    ensures { OnOk result (text.new ≡ text.old ++ further (set_words set.now)) }
{
    for word in 0..8 {
        print_word_sets(text, set, word)?;
    }
    Ok(())
}

/// Writes the values of the resources of a graph.
fn print_values(text: &mut LineWriter, ends: &Ends, values: &Values) -> Result<(), NoMemory>
    requires mains { ends.now.mains ≤ 2 }
    requires seconds { ends.now.seconds ≤ 4 }
    ensures { OnOk result (text.new
        ≡ text.old ++ further (map signed_decimal (used ends.now values.now.at))) }
{
    text.numbers(&values.at[..ends.mains as usize])?;
    text.numbers(&values.at[2..2 + ends.seconds as usize])
}

/// Writes `m` and the packing sets of a memory, where there is one.
fn print_memory(text: &mut LineWriter, memory: &SetBits) -> Result<(), NoMemory>
    ensures { OnOk result (text.new
        ≡ text.old ++ further (behind_key (codes "m") (set_words memory.now))) }
{
    if memory.within(&SetBits::empty()) {
        return Ok(());
    }
    text.word(b"m")?;
    print_sets(text, memory)
}

/// Writes `s` and the states of cuts, where there is one.
fn print_states(text: &mut LineWriter, states: &[u8]) -> Result<(), NoMemory>
    ensures { OnOk result (text.new
        ≡ text.old ++ further (behind_key (codes "s") (map decimal states.now))) }
{
    if states.is_empty() {
        return Ok(());
    }
    text.word(b"s")?;
    text.numbers(states)
}

/// Writes the line of a label behind this first word.
fn print_label(
    text: &mut LineWriter,
    key: &[u8],
    shape: &Shape,
    label: &Label,
) -> Result<(), NoMemory>
    requires mains { shape.now.ends.mains ≤ 2 }
    requires seconds { shape.now.ends.seconds ≤ 4 }
    requires cuts { shape.now.cuts ≤ 64 }
    ensures { OnOk result (text.new
        ≡ text.old ++ line_of_words (key.now ∷ label_words shape.now label.now)) }
{
    text.first(key)?;
    text.number(label.vertex)?;
    text.number(label.cost)?;
    print_values(text, &shape.ends, &label.values)?;
    print_memory(text, &label.memory)?;
    print_states(text, &label.states[..shape.cuts])?;
    text.end_line()
}

/// Writes the lines of labels.
pub fn print_labels(
    text: &mut LineWriter,
    key: &[u8],
    shape: &Shape,
    labels: &[Label],
) -> Result<(), NoMemory>
    requires mains { shape.now.ends.mains ≤ 2 }
    requires seconds { shape.now.ends.seconds ≤ 4 }
    requires cuts { shape.now.cuts ≤ 64 }
    ensures { OnOk result (text.new
        ≡ text.old ++ flat_map (λ l. line_of_words (key.now ∷ label_words shape.now l)) labels.now) }
{
    for label in labels {
        print_label(text, key, shape, label)?;
    }
    Ok(())
}
