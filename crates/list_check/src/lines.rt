//! The lines of a tree, as a set in which they are looked up.

ghost use Rattle.std.specs.Prelude.{◌≡◌, ℕ, ◌==◌, ◌&&◌, ◌||◌, not, IfOk, OnOk, MatchOption, map};
ghost use Rattle.cert_rules.specs.Meaning.{step_of};
ghost use Rattle.list_check.specs.Lines.{AreDifferent, AreLines, has_line as has_line_of};

use certificate::Step;
use path_graph::NoMemory;
use std::alloc::Global;
use std::collections::BTreeSet;

/// Pairs of a parent and an arc.
pub(crate) type Lines = BTreeSet<(u32, u32)>;

/// Whether a line is there.
pub(crate) fn has_line(lines: &Lines, parent: u32, arc: u32) -> bool
    ensures { result ≡ has_line_of lines.now parent arc }
{
    lines.contains(&(parent, arc))
}

/// Puts a line, and tells whether it is new.
fn put_line(lines: &mut Lines, parent: u32, arc: u32) -> Result<bool, NoMemory>
    ensures new { IfOk result (λ new. new ≡ not (has_line_of lines.old parent arc)) }
    ensures has { OnOk result ((p a : ℕ) → has_line_of lines.new p a
        ≡ (((p == parent) && (a == arc)) || has_line_of lines.old p a)) }
{
    Ok(lines.insert((parent, arc))?)
}

/// The lines of steps: none exactly where two steps are equal.
pub(crate) fn lines_of(alloc: Global, steps: &[Step]) -> Result<Option<Lines>, NoMemory>
    ensures { IfOk result (λ found. MatchOption found (¬ (AreDifferent (map step_of steps.now)))
        (AreLines (map step_of steps.now))) }
{
    let mut lines = BTreeSet::new(alloc);
    for step in steps {
        if !put_line(&mut lines, step.parent, step.arc)? {
            return Ok(None);
        }
    }
    Ok(Some(lines))
}
