ghost use Rattle.std.specs.Prelude.{◌≡◌, ◌++◌, OnOk, IfOk};
ghost use Rattle.std.specs.List.{flat_map};
ghost use Rattle.model_text.specs.PathText.{path_line, plan_text, PlanFits, SpellsPlan};

use line_text::LineWriter;
use path_graph::{List, NoMemory};
use route_model::{Plan, Taken};
use std::alloc::Global;

/// Writes the line of a path.
pub fn print_path(text: &mut LineWriter, path: &Taken) -> Result<(), NoMemory>
    ensures { OnOk result (text.new ≡ text.old ++ path_line path.now) }
{
    text.first(b"path")?;
    text.number(path.graph)?;
    text.number(path.count)?;
    text.numbers(path.arcs.as_slice())?;
    text.end_line()
}

fn print_paths(text: &mut LineWriter, paths: &[Taken]) -> Result<(), NoMemory>
    ensures { OnOk result (text.new ≡ text.old ++ flat_map path_line paths.now) }
{
    for path in paths {
        print_path(text, path)?;
    }
    Ok(())
}

/// The printed text of a plan.
///
/// There is one blank between words, no comment, no leading zero, and LF after each line. The time is linear in the
/// text.
pub fn print_plan(alloc: Global, plan: &Plan) -> Result<List<u8>, NoMemory>
    requires { PlanFits plan.now }
    ensures text { IfOk result (λ bytes. bytes ≡ plan_text plan.now) }
    ensures spells { IfOk result (λ bytes. SpellsPlan bytes plan.now) }
{
    let mut text = LineWriter::new(alloc);
    print_paths(&mut text, plan.paths.as_slice())?;
    text.first(b"end\n")?;
    Ok(text.into_list())
}
