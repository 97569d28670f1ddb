ghost use Rattle.std.specs.Prelude.{ℕ, ◌≡◌, ◌<◌, ◌≤◌, ◌++◌, ◌∷◌, length, map, OnOk, IfOk};
ghost use Rattle.std.specs.Fmt.{signed_decimal, decimal};
ghost use Rattle.std.specs.List.{flat_map, zip};
ghost use Rattle.route_model.specs.Parts.{graph_in, maps_in};
ghost use Rattle.route_model.specs.Fit.{IsModel};
ghost use Rattle.model_text.specs.Spelling.{Spells};
ghost use Rattle.model_text.specs.ModelText.{var_line, side_word, term_words, row_line, sets_line, graph_line, used, set_word, window_words, vertex_line, arc_line, graph_text, model_text};

use line_text::LineWriter;
use path_graph::{Ends, Graph, GraphArc, List, NoMemory, Vertex, Window};
use route_model::{Model, Row, RowTerm, Var};
use std::alloc::Global;

fn print_var(text: &mut LineWriter, var: &Var) -> Result<(), NoMemory>
    ensures { OnOk result (text.new ≡ text.old ++ var_line var.now) }
{
    text.first(b"var")?;
    text.numbers(&[var.low, var.high, var.cost])?;
    text.end_line()
}

fn print_side(text: &mut LineWriter, side: Option<i64>) -> Result<(), NoMemory>
    ensures { OnOk result (text.new ≡ text.old ++ 32 ∷ side_word side) }
{
    match side {
        None => text.word(b"*"),
        Some(side) => text.number(side),
    }
}

fn print_terms(text: &mut LineWriter, terms: &[RowTerm]) -> Result<(), NoMemory>
    ensures { OnOk result (text.new
        ≡ text.old ++ flat_map (λ word. 32 ∷ word) (flat_map term_words terms.now)) }
{
    for term in terms {
        text.number(term.var)?;
        text.number(term.coef)?;
    }
    Ok(())
}

fn print_row(text: &mut LineWriter, row: &Row) -> Result<(), NoMemory>
    ensures { OnOk result (text.new ≡ text.old ++ row_line row.now) }
{
    text.first(b"row")?;
    print_side(text, row.low)?;
    print_side(text, row.high)?;
    print_terms(text, row.terms.as_slice())?;
    text.end_line()
}

fn print_sets(text: &mut LineWriter, sets: u16) -> Result<(), NoMemory>
    ensures { OnOk result (text.new ≡ text.old ++ sets_line sets) }
{
    if sets == 0 {
        return Ok(());
    }
    text.first(b"sets")?;
    text.number(sets)?;
    text.end_line()
}

fn print_set(text: &mut LineWriter, set: Option<u16>) -> Result<(), NoMemory>
    ensures { OnOk result (text.new ≡ text.old ++ 32 ∷ set_word set) }
{
    match set {
        None => text.word(b"-"),
        Some(set) => text.number(set),
    }
}

fn print_windows(text: &mut LineWriter, windows: &[Window]) -> Result<(), NoMemory>
    ensures { OnOk result (text.new
        ≡ text.old ++ flat_map (λ word. 32 ∷ word) (flat_map window_words windows.now)) }
{
    for window in windows {
        text.number(window.low)?;
        text.number(window.high)?;
    }
    Ok(())
}

fn print_vertex(text: &mut LineWriter, ends: &Ends, vertex: &Vertex) -> Result<(), NoMemory>
    requires mains { ends.now.mains ≤ 2 }
    requires seconds { ends.now.seconds ≤ 4 }
    ensures { OnOk result (text.new ≡ text.old ++ vertex_line ends.now vertex.now) }
{
    text.first(b"vertex")?;
    print_set(text, vertex.set)?;
    print_windows(text, &vertex.windows[..ends.mains as usize])?;
    print_windows(text, &vertex.windows[2..2 + ends.seconds as usize])?;
    text.end_line()
}

fn print_arc(
    text: &mut LineWriter,
    ends: &Ends,
    arc: &GraphArc,
    vars: &[u32],
) -> Result<(), NoMemory>
    requires mains { ends.now.mains ≤ 2 }
    requires seconds { ends.now.seconds ≤ 4 }
    ensures { OnOk result (text.new ≡ text.old ++ arc_line ends.now arc.now vars.now) }
{
    text.first(b"arc")?;
    text.numbers(&[arc.tail, arc.head])?;
    text.numbers(&arc.needs[..ends.mains as usize])?;
    text.numbers(&arc.needs[2..2 + ends.seconds as usize])?;
    text.numbers(vars)?;
    text.end_line()
}

fn print_ends(text: &mut LineWriter, graph: &Graph) -> Result<(), NoMemory>
    ensures { OnOk result (text.new ≡ text.old ++ graph_line graph.now) }
{
    let ends = graph.ends();
    text.first(b"graph")?;
    text.numbers(&[
        graph.vertex_count(),
        ends.source,
        ends.sink,
        ends.low,
        ends.high,
    ])?;
    text.numbers(&[ends.mains, ends.seconds])?;
    text.end_line()
}

fn print_vertices(text: &mut LineWriter, graph: &Graph) -> Result<(), NoMemory>
    ensures { OnOk result (text.new
        ≡ text.old ++ flat_map (vertex_line graph.now.ends) graph.now.vertices) }
{
    let ends = graph.ends();
    for v in 0..graph.vertex_count() {
        print_vertex(text, &ends, &graph.vertex(v))?;
    }
    Ok(())
}

fn print_arcs(text: &mut LineWriter, graph: &Graph, maps: &List<List<u32>>) -> Result<(), NoMemory>
    requires { length maps.now ≡ length graph.now.arcs }
    ensures { OnOk result (text.new ≡ text.old
        ++ flat_map (λ p. arc_line graph.now.ends p.0 p.1) (zip graph.now.arcs maps.now)) }
{
    let ends = graph.ends();
    for a in 0..graph.arc_count() {
        print_arc(text, &ends, &graph.arc(a), maps.at(a as usize).as_slice())?;
    }
    Ok(())
}

fn print_graph(text: &mut LineWriter, graph: &Graph, maps: &List<List<u32>>) -> Result<(), NoMemory>
    requires { length maps.now ≡ length graph.now.arcs }
    ensures { OnOk result (text.new ≡ text.old ++ graph_text graph.now maps.now) }
{
    print_ends(text, graph)?;
    print_vertices(text, graph)?;
    print_arcs(text, graph, maps)
}

fn print_graphs(
    text: &mut LineWriter,
    graphs: &List<Graph>,
    maps: &List<List<List<u32>>>,
) -> Result<(), NoMemory>
    requires lists { length maps.now ≡ length graphs.now }
    requires arcs { (g : ℕ) → g < length graphs.now
        → length (maps_in maps.now g) ≡ length (graph_in graphs.now g).arcs }
    ensures { OnOk result (text.new
        ≡ text.old ++ flat_map (λ p. graph_text p.0 p.1) (zip graphs.now maps.now)) }
{
    for g in 0..graphs.len() {
        print_graph(text, graphs.at(g), maps.at(g))?;
    }
    Ok(())
}

fn print_vars(text: &mut LineWriter, vars: &[Var]) -> Result<(), NoMemory>
    ensures { OnOk result (text.new ≡ text.old ++ flat_map var_line vars.now) }
{
    for var in vars {
        print_var(text, var)?;
    }
    Ok(())
}

fn print_rows(text: &mut LineWriter, rows: &[Row]) -> Result<(), NoMemory>
    ensures { OnOk result (text.new ≡ text.old ++ flat_map row_line rows.now) }
{
    for row in rows {
        print_row(text, row)?;
    }
    Ok(())
}

/// The printed text of a model.
fn printed(alloc: Global, model: &Model) -> Result<LineWriter, NoMemory>
    ensures text { IfOk result (λ text. text ≡ model_text model.now) }
    ensures model { IfOk result (λ _. IsModel model.now) }
{
    let mut text = LineWriter::new(alloc);
    text.first(b"vrpmodel 1\n")?;
    print_vars(&mut text, model.vars.as_slice())?;
    print_rows(&mut text, model.rows.as_slice())?;
    print_sets(&mut text, model.sets)?;
    print_graphs(&mut text, &model.graphs, &model.maps)?;
    text.first(b"end\n")?;
    Ok(text)
}

/// The printed text of a model: the one valid text of it in printed form.
///
/// There is one blank between words, no comment, no leading zero, and LF after each line. The line of the sets is left
/// out where there are none. The time is linear in the text.
pub fn print_model(alloc: Global, model: &Model) -> Result<List<u8>, NoMemory>
    ensures text { IfOk result (λ bytes. bytes ≡ model_text model.now) }
    ensures spells { IfOk result (λ bytes. Spells bytes model.now) }
{
    let text = printed(alloc, model)?;
    Ok(text.into_list())
}
