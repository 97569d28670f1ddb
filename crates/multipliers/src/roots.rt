ghost use Rattle.std.specs.Prelude.{◌≡◌, ◌↔◌, List, IfOk, false, length, map};
ghost use Rattle.path_graph.specs.Walk.{GraphParts};
ghost use Rattle.route_model.specs.declared.plan.Plan.{Plan};
ghost use Rattle.route_model.specs.Places.{SolvesAt, SpotFits, path_span, root_place, var_span};
ghost use Rattle.route_model.specs.Solution.{IsSolution};

use path_graph::{Graph, List, NoMemory};
use route_model::{Boxes, Model, Span, Spot, Var};
use std::alloc::Global;

/// The place at which a search begins: the boxes of the model, and no arc dropped. Its solutions are those of the model.
pub fn root_spot(alloc: Global, model: &Model) -> Result<Spot, NoMemory>
    ensures root { IfOk result (λ spot. spot ≡ root_place model.now) }
    ensures fits { IfOk result (SpotFits model.now) }
    ensures solutions { IfOk result (λ spot. (plan : Plan) → SolvesAt model.now spot plan ↔ IsSolution model.now plan) }
{
    let vars = var_spans(alloc, model.vars.as_slice())?;
    let paths = path_spans(alloc, model.graphs.as_slice())?;
    let fixed = no_marks(alloc, model.graphs.as_slice())?;
    Ok(Spot {
        boxes: Boxes { vars, paths },
        fixed,
    })
}

/// The boxes of variables.
fn var_spans(alloc: Global, vars: &[Var]) -> Result<List<Span>, NoMemory>
    ensures { IfOk result (λ spans. spans ≡ map var_span vars.now) }
{
    let mut spans = Vec::new(alloc);
    for var in vars {
        spans.push(Span {
            low: var.low,
            high: var.high,
        })?;
    }
    Ok(List::from_vec(spans))
}

/// The boxes of the path counts of graphs.
fn path_spans(alloc: Global, graphs: &[Graph]) -> Result<List<Span>, NoMemory>
    ensures { IfOk result (λ spans. spans ≡ map path_span graphs.now) }
{
    let mut spans = Vec::new(alloc);
    for graph in graphs {
        spans.push(path_span_of(graph))?;
    }
    Ok(List::from_vec(spans))
}

/// The box of the path count of a graph.
fn path_span_of(graph: &Graph) -> Span
    ensures { result ≡ path_span graph.now }
{
    let ends = graph.ends();
    Span {
        low: i64::from(ends.low),
        high: i64::from(ends.high),
    }
}

/// For each arc of each graph the mark of an arc that is not dropped.
fn no_marks(alloc: Global, graphs: &[Graph]) -> Result<List<List<bool>>, NoMemory>
    ensures { IfOk result (λ fixed. fixed ≡ map (λ g. map (λ arc. false) g.arcs) graphs.now) }
{
    let mut fixed = Vec::new(alloc);
    for graph in graphs {
        fixed.push(no_mark(alloc, graph)?)?;
    }
    Ok(List::from_vec(fixed))
}

/// The same for the arcs of one graph.
fn no_mark(alloc: Global, graph: &Graph) -> Result<List<bool>, NoMemory>
    ensures { IfOk result (λ marks. marks ≡ map (λ arc. false) graph.now.arcs) }
{
    let mut marks = Vec::new(alloc);
    for _ in 0..graph.arc_count() {
        marks.push(false)?;
    }
    Ok(List::from_vec(marks))
}
