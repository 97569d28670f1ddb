ghost use Rattle.std.specs.Prelude.{◌≡◌, ◌++◌, ◌∷◌, [], All, Any, Ok, map, IfOk, IfErr, OnOk};
ghost use Rattle.path_graph.specs.Free.{HasNoFreeCycle};
ghost use Rattle.model_text.specs.Draft.{graph_of, SectionPartsFit};
ghost use Rattle.model_text.specs.FreeCycles.{HasFreeCycle};
ghost use Rattle.model_text.specs.FirstFault.{IsModelOf};
ghost use Rattle.model_text.specs.Refusal.{IsTold, IsLateRefusal};
ghost use Rattle.model_text.specs.ModelBuild.{HasCycleWhere};

use crate::draft::{Draft, Section};
use line_text::{Kind, ReadError, TextFault};
use path_graph::{Graph, GraphFault, List, NoMemory};
use route_model::{BuildFault, Model};
use std::alloc::Global;

/// Appends the graph of the lines of a section.
fn push_graph(alloc: Global, graphs: &mut List<Graph>, section: &Section) -> Result<(), GraphFault>
    requires { SectionPartsFit section.now }
    ensures graph { OnOk result (graphs.new ≡ graphs.old ++ graph_of section.now ∷ []) }
    ensures acyclic { OnOk result (HasNoFreeCycle section.now.arcs) }
    ensures cycle { IfErr result (HasCycleWhere (HasFreeCycle (graph_of section.now))) }
{
    let graph = Graph::new(
        alloc,
        section.ends,
        section.vertices.as_slice(),
        section.arcs.as_slice(),
    )?;
    graphs.push(graph)?;
    Ok(())
}

/// The graphs of their lines, in order.
fn graphs_of(alloc: Global, sections: &[Section]) -> Result<List<Graph>, GraphFault>
    requires { All SectionPartsFit sections.now }
    ensures graphs { IfOk result (λ graphs. graphs ≡ map graph_of sections.now) }
    ensures acyclic { OnOk result (All (λ s. HasNoFreeCycle s.arcs) sections.now) }
    ensures cycle { IfErr result (HasCycleWhere (Any HasFreeCycle (map graph_of sections.now))) }
{
    let mut graphs = List::new(alloc);
    for section in sections {
        push_graph(alloc, &mut graphs, section)?;
    }
    Ok(graphs)
}

/// The variables of the arcs of each graph, moved out of what its lines said.
fn maps_of(alloc: Global, sections: List<Section>) -> Result<List<List<List<u32>>>, NoMemory>
    ensures { IfOk result (λ maps. maps ≡ map (λ s. s.maps) sections) }
{
    let maps = sections
        .into_vec()
        .into_iter()
        .map(|section| section.maps)
        .collect(alloc)?;
    Ok(List::from_vec(maps))
}

/// The model of what the lines of a text said, unless an error is found in them together.
pub fn model_of(alloc: Global, draft: Draft) -> Result<Model, ReadError>
    requires { IsTold draft }
    ensures ok { IfOk result (IsModelOf (Ok draft)) }
    ensures refused { IfErr result (IsLateRefusal draft) }
{
    let Draft {
        vars,
        rows,
        sets,
        done,
        end: line,
        ..
    } = draft;
    let graphs = match graphs_of(alloc, done.as_slice()) {
        Ok(graphs) => graphs,
        Err(GraphFault::FreeCycle(_)) => {
            return Err(ReadError::Text(TextFault {
                line,
                kind: Kind::FreeCycle,
            }));
        }
        Err(GraphFault::Memory) => return Err(ReadError::Memory),
    };
    let maps = maps_of(alloc, done)?;
    match Model::build(alloc, vars, rows, sets, graphs, maps) {
        Ok(model) => Ok(model),
        Err(BuildFault::CostRange) => Err(ReadError::Text(TextFault {
            line,
            kind: Kind::CostRange,
        })),
        Err(BuildFault::Memory) => Err(ReadError::Memory),
    }
}
