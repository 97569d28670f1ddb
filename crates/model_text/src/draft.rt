ghost use Rattle.std.specs.Prelude.{◌≡◌};
ghost use Rattle.model_text.specs.Draft.{is_in_graph, is_opening};

use path_graph::{Ends, GraphArc, List, Vertex};
use route_model::{Row, Var};
use std::alloc::Global;

/// Where in a model text the next line stands.
#[derive(Clone, Copy, Debug, PartialEq, Eq)]
pub enum Stage {
    /// Before the version line.
    Opening,
    /// Among the variables.
    Variables,
    /// Among the rows.
    Rows,
    /// After the line of the sets.
    Sets,
    /// In a graph of which vertices are still to come.
    Vertices,
    /// In a graph that has all its vertices.
    Arcs,
    /// After the end line.
    Ended,
}

/// A graph as far as its lines are read, with the variables of its arcs, and the number of vertices that its graph
/// line gives.
#[derive(Drop)]
pub struct Section {
    pub count: u32,
    pub ends: Ends,
    pub vertices: List<Vertex>,
    pub arcs: List<GraphArc>,
    pub maps: List<List<u32>>,
}

/// What the lines of a model text say so far.
///
/// `current` is the graph whose lines are read, and `done` has the graphs before it. `end` is the number of the end
/// line, once it is read.
#[derive(Drop)]
pub struct Draft {
    pub stage: Stage,
    pub vars: List<Var>,
    pub rows: List<Row>,
    pub sets: u16,
    pub done: List<Section>,
    pub current: Section,
    pub end: u32,
}

impl Stage {
    /// Whether no line with words is read.
    pub fn is_opening(self) -> bool
        ensures { result ≡ is_opening self }
    {
        matches!(self, Stage::Opening)
    }

    /// Whether the lines of a graph are read.
    pub fn is_in_graph(self) -> bool
        ensures { result ≡ is_in_graph self }
    {
        matches!(self, Stage::Vertices | Stage::Arcs)
    }
}

impl Section {
    ghost use Rattle.model_text.specs.Draft.{begun_section, no_section};

    /// A graph of which the graph line alone is read.
    pub fn new(alloc: Global, count: u32, ends: Ends) -> Section
        ensures { result ≡ begun_section count ends }
    {
        Section {
            count,
            ends,
            vertices: List::new(alloc),
            arcs: List::new(alloc),
            maps: List::new(alloc),
        }
    }

    /// No graph.
    pub fn none(alloc: Global) -> Section
        ensures { result ≡ no_section }
    {
        let ends = Ends {
            source: 0,
            sink: 0,
            low: 0,
            high: 0,
            mains: 0,
            seconds: 0,
        };
        Section::new(alloc, 0, ends)
    }
}

impl Draft {
    ghost use Rattle.model_text.specs.Draft.{empty_draft};

    /// Before the first line.
    pub fn new(alloc: Global) -> Draft
        ensures { result ≡ empty_draft }
    {
        Draft {
            stage: Stage::Opening,
            vars: List::new(alloc),
            rows: List::new(alloc),
            sets: 0,
            done: List::new(alloc),
            current: Section::none(alloc),
            end: 0,
        }
    }
}
