ghost use Rattle.std.specs.Prelude.{◌≡◌, ℕ, ◌<◌, length, slice_index, IfOk, IfErr, IsTrue};
ghost use Rattle.path_graph.specs.Fit.{vertex_at, PartsFit};
ghost use Rattle.path_graph.specs.Parts.{arc_at, arcs_from, arcs_into};
ghost use Rattle.path_graph.specs.Free.{is_free, HasNoFreeCycle, IsRank, rank_of};
ghost use Rattle.path_graph.specs.Graph.{IsGraph};
ghost use Rattle.path_graph.specs.Ranking.{IsCycleFault};

use crate::arc_lists::{lists_from, lists_into};
use crate::fault::GraphFault;
use crate::list::{List, NoMemory};
use crate::parts::{Ends, GraphArc, Vertex};
use crate::ranking::rank_all;
use std::alloc::Global;
use std::marker::Model;

/// A directed graph whose walks from the source to the sink are bounded by resources.
///
/// Contracts see it as its parts, which fit, and in which arcs without main consumption form no cycle. It keeps the
/// arcs at each vertex and the ranks of the vertices, so that each is looked up in one step.
#[derive(Drop)]
pub struct Graph {
    ends: Ends,
    vertices: Vec<Vertex>,
    arcs: Vec<GraphArc>,
    from: List<List<u32>>,
    into: List<List<u32>>,
    ranks: List<u32>,
}

impl Model for Graph {
    ghost use Rattle.path_graph.specs.Parts.{GraphParts};

    ghost Value = { GraphParts };

    ghost use Rattle.path_graph.specs.Index.{IsIndexed};

    ghost view = { λ g. record { ends = g.ends; vertices = g.vertices.items; arcs = g.arcs.items } };

    ghost invariant = { λ g. IsIndexed
        (record { ends = g.ends; vertices = g.vertices.items; arcs = g.arcs.items })
        g.from g.into g.ranks };
}

impl Graph {
    /// The graph of the parts, of which it keeps copies.
    ///
    /// `FreeCycle` comes exactly where arcs without main consumption form a cycle. The time is linear in the vertices
    /// and arcs.
    pub fn new(
        alloc: Global,
        ends: Ends,
        vertices: &[Vertex],
        arcs: &[GraphArc],
    ) -> Result<Graph, GraphFault>
        requires fit { PartsFit ends vertices.now arcs.now }
        ensures parts { IfOk result (λ g. g ≡ record { ends = ends; vertices = vertices.now; arcs = arcs.now }) }
        ensures acyclic { IfOk result (λ g. HasNoFreeCycle arcs.now) }
        ensures cycle { IfErr result (IsCycleFault arcs.now) }
    {
        let from = lists_from(alloc, vertices.len(), arcs)?;
        let into = lists_into(alloc, vertices.len(), arcs)?;
        let ranks = rank_all(alloc, vertices.len(), arcs, into.as_slice())?;
        let vertices = copy_of(alloc, vertices)?;
        let arcs = copy_of(alloc, arcs)?;
        Ok(Graph {
            ends,
            vertices,
            arcs,
            from,
            into,
            ranks,
        })
    }

    /// The source, the sink, the path bounds and the numbers of resources.
    pub fn ends(&self) -> Ends
        ensures ends { result ≡ self.now.ends }
        ensures fits { IsGraph self.now }
    {
        self.ends
    }

    /// How many vertices there are.
    pub fn vertex_count(&self) -> u32
        ensures count { result ≡ length self.now.vertices }
        ensures fits { IsGraph self.now }
    {
        self.vertices.len() as u32
    }

    /// How many arcs there are.
    pub fn arc_count(&self) -> u32
        ensures { result ≡ length self.now.arcs }
    {
        self.arcs.len() as u32
    }

    /// A vertex, by number.
    pub fn vertex(&self, v: u32) -> Vertex
        requires { v < length self.now.vertices }
        ensures vertex { result ≡ vertex_at self.now.vertices v }
        ensures fits { IsGraph self.now }
    {
        self.vertices[v as usize]
    }

    /// An arc, by number.
    pub fn arc(&self, a: u32) -> GraphArc
        requires { a < length self.now.arcs }
        ensures arc { result ≡ arc_at self.now.arcs a }
        ensures fits { IsGraph self.now }
    {
        self.arcs[a as usize]
    }

    /// How many arcs leave a vertex.
    pub fn out_count(&self, v: u32) -> u32
        requires { v < length self.now.vertices }
        ensures { result ≡ length (arcs_from self.now.arcs v) }
    {
        self.from.at(v as usize).len() as u32
    }

    /// The number of an arc out of a vertex, by its place among them, from 0. The numbers ascend.
    pub fn out_arc(&self, v: u32, k: u32) -> u32
        requires vertex { v < length self.now.vertices }
        requires place { k < length (arcs_from self.now.arcs v) }
        ensures arc { result ≡ slice_index (arcs_from self.now.arcs v) k }
        ensures there { result < length self.now.arcs }
        ensures tail { (arc_at self.now.arcs result).tail ≡ v }
    {
        *self.from.at(v as usize).at(k as usize)
    }

    /// How many arcs enter a vertex.
    pub fn in_count(&self, v: u32) -> u32
        requires { v < length self.now.vertices }
        ensures { result ≡ length (arcs_into self.now.arcs v) }
    {
        self.into.at(v as usize).len() as u32
    }

    /// The number of an arc into a vertex, by its place among them, from 0. The numbers ascend.
    pub fn in_arc(&self, v: u32, k: u32) -> u32
        requires vertex { v < length self.now.vertices }
        requires place { k < length (arcs_into self.now.arcs v) }
        ensures arc { result ≡ slice_index (arcs_into self.now.arcs v) k }
        ensures there { result < length self.now.arcs }
        ensures head { (arc_at self.now.arcs result).head ≡ v }
    {
        *self.into.at(v as usize).at(k as usize)
    }

    /// The rank of a vertex: how many arcs the longest path into it has whose arcs consume no main resource.
    ///
    /// It rises over each arc without main consumption, and orders the labels of equal main values.
    pub fn rank(&self, v: u32) -> u32
        requires { v < length self.now.vertices }
        ensures rank { result ≡ rank_of self.now v }
        ensures longest { IsRank self.now.arcs v result }
        ensures below { result < length self.now.vertices }
        ensures rises { (a : ℕ) → a < length self.now.arcs → IsTrue (is_free (arc_at self.now.arcs a))
            → (arc_at self.now.arcs a).head ≡ v → rank_of self.now (arc_at self.now.arcs a).tail < result }
    {
        *self.ranks.at(v as usize)
    }
}

/// A copy of the items.
fn copy_of<T: Copy>(alloc: Global, items: &[T]) -> Result<Vec<T>, NoMemory>
    ensures { IfOk result (λ copy. copy.items ≡ items.now) }
{
    Ok(Vec::from_slice(alloc, items)?)
}
