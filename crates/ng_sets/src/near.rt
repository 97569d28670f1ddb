ghost use Rattle.std.specs.Prelude.{◌≡◌, IfOk};
ghost use Rattle.ng_sets.specs.Near.{near_at, FitsGraphs, HasNone, IsVertex, KeepsOthers, HasShape, IsNothingNear};

use path_graph::{Graph, List, NoMemory, SetBits};
use std::alloc::Global;
use std::marker::Model;

/// For each vertex of each graph, the packing sets that are near it: those that a walk still remembers when it visits
/// the vertex.
///
/// Contracts see it as the list of the graphs, each as the list of its vertices' sets.
///
/// The ng-relaxation is that of Baldacci, Mingozzi and Roberti (2011), with packing sets in the place of customers.
/// With all sets near each vertex a walk visits no set twice; with none it may come back to a set as soon as it has
/// visited another vertex.
#[derive(Debug, Drop)]
pub struct Near {
    lists: Vec<List<SetBits>>,
}

impl Model for Near {
    ghost use Rattle.std.specs.Prelude.{List};
    ghost use Rattle.path_graph.specs.declared.set_bits.SetBits.{SetBits};

    ghost Value = { List (List SetBits) };

    ghost view = { λ near. near.lists.items };
}

impl Near {
    /// For these graphs, with nothing near any vertex.
    ///
    /// It takes 64 bytes for each vertex of each graph.
    pub fn new(alloc: Global, graphs: &[Graph]) -> Result<Near, NoMemory>
        ensures fits { IfOk result (λ near. FitsGraphs near graphs.now) }
        ensures none { IfOk result HasNone }
    {
        let lists = empty_lists(alloc, graphs)?;
        Ok(Near { lists })
    }

    /// Puts these sets near the vertex, in the place of those that were.
    pub fn put(&mut self, g: u32, v: u32, sets: SetBits)
        requires { IsVertex self.old g v }
        ensures put { near_at self.new g v ≡ sets }
        ensures others { KeepsOthers self.old self.new g v }
        ensures shape { HasShape self.old self.new }
    {
        self.lists[g as usize].set(v as usize, sets);
    }

    /// The sets near the vertex.
    pub fn at(&self, g: u32, v: u32) -> SetBits
        requires { IsVertex self.now g v }
        ensures { result ≡ near_at self.now g v }
    {
        *self.lists[g as usize].at(v as usize)
    }

    /// Equal lists.
    pub fn copy(&self, alloc: Global) -> Result<Near, NoMemory>
        ensures { IfOk result (λ near. near ≡ self.now) }
    {
        let lists = copies(alloc, self.lists.as_slice())?;
        Ok(Near { lists })
    }
}

fn copies(alloc: Global, lists: &[List<SetBits>]) -> Result<Vec<List<SetBits>>, NoMemory>
    ensures { IfOk result (λ copied. copied.items ≡ lists.now) }
{
    let mut copied = Vec::new(alloc);
    for list in lists {
        copied.push(list.copy(alloc)?)?;
    }
    Ok(copied)
}

fn empty_lists(alloc: Global, graphs: &[Graph]) -> Result<Vec<List<SetBits>>, NoMemory>
    ensures { IfOk result (λ lists. FitsGraphs lists.items graphs.now × HasNone lists.items) }
{
    let mut lists = Vec::new(alloc);
    for graph in graphs {
        lists.push(nothing_near(alloc, graph)?)?;
    }
    Ok(lists)
}

/// A list for each vertex of the graph, with no set.
fn nothing_near(alloc: Global, graph: &Graph) -> Result<List<SetBits>, NoMemory>
    ensures { IfOk result (IsNothingNear graph.now) }
{
    let sets = vec![in alloc; SetBits::empty(); graph.vertex_count() as usize]?;
    Ok(List::from_vec(sets))
}
