ghost use Rattle.std.specs.Prelude.{◌≡◌, ◌↔◌, ◌<◌, ◌≤◌, ◌^◌, ◌+◌, ◌++◌, ◌∷◌, [], List, ℕ, IsTrue, All, length, map, IfOk, IfErr, OnOk, MatchBool, true};
ghost use Rattle.std.specs.List.{range_with_len};
ghost use Rattle.path_graph.specs.Parts.{arc_at, arcs_into, AreBetween};
ghost use Rattle.path_graph.specs.Free.{is_free, IsFreeCycle, IsRank};
ghost use Rattle.path_graph.specs.Ranking.{progress_at, IsOn, LeadsBack, IsNext, IsSearch, IsResting, GoesOn, HasEnded, with_stage, begun, advanced, opened, ranked, ClosesOver, AreRanks, IsCycleFault};
ghost use Rattle.path_graph.specs.declared.ranking.Stage.TheVariants.{New, Open, Ranked};
ghost use Rattle.path_graph.specs.declared.parts.GraphArc.{GraphArc};
ghost use Rattle.path_graph.specs.declared.limits.TheConstants.{MAX_VERTICES, MAX_ARCS};

use crate::fault::GraphFault;
use crate::list::{List, NoMemory};
use crate::parts::GraphArc;
use std::alloc::Global;

/// Whether a vertex was reached by the search for ranks, and whether its rank is known.
#[derive(Clone, Copy, PartialEq, Eq)]
enum Stage {
    New,
    Open,
    Ranked,
}

/// How far a vertex is ranked: `rank` counts the arcs of the longest free path into it by one of the first `next` arcs
/// into it.
#[derive(Clone, Copy)]
struct Progress {
    stage: Stage,
    next: usize,
    rank: u32,
}

/// A depth-first search against the arcs without main consumption.
///
/// It stands at `vertex`, to which `path` leads back from the root. A vertex that is met again while it is open lies
/// on a cycle. Each arc is looked at once, and once more where the search comes back over it.
#[derive(Drop)]
struct Ranking {
    progress: List<Progress>,
    root: u32,
    path: List<u32>,
    vertex: u32,
}

/// Whether an arc consumes no main resource.
fn is_free_arc(arc: &GraphArc) -> bool
    ensures { result ≡ is_free arc.now }
{
    arc.needs[0] == 0 && arc.needs[1] == 0
}

impl Ranking {
    /// The search before its first root.
    fn new(alloc: Global, count: usize) -> Result<Ranking, NoMemory>
        ensures { IfOk result (λ r. (arcs : List GraphArc) → IsResting arcs count r) }
    {
        let progress = Progress {
            stage: Stage::New,
            next: 0,
            rank: 0,
        };
        Ok(Ranking {
            progress: List::from_vec(vec![in alloc; progress; count]?),
            root: 0,
            path: List::new(alloc),
            vertex: 0,
        })
    }

    /// Puts a vertex into a stage.
    fn set_stage(&mut self, vertex: u32, stage: Stage)
        requires { vertex < length self.old.progress }
        ensures { self.new ≡ with_stage stage vertex self.old }
    {
        let mut progress = *self.progress.at(vertex as usize);
        progress.stage = stage;
        self.progress.set(vertex as usize, progress);
    }

    /// Begins at a root.
    fn begin(&mut self, root: u32)
        requires { root < length self.old.progress }
        ensures { self.new ≡ begun self.old root }
    {
        self.set_stage(root, Stage::Open);
        self.root = root;
        self.vertex = root;
    }

    /// Passes the next arc into the vertex, with the rank that the arcs so far ask for.
    fn advance(&mut self, rank: u32)
        requires vertex { self.old.vertex < length self.old.progress }
        requires few { (progress_at self.old.progress self.old.vertex).next < 2 ^ 32 }
        ensures { self.new ≡ advanced self.old rank }
    {
        let mut progress = *self.progress.at(self.vertex as usize);
        progress.next += 1;
        progress.rank = rank;
        self.progress.set(self.vertex as usize, progress);
    }

    /// Goes back over an arc to its tail.
    fn open(&mut self, arc: u32, tail: u32) -> Result<(), NoMemory>
        requires { tail < length self.old.progress }
        ensures { OnOk result (self.new ≡ opened self.old arc tail) }
    {
        self.path.push(arc)?;
        self.set_stage(tail, Stage::Open);
        self.vertex = tail;
        Ok(())
    }

    /// Ranks the vertex, all arcs into which were looked at, and goes on at the head of the last arc, if there is one.
    fn close(&mut self, arcs: &[GraphArc]) -> bool
        requires vertex { self.old.vertex < length self.old.progress }
        requires path { All (λ a. a < length arcs.now) self.old.path }
        ensures { MatchBool result (ClosesOver arcs.now self.old self.new)
            ((self.old.path ≡ []) × (self.new ≡ ranked self.old)) }
    {
        self.set_stage(self.vertex, Stage::Ranked);
        let Some(last) = self.path.pop() else {
            return false;
        };
        self.vertex = arcs[last as usize].head;
        true
    }

    /// Makes a step, and says whether there is more to do before the root is ranked.
    fn step(
        &mut self,
        alloc: Global,
        arcs: &[GraphArc],
        into: &[List<u32>],
    ) -> Result<bool, GraphFault>
        requires few { length self.old.progress ≤ MAX_VERTICES }
        requires few_arcs { length arcs.now ≤ MAX_ARCS }
        requires between { AreBetween (length self.old.progress) arcs.now }
        requires into { into.now ≡ map (arcs_into arcs.now) (range_with_len 0 (length self.old.progress)) }
        requires search { IsSearch arcs.now (length self.old.progress) self.old }
        ensures steps { IfOk result (λ more. MatchBool more
            (GoesOn arcs.now (length self.old.progress) self.old self.new)
            (HasEnded arcs.now (length self.old.progress) self.old self.new)) }
        ensures fault { IfErr result (IsCycleFault arcs.now) }
    {
        let progress = *self.progress.at(self.vertex as usize);
        let into = into[self.vertex as usize].as_slice();
        if progress.next >= into.len() {
            return Ok(self.close(arcs));
        }
        self.pass(alloc, arcs, progress, into[progress.next])
    }

    /// Looks at the next arc into the vertex.
    fn pass(
        &mut self,
        alloc: Global,
        arcs: &[GraphArc],
        progress: Progress,
        arc: u32,
    ) -> Result<bool, GraphFault>
        requires few { length self.old.progress ≤ MAX_VERTICES }
        requires few_arcs { length arcs.now ≤ MAX_ARCS }
        requires between { AreBetween (length self.old.progress) arcs.now }
        requires progress { progress ≡ progress_at self.old.progress self.old.vertex }
        requires arc { IsNext arcs.now self.old arc }
        requires search { IsSearch arcs.now (length self.old.progress) self.old }
        ensures steps { IfOk result (λ more. MatchBool more
            (GoesOn arcs.now (length self.old.progress) self.old self.new)
            (HasEnded arcs.now (length self.old.progress) self.old self.new)) }
        ensures fault { IfErr result (IsCycleFault arcs.now) }
    {
        if !is_free_arc(&arcs[arc as usize]) {
            self.advance(progress.rank);
            return Ok(true);
        }
        let tail = arcs[arc as usize].tail;
        let before = *self.progress.at(tail as usize);
        match before.stage {
            Stage::Ranked => {
                self.advance(progress.rank.max(before.rank + 1));
                Ok(true)
            }
            Stage::New => {
                self.open(arc, tail)?;
                Ok(true)
            }
            Stage::Open => {
                let cycle = cycle_by(alloc, arcs, self.path.as_slice(), arc)?;
                Err(GraphFault::FreeCycle(cycle))
            }
        }
    }

    /// Searches from a root until it is ranked, unless a cycle is found.
    fn search(
        &mut self,
        alloc: Global,
        arcs: &[GraphArc],
        into: &[List<u32>],
        root: u32,
    ) -> Result<(), GraphFault>
        requires few { length self.old.progress ≤ MAX_VERTICES }
        requires few_arcs { length arcs.now ≤ MAX_ARCS }
        requires between { AreBetween (length self.old.progress) arcs.now }
        requires into { into.now ≡ map (arcs_into arcs.now) (range_with_len 0 (length self.old.progress)) }
        requires root { root < length self.old.progress }
        requires new { (progress_at self.old.progress root).stage ≡ New }
        requires resting { IsResting arcs.now (length self.old.progress) self.old }
        ensures ends { OnOk result (HasEnded arcs.now (length self.old.progress)
            (begun self.old root) self.new) }
        ensures fault { IfErr result (IsCycleFault arcs.now) }
    {
        self.begin(root);
        while self.step(alloc, arcs, into)? {}
        Ok(())
    }
}

/// The part of a path back that begins at a vertex on it.
fn part_from<'a>(arcs: &[GraphArc], path: &'a [u32], vertex: u32) -> &'a [u32]
    requires arcs { All (λ a. a < length arcs.now) path.now }
    ensures { (root v : ℕ) → LeadsBack arcs.now root path.now v → IsOn arcs.now root path.now vertex
        → LeadsBack arcs.now vertex result.now v }
{
    for (i, a) in path.iter().enumerate() {
        if arcs[*a as usize].tail == vertex {
            return &path[i + 1..];
        }
    }
    path
}

/// The cycle that an arc closes whose tail is on the path: the arcs back to the tail, then the arc.
fn cycle_by(alloc: Global, arcs: &[GraphArc], path: &[u32], arc: u32) -> Result<List<u32>, NoMemory>
    requires arc { arc < length arcs.now }
    requires free { is_free (arc_at arcs.now arc) ≡ true }
    requires path { (root : ℕ) × LeadsBack arcs.now root path.now (arc_at arcs.now arc).head
        × IsOn arcs.now root path.now (arc_at arcs.now arc).tail }
    ensures { IfOk result (IsFreeCycle arcs.now) }
{
    let part = part_from(arcs, path, arcs[arc as usize].tail);
    let mut cycle = Vec::from_slice(alloc, part)?;
    cycle.reverse();
    cycle.push(arc)?;
    Ok(List::from_vec(cycle))
}

/// Ranks all vertices: the rank of a vertex counts the arcs of the longest path into it of arcs without main
/// consumption. Where such arcs form a cycle it is refused, with the arcs of one.
///
/// The time is linear in the vertices and arcs.
pub(crate) fn rank_all(
    alloc: Global,
    count: usize,
    arcs: &[GraphArc],
    into: &[List<u32>],
) -> Result<List<u32>, GraphFault>
    requires few { count ≤ MAX_VERTICES }
    requires few_arcs { length arcs.now ≤ MAX_ARCS }
    requires between { AreBetween count arcs.now }
    requires into { into.now ≡ map (arcs_into arcs.now) (range_with_len 0 count) }
    ensures ranks { IfOk result (AreRanks arcs.now count) }
    ensures fault { IfErr result (IsCycleFault arcs.now) }
{
    let mut ranking = Ranking::new(alloc, count)?;
    for root in 0..count {
        if ranking.progress.at(root).stage == Stage::New {
            ranking.search(alloc, arcs, into, root as u32)?;
        }
    }
    let mut ranks = List::new(alloc);
    for progress in ranking.progress.as_slice() {
        ranks.push(progress.rank)?;
    }
    Ok(ranks)
}
