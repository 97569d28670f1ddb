ghost use Rattle.std.specs.Prelude.{◌≡◌, ◌↔◌, ℕ, ◌+◌, ◌-◌, ◌<◌, ◌≤◌, ◌^◌, [], All, IfOk, length};
ghost use Rattle.path_graph.specs.Walk.{IsFeasibleWalk};
ghost use Rattle.rank1_cuts.specs.Fit.{CutFits};
ghost use Rattle.route_model.specs.Parts.{ModelParts, graph_in};
ghost use Rattle.column_pool.specs.declared.limits.TheConstants.{MAX_WALK_ARCS};
ghost use Rattle.column_pool.specs.Changes.{Adds};
ghost use Rattle.column_pool.specs.Columns.{column_of};
ghost use Rattle.column_pool.specs.Walks.{AreDistinct, IsNumbered, IsPoolOf, place_count, walk_at};

use crate::column::walk_column;
use crate::index::{Numbers, empty_maps, number_of};
use crate::kept::KeptWalk;
use crate::putting::put_walk;
use fixed_master::Column;
use path_graph::NoMemory;
use rank1_cuts::Cut;
use route_model::Model;
use std::alloc::Global;

/// What a pool answers to a walk: the number of the walk, which is new or was there, or that memory ran out.
#[derive(Clone, Copy, Debug, PartialEq, Eq)]
pub enum Known {
    New(u32),
    Had(u32),
    Memory,
}

/// The walks that a column generation over a model has found, numbered as they came, without repetition.
#[derive(Drop)]
pub struct Pool {
    alloc: Global,
    vars: u32,
    rows: u32,
    sets: u32,
    walks: Vec<KeptWalk>,
    maps: Vec<Numbers>,
}

impl std::marker::Model for Pool {
    ghost use Rattle.std.specs.Prelude.{length, map};
    ghost use Rattle.column_pool.specs.Walks.{PoolParts};

    ghost Value = { PoolParts };

    ghost use Rattle.column_pool.specs.Index.{IsSound, entries_of};

    ghost view = { λ p. record { vars = p.vars; rows = p.rows; sets = p.sets; graphs = length p.maps.items; walks = p.walks.items } };

    ghost invariant = { λ p. IsSound (map entries_of p.maps.items) p.walks.items };
}

impl Pool {
    /// The empty pool of a model.
    pub fn new(alloc: Global, model: &Model) -> Result<Pool, NoMemory>
        ensures model { IfOk result (IsPoolOf model.now) }
        ensures empty { IfOk result (λ pool. pool.walks ≡ []) }
    {
        let maps = empty_maps(alloc, model.graphs.len())?;
        Ok(Pool {
            alloc,
            vars: model.vars.len() as u32,
            rows: model.rows.len() as u32,
            sets: u32::from(model.sets),
            walks: Vec::new(alloc),
            maps,
        })
    }

    /// Adds a walk of the model, unless it is there already, and answers its number.
    ///
    /// The look-up compares with logarithmically many walks. For a new walk the time is linear in its arcs with the
    /// variables that they map, the quantities of the model and the terms of its rows; it is spent once.
    pub fn add(&mut self, model: &Model, g: u32, arcs: &[u32]) -> Known
        requires model { IsPoolOf model.now self.old }
        requires graph { g < length model.now.graphs }
        requires walk { IsFeasibleWalk (graph_in model.now.graphs g) arcs.now }
        requires few { length arcs.now ≤ MAX_WALK_ARCS }
        ensures had { (number : ℕ) → (result ≡ Known.Had number) ↔ IsNumbered self.old.walks number g arcs.now }
        ensures adds { Adds self.old self.new g arcs.now result }
        ensures model { IsPoolOf model.now self.new }
    {
        if let Some(number) = number_of(self.maps.as_slice(), g, arcs) {
            return Known::Had(number);
        }
        let put = put_walk(self.alloc, &mut self.walks, &mut self.maps, model, g, arcs);
        let Ok(number) = put else {
            return Known::Memory;
        };
        Known::New(number)
    }

    /// How many walks there are.
    pub fn len(&self) -> u32
        ensures len { result ≡ length self.now.walks }
        ensures distinct { AreDistinct self.now.walks }
    {
        self.walks.len() as u32
    }

    /// The graph and the arcs of a walk.
    pub fn walk(&self, i: u32) -> (u32, &[u32])
        requires { i < length self.now.walks }
        ensures graph { result.0 ≡ (walk_at self.now.walks i).graph }
        ensures arcs { result.1.now ≡ (walk_at self.now.walks i).arcs }
    {
        let walk = kept_at(self.walks.as_slice(), i);
        (walk.graph, walk.arcs.as_slice())
    }

    /// The column of a walk: its cost, and an entry for each quantity of which it has some, by rows.
    ///
    /// The rows are the variables, then the rows of the model, the packing sets, the cuts and the path counts. The cost
    /// is in units of the model, not scaled. The time is linear in the entries and in the cuts with the visits of the
    /// walk.
    pub fn column(&self, alloc: Global, i: u32, cuts: &[Cut]) -> Result<Column, NoMemory>
        requires walk { i < length self.now.walks }
        requires cuts { All CutFits cuts.now }
        requires places { place_count self.now + length cuts.now < 2 ^ 32 - 1 }
        ensures { IfOk result (λ column. (m : ModelParts) → IsPoolOf m self.now
            → column ≡ column_of m cuts.now (walk_at self.now.walks i).graph (walk_at self.now.walks i).arcs) }
    {
        let first_cut = self.vars as usize + self.rows as usize + self.sets as usize;
        let walk = kept_at(self.walks.as_slice(), i);
        let column = walk_column(alloc, walk, first_cut, cuts)?;
        Ok(column)
    }
}

/// What is kept of a walk, by its number.
fn kept_at(walks: &[KeptWalk], i: u32) -> &KeptWalk
    requires { i < length walks.now }
    ensures { result.now ≡ walk_at walks.now i }
{
    &walks[i as usize]
}
