ghost use Rattle.std.specs.Prelude.{◌≡◌, ◌+◌, ◌≤◌, IfOk};
ghost use Rattle.vrp_demo.specs.Draws.{state};
ghost use Rattle.vrp_demo.specs.Stops.{depot_from, customer_from, stops};

use crate::draws::Draws;
use path_graph::{List, NoMemory};
use std::alloc::Global;

/// Where a vehicle stops: a place on a grid of 100 by 100, and what it delivers there in units of load, 0 at the depot.
#[derive(Clone, Copy)]
pub(crate) struct Stop {
    pub(crate) x: u8,
    pub(crate) y: u8,
    pub(crate) demand: u8,
}

impl Draws {
    /// The depot: its X, then its Y.
    fn depot(&mut self) -> Stop
        requires { self.old.state ≤ 65536 }
        ensures stop { result ≡ depot_from self.old.state }
        ensures state { self.new.state ≡ state self.old.state 2 }
    {
        let x = self.draw(100);
        let y = self.draw(100);
        Stop { x, y, demand: 0 }
    }

    /// A customer: its X, then its Y, then its demand.
    fn customer(&mut self) -> Stop
        requires { self.old.state ≤ 65536 }
        ensures stop { result ≡ customer_from self.old.state }
        ensures state { self.new.state ≡ state self.old.state 3 }
    {
        let x = self.draw(100);
        let y = self.draw(100);
        let demand = 1 + self.draw(4);
        Stop { x, y, demand }
    }
}

/// The stop at each vertex: the depot, the customers in the order in which they are drawn, and the depot again.
pub(crate) fn stops_of(alloc: Global, seed: u32, size: u32) -> Result<List<Stop>, NoMemory>
    requires { seed ≤ 65536 }
    ensures { IfOk result (λ them. them ≡ stops seed size) }
{
    let mut draws = Draws { state: seed };
    let depot = draws.depot();
    let mut stops = List::new(alloc);
    stops.push(depot)?;
    for _ in 0..size {
        stops.push(draws.customer())?;
    }
    stops.push(depot)?;
    Ok(stops)
}
