ghost use Rattle.std.specs.Prelude.{◌≡◌, ◌≢◌, ℕ, ◌+◌, ◌*◌, ◌-◌, ◌<◌, ◌≤◌, length};
ghost use Rattle.route_tasks.specs.Fit.{TaskFits, StopFits};
ghost use Rattle.route_tasks.specs.Places.{customers, place_at, pairs_before, variable, or_depot};

use crate::limits::MAX_CUSTOMERS;
use crate::task::{RouteTask, Stop};

/// How many customers there are.
pub(crate) fn customer_count(task: &RouteTask) -> u32
    requires { TaskFits task.now }
    ensures count { result ≡ customers task.now }
    ensures some { 1 ≤ result }
    ensures few { result ≤ MAX_CUSTOMERS }
{
    task.stops.len() as u32
}

/// The stop of a place: the depot is place 0, and also stands past the customers.
pub(crate) fn place(task: &RouteTask, v: u32) -> Stop
    requires { TaskFits task.now }
    ensures place { result ≡ place_at task.now v }
    ensures fits { StopFits result }
{
    if v == 0 || v > customer_count(task) {
        return task.depot;
    }
    *task.stops.at(v as usize - 1)
}

/// How many pairs of places have a lower place below this one.
fn pairs_below(n: u32, low: u32) -> u32
    requires few { n ≤ MAX_CUSTOMERS }
    requires place { low ≤ n }
    ensures count { result ≡ pairs_before n low }
    ensures small { result ≤ MAX_CUSTOMERS * MAX_CUSTOMERS }
{
    low * (2 * n + 1 - low) / 2
}

/// The variable of a lower and a higher place.
fn pair(n: u32, low: u32, high: u32) -> u32
    requires few { n ≤ MAX_CUSTOMERS }
    requires order { low < high }
    requires place { high ≤ n }
    ensures { result ≡ pairs_before n low + (high - low - 1) }
{
    pairs_below(n, low) + (high - low - 1)
}

/// The variable of two places, in either order.
pub(crate) fn variable_at(n: u32, u: u32, v: u32) -> u32
    requires few { n ≤ MAX_CUSTOMERS }
    requires first { u ≤ n }
    requires second { v ≤ n }
    requires different { u ≢ v }
    ensures { result ≡ variable n u v }
{
    if u < v { pair(n, u, v) } else { pair(n, v, u) }
}

/// The variable of the two places of an arc, of which the head may be the sink.
pub(crate) fn arc_variable(n: u32, tail: u32, head: u32) -> u32
    requires few { n ≤ MAX_CUSTOMERS }
    requires from { tail ≤ n }
    requires to { 1 ≤ head }
    requires different { head ≢ tail }
    requires not_both { tail ≡ 0 → head ≤ n }
    ensures { result ≡ variable n tail (or_depot n head) }
{
    if head > n {
        variable_at(n, tail, 0)
    } else {
        variable_at(n, tail, head)
    }
}
