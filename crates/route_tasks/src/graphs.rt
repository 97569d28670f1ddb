ghost use Rattle.std.specs.Prelude.{◌≡◌, ◌≢◌, ℕ, ◌+◌, ◌-◌, ◌<◌, ◌≤◌, ◌≤ℤ◌, ◌+ℤ◌, ◌*ℤ◌, ◌++◌, ◌∷◌, [], Bool, IsTrue, ◌↔◌, All, map, IfOk, OnOk, pos, length};
ghost use Rattle.std.specs.List.{range_with_len, flat_map};
ghost use Rattle.path_graph.specs.Fit.{PartsFit};
ghost use Rattle.path_graph.specs.Free.{HasNoFreeCycle};
ghost use Rattle.route_tasks.specs.Fit.{TaskFits, StopFits, IsFromTo};
ghost use Rattle.route_tasks.specs.Places.{customers, place_at};
ghost use Rattle.route_tasks.specs.ModelOf.{is_timed, is_load_main, laid, window, windows_of, time_need, stop_need, needs_of, set_of, vertex_of, arc_of, is_head, arcs_at, arcs_of, ends_of, vertices_of, graph_of, mapped_of};
ghost use Rattle.route_tasks.specs.Shape.{shape_of};

use crate::distances::distance;
use crate::limits::{MAX_CUSTOMERS, MAX_DISTANCE, MAX_TIME, TENTHS};
use crate::places::{arc_variable, customer_count, place};
use crate::task::{RouteTask, Stop, Style};
use path_graph::{Ends, Graph, GraphArc, GraphFault, List, NoMemory, Vertex, Window};
use std::alloc::Global;

/// Whether time is kept, and whether load is main.
#[derive(Clone, Copy, Debug)]
struct Shape {
    timed: bool,
    load_is_main: bool,
}

/// Which resources a task has.
fn task_shape(task: &RouteTask) -> Shape
    ensures { result ≡ shape_of task.now }
{
    Shape {
        timed: keeps_time(task.style),
        load_is_main: all_demand(task),
    }
}

/// Whether time is kept.
fn keeps_time(style: Style) -> bool
    ensures { result ≡ is_timed style }
{
    match style {
        Style::Euclid => false,
        Style::Tenths => true,
    }
}

/// Whether every customer has a demand.
fn all_demand(task: &RouteTask) -> bool
    ensures { result ≡ is_load_main task.now }
{
    task.stops.as_slice().iter().all(|stop| stop.demand > 0)
}

/// The windows of time, stops and load in their positions.
fn laid_windows(shape: Shape, time: Window, stops: Window, load: Window) -> [Window; 6]
    ensures { result ≡ laid shape.timed shape.load_is_main time stops load (window (pos 0) (pos 0)) }
{
    let none = Window { low: 0, high: 0 };
    match (shape.timed, shape.load_is_main) {
        (true, true) => [time, load, none, none, none, none],
        (true, false) => [time, stops, load, none, none, none],
        (false, true) => [load, none, none, none, none, none],
        (false, false) => [stops, none, load, none, none, none],
    }
}

/// The needs of time, stops and load in their positions.
fn laid_needs(shape: Shape, time: i32, stops: i32, load: i32) -> [i32; 6]
    ensures { result ≡ laid shape.timed shape.load_is_main time stops load (pos 0) }
{
    match (shape.timed, shape.load_is_main) {
        (true, true) => [time, load, 0, 0, 0, 0],
        (true, false) => [time, stops, load, 0, 0, 0],
        (false, true) => [load, 0, 0, 0, 0, 0],
        (false, false) => [stops, 0, load, 0, 0, 0],
    }
}

/// A number of tenths.
fn tenfold(amount: i32) -> i32
    requires { IsFromTo (pos 0) MAX_TIME amount }
    ensures value { result ≡ TENTHS *ℤ amount }
    ensures low { pos 0 ≤ℤ result }
    ensures high { result ≤ℤ (TENTHS *ℤ MAX_TIME) }
{
    TENTHS * amount
}

/// The times of a stop, in tenths.
fn time_window(stop: Stop) -> Window
    requires { StopFits stop }
    ensures { result ≡ window (TENTHS *ℤ stop.ready) (TENTHS *ℤ stop.due) }
{
    let low = tenfold(stop.ready);
    let high = tenfold(stop.due);
    Window { low, high }
}

/// As many stops as there are customers.
fn stop_window(task: &RouteTask) -> Window
    requires { TaskFits task.now }
    ensures { result ≡ window (pos 0) (pos (customers task.now)) }
{
    Window {
        low: 0,
        high: customer_count(task) as i32,
    }
}

/// A load up to the capacity.
fn load_window(task: &RouteTask) -> Window
    ensures { result ≡ window (pos 0) task.now.capacity }
{
    Window {
        low: 0,
        high: task.capacity,
    }
}

/// The windows of a place.
fn windows(task: &RouteTask, shape: Shape, v: u32) -> [Window; 6]
    requires fits { TaskFits task.now }
    requires of_task { shape ≡ shape_of task.now }
    ensures { result ≡ windows_of task.now v }
{
    let time = time_window(place(task, v));
    let stops = stop_window(task);
    let load = load_window(task);
    laid_windows(shape, time, stops, load)
}

/// The packing set of a place: customer `i` is in set `i - 1`.
fn set(n: u32, v: u32) -> Option<u16>
    requires { n ≤ MAX_CUSTOMERS }
    ensures { result ≡ set_of n v }
{
    if v > 0 && v <= n {
        Some((v - 1) as u16)
    } else {
        None
    }
}

/// The vertex of a place.
fn vertex(task: &RouteTask, shape: Shape, v: u32) -> Vertex
    requires fits { TaskFits task.now }
    requires of_task { shape ≡ shape_of task.now }
    ensures { result ≡ vertex_of task.now v }
{
    Vertex {
        set: set(customer_count(task), v),
        windows: windows(task, shape, v),
    }
}

/// The vertices: the source, the customers and the sink.
fn vertices(alloc: Global, task: &RouteTask, shape: Shape) -> Result<List<Vertex>, NoMemory>
    requires fits { TaskFits task.now }
    requires of_task { shape ≡ shape_of task.now }
    ensures { IfOk result (λ vertices. vertices ≡ vertices_of task.now) }
{
    let mut vertices = List::new(alloc);
    for v in 0..customer_count(task) + 2 {
        vertices.push(vertex(task, shape, v))?;
    }
    Ok(vertices)
}

/// The time over an arc: the service at its tail, and the distance.
fn time_of(task: &RouteTask, tail: u32, head: u32) -> i32
    requires { TaskFits task.now }
    ensures { result ≡ time_need task.now tail head }
{
    let from = place(task, tail);
    let to = place(task, head);
    sum(tenfold(from.service), distance(task, &from, &to))
}

/// A time and a distance.
fn sum(time: i32, distance: i64) -> i32
    requires first { IsFromTo (pos 0) (TENTHS *ℤ MAX_TIME) time }
    requires second { IsFromTo (pos 0) (pos MAX_DISTANCE) distance }
    ensures { result ≡ time +ℤ distance }
{
    time + distance as i32
}

/// One stop at each customer.
fn stops_at(n: u32, head: u32) -> i32
    ensures { result ≡ stop_need n head }
{
    if head > n { 0 } else { 1 }
}

/// What the arc between two places consumes.
fn needs(task: &RouteTask, shape: Shape, tail: u32, head: u32) -> [i32; 6]
    requires fits { TaskFits task.now }
    requires of_task { shape ≡ shape_of task.now }
    ensures { result ≡ needs_of task.now tail head }
{
    let time = time_of(task, tail, head);
    let stops = stops_at(customer_count(task), head);
    let load = place(task, head).demand;
    laid_needs(shape, time, stops, load)
}

/// The arc between two places.
fn arc(task: &RouteTask, shape: Shape, tail: u32, head: u32) -> GraphArc
    requires fits { TaskFits task.now }
    requires of_task { shape ≡ shape_of task.now }
    ensures { result ≡ arc_of task.now tail head }
{
    GraphArc {
        tail,
        head,
        needs: needs(task, shape, tail, head),
    }
}

/// Whether an arc leads from a place to another.
fn leads(n: u32, tail: u32, head: u32) -> bool
    requires { n ≤ MAX_CUSTOMERS }
    ensures { result ≡ is_head n tail head }
{
    head != tail && !(tail == 0 && head == n + 1)
}

/// Appends the arcs out of a place.
fn push_arcs(
    alloc: Global,
    arcs: &mut List<GraphArc>,
    task: &RouteTask,
    shape: Shape,
    tail: u32,
) -> Result<(), NoMemory>
    requires fits { TaskFits task.now }
    requires of_task { shape ≡ shape_of task.now }
    ensures { OnOk result (arcs.new ≡ arcs.old ++ arcs_at task.now tail) }
{
    for head in 1..customer_count(task) + 2 {
        if leads(customer_count(task), tail, head) {
            arcs.push(arc(task, shape, tail, head))?;
        }
    }
    Ok(())
}

/// The arcs, by tail, then by head.
pub(crate) fn arcs(alloc: Global, task: &RouteTask) -> Result<List<GraphArc>, NoMemory>
    requires { TaskFits task.now }
    ensures { IfOk result (λ arcs. arcs ≡ arcs_of task.now) }
{
    let mut arcs = List::new(alloc);
    for tail in 0..customer_count(task) + 1 {
        push_arcs(alloc, &mut arcs, task, task_shape(task), tail)?;
    }
    Ok(arcs)
}

/// The ends, the path bounds and the numbers of resources.
fn ends(task: &RouteTask, shape: Shape) -> Ends
    requires fits { TaskFits task.now }
    requires of_task { shape ≡ shape_of task.now }
    ensures { result ≡ ends_of task.now }
{
    Ends {
        source: 0,
        sink: customer_count(task) + 1,
        low: 0,
        high: task.vehicles.min(customer_count(task)),
        mains: if shape.timed { 2 } else { 1 },
        seconds: if shape.load_is_main { 0 } else { 1 },
    }
}

/// The graph of a task with these arcs, in which no arcs without main consumption form a cycle.
pub(crate) fn graph(alloc: Global, task: &RouteTask, arcs: &[GraphArc]) -> Result<Graph, NoMemory>
    requires fits { TaskFits task.now }
    requires arcs_of_task { arcs.now ≡ arcs_of task.now }
    ensures { IfOk result (λ graph. graph ≡ graph_of task.now) }
{
    let shape = task_shape(task);
    let vertices = vertices(alloc, task, shape)?;
    match Graph::new(alloc, ends(task, shape), vertices.as_slice(), arcs) {
        Ok(graph) => Ok(graph),
        Err(GraphFault::FreeCycle(_)) => unreachable!(),
        Err(GraphFault::Memory) => Err(NoMemory),
    }
}

/// The variable of an arc, in a list.
fn mapped(alloc: Global, n: u32, arc: &GraphArc) -> Result<List<u32>, NoMemory>
    requires few { n ≤ MAX_CUSTOMERS }
    requires from { arc.now.tail ≤ n }
    requires to { 1 ≤ arc.now.head }
    requires different { arc.now.head ≢ arc.now.tail }
    requires not_both { arc.now.tail ≡ 0 → arc.now.head ≤ n }
    ensures { IfOk result (λ vars. vars ≡ mapped_of n arc.now) }
{
    let mut vars = List::new(alloc);
    vars.push(arc_variable(n, arc.tail, arc.head))?;
    Ok(vars)
}

/// The variable of each arc.
pub(crate) fn maps(
    alloc: Global,
    task: &RouteTask,
    arcs: &[GraphArc],
) -> Result<List<List<u32>>, NoMemory>
    requires fits { TaskFits task.now }
    requires arcs_of_task { arcs.now ≡ arcs_of task.now }
    ensures { IfOk result (λ maps. maps ≡ map (mapped_of (customers task.now)) (arcs_of task.now)) }
{
    let n = customer_count(task);
    let mut maps = List::new(alloc);
    for arc in arcs {
        maps.push(mapped(alloc, n, arc)?)?;
    }
    Ok(maps)
}
