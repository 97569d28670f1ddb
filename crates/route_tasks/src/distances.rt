ghost use Rattle.std.specs.Prelude.{◌≡◌, ℕ, ◌*◌, ◌+◌, ◌-◌, ◌<◌, ◌≤◌, ◌≤ℤ◌, pos, unsigned_abs};
ghost use Rattle.route_tasks.specs.Distance.{squared, squared_gap, IsDistance, distance_of, IsPlaced, IsGreatest, IsEuclid, IsTenths};

use crate::limits::{MAX_DISTANCE, MAX_GAP, MAX_SQUARED};
use crate::task::{RouteTask, Stop, Style};

/// The distance of two stops.
///
/// In `Euclid` it is 0 where they lie at one point, and else the greatest `d` with `(2 × d - 1)²` at most 4 times the
/// squared distance. In `Tenths` it is the greatest `d` with `d²` at most 100 times the squared distance.
pub fn distance(task: &RouteTask, a: &Stop, b: &Stop) -> i64
    requires first { IsPlaced a.now }
    requires second { IsPlaced b.now }
    ensures rule { IsDistance task.now.style (squared a.now b.now) (unsigned_abs result) }
    ensures value { result ≡ pos (distance_of task.now.style a.now b.now) }
    ensures bound { result ≤ℤ pos MAX_DISTANCE }
{
    rounded(task.style, square_of(a, b)) as i64
}

/// The distance of a squared one.
fn rounded(style: Style, square: u64) -> u64
    requires { square ≤ MAX_SQUARED }
    ensures rule { IsDistance style square result }
    ensures bound { result ≤ MAX_DISTANCE }
{
    match style {
        Style::Euclid => nearest(square),
        Style::Tenths => cut_off(square),
    }
}

/// The root rounded to the nearest integer, up where it lies halfway.
fn nearest(square: u64) -> u64
    requires { square ≤ MAX_SQUARED }
    ensures rule { IsEuclid square result }
    ensures bound { result ≤ MAX_DISTANCE }
{
    ((4 * square).isqrt() + 1) / 2
}

/// Ten times the root, rounded down.
fn cut_off(square: u64) -> u64
    requires { square ≤ MAX_SQUARED }
    ensures rule { IsTenths square result }
    ensures bound { result ≤ MAX_DISTANCE }
{
    (100 * square).isqrt()
}

/// The squared distance of two stops.
fn square_of(a: &Stop, b: &Stop) -> u64
    requires first { IsPlaced a.now }
    requires second { IsPlaced b.now }
    ensures square { result ≡ squared a.now b.now }
    ensures bound { result ≤ MAX_SQUARED }
{
    squared_of(a.x.abs_diff(b.x)) + squared_of(a.y.abs_diff(b.y))
}

/// The square of how far two coordinates are apart.
fn squared_of(gap: u32) -> u64
    requires { gap ≤ MAX_GAP }
    ensures square { result ≡ gap * gap }
    ensures bound { result ≤ MAX_GAP * MAX_GAP }
{
    u64::from(gap) * u64::from(gap)
}
