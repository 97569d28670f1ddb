ghost use Rattle.std.specs.Prelude.{◌≡◌, pos};
ghost use Rattle.std.specs.Ordering.{int_eq};
ghost use Rattle.route_texts.specs.Stops.{has_number};

use route_tasks::Stop;

/// Where a stop lies.
#[derive(Clone, Copy, Debug)]
pub struct Point {
    pub x: i32,
    pub y: i32,
}

/// Whether a stop has this number.
pub fn has_number(number: u32, stops: &[Stop]) -> bool
    ensures { result ≡ has_number number stops.now }
{
    stops.iter().any(|stop| stop.number == number)
}

/// Whether a demand is 0.
pub fn is_zero(demand: i32) -> bool
    ensures { result ≡ int_eq demand (pos 0) }
{
    demand == 0
}
