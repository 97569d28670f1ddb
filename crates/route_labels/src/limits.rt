ghost use Rattle.std.specs.Prelude.{◌≡◌, ◌↔◌, ◌^◌, pos, neg_ℤ, ◌+ℤ◌, ◌*ℤ◌, ◌≤ℤ◌, IsTrue};
ghost use Rattle.path_graph.specs.Within.{IsWithin};

/// The furthest that the cost of the label at a level of -2^38 may be from 0.
const START_COST: i128 = 1 << 112;

/// By how much the range of costs grows with each level.
const COST_OF_LEVEL: i128 = 1 << 73;

/// No level is further from 0.
const LEVELS: i128 = 1 << 38;

/// How far the cost of a label may be from 0 at its level.
fn cost_limit(level: i64) -> i128
    requires { IsWithin (2 ^ 38) level }
    ensures limit { result ≡ pos (2 ^ 112) +ℤ (pos (2 ^ 73) *ℤ (level +ℤ pos (2 ^ 38))) }
    ensures range { IsWithin (2 ^ 113) result }
{
    START_COST + COST_OF_LEVEL * (i128::from(level) + LEVELS)
}

/// Whether a cost is at most a limit from 0.
fn is_within(cost: i128, limit: i128) -> bool
    requires { IsWithin (2 ^ 113) limit }
    ensures { IsTrue result ↔ (((neg_ℤ limit) ≤ℤ cost) × (cost ≤ℤ limit)) }
{
    -limit <= cost && cost <= limit
}

/// Whether a cost lies in the range of its level.
pub(crate) fn is_in_range(cost: i128, level: i64) -> bool
    requires { IsWithin (2 ^ 38) level }
    ensures { IsTrue result ↔ (((neg_ℤ (pos (2 ^ 112) +ℤ (pos (2 ^ 73) *ℤ (level +ℤ pos (2 ^ 38))))) ≤ℤ cost)
        × (cost ≤ℤ (pos (2 ^ 112) +ℤ (pos (2 ^ 73) *ℤ (level +ℤ pos (2 ^ 38)))))) }
{
    is_within(cost, cost_limit(level))
}

/// The level of a label of a rest, from that of its values at its vertex.
pub(crate) fn negated(level: i64) -> i64
    requires { IsWithin (2 ^ 38) level }
    ensures negated { result ≡ neg_ℤ level }
    ensures range { IsWithin (2 ^ 38) result }
{
    -level
}
