ghost use Rattle.std.specs.Prelude.{◌≡◌, ◌↔◌, ◌<◌, ◌^◌, IfSome, IsTrue, length};
ghost use Rattle.path_graph.specs.Within.{IsWithin};
ghost use Rattle.proof_rules.specs.Proofs.{ClosesAgainst};
ghost use Rattle.proof_check.specs.Checked.{IsProved, bound_in, limit_in};

use crate::proved::Proved;
use safe_bound::{bound_value, closes, walk_limit};

/// Whether a proof closes its place against z: its bound shows that no solution there costs less.
pub fn closes_place(at: &Proved, z: i64) -> bool
    requires { IsProved at.now }
    ensures { IsTrue result ↔ ClosesAgainst z (bound_in at.now) }
{
    let checked = at.checked;
    let bound = bound_value(&checked.priced, &at.spot.boxes, checked.leasts.as_slice());
    closes(&bound, z)
}

/// The limit of a walk of a graph against z: none where every walk is above it.
pub fn limit_at(at: &Proved, g: u32, z: i64) -> Option<i128>
    requires proved { IsProved at.now }
    requires graph { g < length at.now.model.now.graphs }
    ensures limit { result ≡ limit_in at.now z g }
    ensures range { IfSome result (IsWithin (2 ^ 126)) }
{
    let checked = at.checked;
    walk_limit(
        &checked.priced,
        &at.spot.boxes,
        checked.leasts.as_slice(),
        g,
        z,
    )
}
