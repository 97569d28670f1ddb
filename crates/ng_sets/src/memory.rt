ghost use Rattle.std.specs.Prelude.{◌↔◌, ◌<◌, IfSome, IsNone};
ghost use Rattle.path_graph.specs.declared.limits.TheConstants.{MAX_SETS};
ghost use Rattle.path_graph.specs.SetBits.{IsWhole};
ghost use Rattle.ng_sets.specs.Memory.{IsRemembered, Remembers};

use path_graph::SetBits;

/// The memory after a visit to a vertex with these sets near it, or `None` where the visit is refused.
///
/// A visit to a vertex in a packing set is refused where that set is in the memory. Else what is remembered is what was
/// and is near the vertex, and the set. A vertex in no set is never refused, and adds none.
///
/// With memory 0, 2 and near 0, 1 a visit to set 1 leaves 0, 1, a visit to set 2 is refused, and a visit to no set
/// leaves 0. So set 2 is forgotten by the visit to 1, and may be visited next: that is what the relaxation allows.
pub fn visit(memory: &SetBits, near: &SetBits, set: Option<u16>) -> Option<SetBits>
    requires { IfSome set (λ s. s < MAX_SETS) }
    ensures refused { IsNone result ↔ IsRemembered memory.now set }
    ensures after { IfSome result (Remembers memory.now near.now set) }
    ensures whole { IfSome result IsWhole }
{
    let kept = memory.meet(near);
    match set {
        None => Some(kept),
        Some(s) if memory.has(s) => None,
        Some(s) => Some(kept.with(s)),
    }
}
