ghost use Rattle.std.specs.Prelude.{◌≡◌, ◌<◌, All, length};
ghost use Rattle.concatenate.specs.Fit.{MayJoin};
ghost use Rattle.proof_rules.specs.Proofs.{AreBoth};
ghost use Rattle.proof_check.specs.Checked.{IsProved, proof_in, setting_in, table_in};

use crate::proved::Proved;
use route_labels::Label;

/// The labels of the partial walks of a graph. They may be joined.
pub(crate) fn fore_labels<'a>(at: &Proved<'a>, g: u32) -> &'a [Label]
    requires proved { IsProved at.now }
    requires both { AreBoth at.now.model.now (proof_in at.now) }
    requires graph { g < length at.now.model.now.graphs }
    ensures labels { result.now ≡ (table_in at.now g).fore }
    ensures join { All (MayJoin (setting_in at.now g)) result.now }
{
    at.table(g).fore.as_slice()
}

/// The labels of the rests of a graph. They may be joined.
pub fn back_labels<'a>(at: &Proved<'a>, g: u32) -> &'a [Label]
    requires proved { IsProved at.now }
    requires both { AreBoth at.now.model.now (proof_in at.now) }
    requires graph { g < length at.now.model.now.graphs }
    ensures labels { result.now ≡ (table_in at.now g).back }
    ensures join { All (MayJoin (setting_in at.now g)) result.now }
{
    at.table(g).back.as_slice()
}
