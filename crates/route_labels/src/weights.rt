ghost use Rattle.std.specs.Prelude.{◌≡◌, ◌<◌, ◌*◌, ◌≤◌, length};
ghost use Rattle.multipliers.specs.Quantities.{cut_at};
ghost use Rattle.label_rules.specs.Labels.{one_if};

use rank1_cuts::Cut;

/// A weight where it counts, and else 0.
pub fn weight_if(weight: u64, counts: bool) -> u64
    ensures weight { result ≡ weight * one_if counts }
    ensures light { result ≤ weight }
{
    if counts { weight } else { 0 }
}

/// The denominator of a cut by number.
pub fn den_of(cuts: &[Cut], i: usize) -> u8
    requires { i < length cuts.now }
    ensures { result ≡ (cut_at cuts.now i).den }
{
    cuts[i].den
}
