ghost use Rattle.std.specs.Prelude.{◌↔◌, false, All, IfErr, IfOk, IsTrue};
ghost use Rattle.rank1_cuts.specs.Fit.{CutFits};
ghost use Rattle.route_model.specs.Places.{SpotFits};
ghost use Rattle.multipliers.specs.Priced.{IsPriced};
ghost use Rattle.multipliers.specs.Ranges.{AreInRange};
ghost use Rattle.proof_check.specs.Demands.{IsMet, Sides, TellsOf};
ghost use Rattle.proof_check.specs.Keeps.{ProofKeeps};

use crate::error::ProofError;
use certificate::Proof;
use multipliers::priced;
use rank1_cuts::{Cut, cut_fits};
use route_model::{Model, MultFault, Priced, Spot};
use std::alloc::Global;

/// What the multipliers make of the place; `Side` where a cut does not fit, or a multiplier needs an open side.
pub(crate) fn prices(
    alloc: Global,
    model: &Model,
    spot: &Spot,
    proof: &Proof,
) -> Result<Priced, ProofError>
    requires spot { SpotFits model.now spot.now }
    requires keeps { ProofKeeps model.now proof.now }
    ensures cuts { IfOk result (λ p. All CutFits proof.now.cuts) }
    ensures priced { IfOk result (IsPriced model.now proof.now.cuts spot.now.boxes proof.now.mult) }
    ensures range { IfOk result (AreInRange spot.now.boxes) }
    ensures side { IfErr result (TellsOf (IsMet model.now spot.now proof.now false Sides) ProofError.Side) }
{
    if !cuts_fit(proof.cuts.as_slice()) {
        return Err(ProofError::Side);
    }
    match priced(
        alloc,
        model,
        &spot.boxes,
        proof.cuts.as_slice(),
        &proof.mult,
    ) {
        Ok(priced) => Ok(priced),
        Err(MultFault::OpenSide(_)) => Err(ProofError::Side),
        Err(MultFault::Memory) => Err(ProofError::Memory),
    }
}

/// Whether each cut fits.
fn cuts_fit(cuts: &[Cut]) -> bool
    ensures { IsTrue result ↔ All CutFits cuts.now }
{
    cuts.iter().all(|cut| cut_fits(cut).is_ok())
}
