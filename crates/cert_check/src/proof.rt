ghost use Rattle.std.specs.Prelude.{MatchResult, true, false, IsTrue, ◌↔◌, All};
ghost use Rattle.route_model.specs.Places.{SpotFits};
ghost use Rattle.proof_rules.specs.Nodes.{AtPlace, IsFixed};
ghost use Rattle.proof_rules.specs.Proofs.{AreBoth};
ghost use Rattle.proof_check.specs.Checked.{IsProved, proof_in};
ghost use Rattle.cert_check.specs.Faults.{Stands};
ghost use Rattle.cert_check.specs.Proofs.{IsChecked, IsProofError};
ghost use Rattle.cert_check.specs.Reads.{IsNodeError};
ghost use Rattle.certificate.specs.CertFits.{ProofFits};

use crate::fault::{CheckKind, NodeError};
use certificate::{NodeForm, Proof};
use proof_check::{Checked, Proved, check_proof, closes_place, is_fixed};
use route_model::{Model, Spot};
use std::alloc::Global;

/// Checks a proof at a place, with both lists of each table where these are asked for.
pub(crate) fn checked_proof(
    alloc: Global,
    model: &Model,
    spot: &Spot,
    proof: &Proof,
    whole: bool,
) -> Result<Checked, NodeError>
    requires fits { SpotFits model.now spot.now }
    requires told { ProofFits model.now proof.now }
    ensures { MatchResult result (IsChecked model.now spot.now whole proof.now) (IsProofError model.now spot.now whole proof.now) }
{
    match check_proof(alloc, model, spot, proof, whole) {
        Ok(checked) => Ok(checked),
        Err(error) => Err(NodeError::from(error)),
    }
}

/// Checks that a proof closes the place against z.
pub(crate) fn close_place(
    alloc: Global,
    model: &Model,
    z: i64,
    spot: &Spot,
    proof: &Proof,
) -> Result<(), NodeError>
    requires fits { SpotFits model.now spot.now }
    requires told { ProofFits model.now proof.now }
    ensures { MatchResult result (λ _. Stands model.now z (AtPlace spot.now) (NodeForm.Close proof.now))
        (IsNodeError model.now z (AtPlace spot.now) (NodeForm.Close proof.now)) }
{
    match checked_proof(alloc, model, spot, proof, false) {
        Err(error) => Err(error),
        Ok(checked) => {
            let at = Proved {
                model,
                spot,
                proof,
                checked: &checked,
            };
            if closes_place(&at, z) {
                Ok(())
            } else {
                Err(NodeError::Fault(CheckKind::Bound))
            }
        }
    }
}

/// Whether each arc of a list may be dropped.
fn are_fixed(at: &Proved, arcs: &[(u32, u32)], z: i64) -> bool
    requires proved { IsProved at.now }
    requires both { AreBoth at.now.model.now (proof_in at.now) }
    ensures { IsTrue result ↔ All (IsFixed at.now.model.now z at.now.spot.now (proof_in at.now)) arcs.now }
{
    for arc in arcs {
        if !is_fixed(at, *arc, z) {
            return false;
        }
    }
    true
}

/// Checks that a proof lets arcs be dropped.
pub(crate) fn fix_arcs(
    alloc: Global,
    model: &Model,
    z: i64,
    spot: &Spot,
    proof: &Proof,
    arcs: &[(u32, u32)],
) -> Result<(), NodeError>
    requires fits { SpotFits model.now spot.now }
    requires told { ProofFits model.now proof.now }
    ensures { MatchResult result (λ _. Stands model.now z (AtPlace spot.now) (NodeForm.Fix proof.now arcs.now))
        (IsNodeError model.now z (AtPlace spot.now) (NodeForm.Fix proof.now arcs.now)) }
{
    match checked_proof(alloc, model, spot, proof, true) {
        Err(error) => Err(error),
        Ok(checked) => {
            let at = Proved {
                model,
                spot,
                proof,
                checked: &checked,
            };
            if are_fixed(&at, arcs, z) {
                Ok(())
            } else {
                Err(NodeError::Fault(CheckKind::Fix))
            }
        }
    }
}
