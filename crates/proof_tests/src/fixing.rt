ghost use Rattle.std.specs.Prelude.{◌<◌, length};
ghost use Rattle.proof_rules.specs.Proofs.{AreBoth};
ghost use Rattle.proof_check.specs.Checked.{IsProved, proof_in};

use crate::keeping::proof_keeps;
use crate::rows::{CERTIFICATE, MODEL, PLACES};
use arc_fixing::fixable;
use certificate::{Cert, NodeForm, Proof, read_cert};
use model_text::read_model;
use proof_check::{Proved, back_labels, check_proof, closes_place, is_fixed, limit_at};
use route_model::{Model, Spot};
use std::alloc::Global;
use std::process::Abort;
use std::test::Fail;
use test_models::blocks::numbers;
use test_places::fitting::place_fits;
use test_places::said::place_of;

/// The bound and the limit of a walk of a checked proof.
fn check_bound<R: Abort>(rt: &R, at: &Proved)
    requires proved { IsProved at.now }
    requires graph { 0 < length at.now.model.now.graphs }
{
    assert!(rt; !closes_place(at, 9));
    assert!(rt; closes_place(at, 8));
    assert_eq!(rt; limit_at(at, 0, 9), Some(-65536));
}

/// The arcs that may be dropped, one by one.
fn check_arcs<R: Abort>(rt: &R, at: &Proved)
    requires proved { IsProved at.now }
    requires both { AreBoth at.now.model.now (proof_in at.now) }
    requires graph { 0 < length at.now.model.now.graphs }
{
    assert_eq!(rt; back_labels(at, 0).len(), 9);
    for arc in 0..7 {
        let wants = arc == 1 || arc == 3 || arc == 4;
        assert_eq!(rt; is_fixed(at, (0, arc), 9), wants, "arc {arc}");
    }
    assert!(rt; !is_fixed(at, (1, 1), 9));
}

/// All arcs that may be dropped and are not shut.
fn check_fixable<R: Abort>(rt: &R, alloc: Global, at: &Proved, wanted: &[u32]) -> Result<(), Fail>
    requires proved { IsProved at.now }
    requires both { AreBoth at.now.model.now (proof_in at.now) }
{
    let proof = at.proof;
    let cuts = proof.cuts.as_slice();
    let weights = proof.mult.cuts.as_slice();
    let tables = proof.tables.as_slice();
    let checked = at.checked;
    let arcs = fixable(
        alloc,
        at.model,
        at.spot,
        &checked.priced,
        &checked.near,
        cuts,
        weights,
        tables,
        9,
    )?;
    assert_eq!(rt; arcs.len(), wanted.len());
    for (arc, number) in arcs.as_slice().iter().zip(wanted) {
        assert_eq!(rt; *arc, (0, *number));
    }
    Ok(())
}

/// What is asked of a checked proof, against 9.
fn check_proved<R: Abort>(rt: &R, alloc: Global, at: &Proved, wanted: &[u32]) -> Result<(), Fail>
    requires proved { IsProved at.now }
    requires both { AreBoth at.now.model.now (proof_in at.now) }
{
    let model = at.model;
    if model.graphs.is_empty() {
        return Err(Fail::new("a model without graphs"));
    }
    check_bound(rt, at);
    check_arcs(rt, at);
    check_fixable(rt, alloc, at, wanted)
}

/// The check of a proof at a place.
fn check_at<R: Abort>(
    rt: &R,
    alloc: Global,
    model: &Model,
    spot: &Spot,
    proof: &Proof,
    wanted: &[u32],
) -> Result<(), Fail> {
    if !place_fits(model, spot) || !proof_keeps(model, proof) {
        return Err(Fail::new("a place or a proof that does not fit"));
    }
    match check_proof(alloc, model, spot, proof, true) {
        Err(_) => Err(Fail::new("a proof that is not valid")),
        Ok(checked) => check_proved(
            rt,
            alloc,
            &Proved {
                model,
                spot,
                proof,
                checked: &checked,
            },
            wanted,
        ),
    }
}

/// A row: a place and the arcs that may be dropped there.
fn check_row<R: Abort>(
    rt: &R,
    alloc: Global,
    model: &Model,
    proof: &Proof,
    row: &str,
) -> Result<(), Fail> {
    let (said, wanted) = row.split_once("| ").ok_or("a row without arcs")?;
    let spot = place_of(alloc, model, said)?;
    let wanted = numbers(alloc, wanted)?;
    check_at(rt, alloc, model, &spot, proof, wanted.as_slice())
}

/// The proof of the first node, a fix.
fn first_proof(cert: &Cert) -> Option<&Proof> {
    match cert.nodes.as_slice() {
        [] => None,
        [node, ..] => match &node.form {
            NodeForm::Fix(proof, _) => Some(proof),
            _ => None,
        },
    }
}

#[test]
fn fixes_three_arcs(rt: HostRuntime) -> Result<(), Fail> {
    let model = read_model(rt.alloc(), MODEL.as_bytes())?;
    let cert = read_cert(rt.alloc(), &model, CERTIFICATE.as_bytes())?;
    let proof = first_proof(&cert).ok_or("a certificate without a fix")?;
    for row in PLACES.lines() {
        check_row(&rt, rt.alloc(), &model, proof, row)?;
    }
    Ok(())
}
