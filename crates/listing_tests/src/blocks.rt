//! A row: the text of a model, the text of a certificate with one list of walks, and what is said of it: a place,
//! multipliers, cuts and near lists, the `limits` of the graphs, whether each tree is `complete`, and its `walks`.

use crate::listings::check_row;
use crate::row::Row;
use crate::rows::ROWS;
use certificate::{Cert, NodeForm, Proof, Trie, read_cert};
use model_text::read_model;
use multipliers::priced;
use path_graph::List;
use route_model::Model;
use std::alloc::Global;
use std::process::Abort;
use std::test::Fail;
use test_models::blocks::block_of;
use test_places::fitting::{cuts_fit, mult_fits, place_fits};
use test_places::said::{cuts_of, mult_of, near_of, place_of};

/// The trees of a proof at the place that is said.
fn check_proof<R: Abort>(
    rt: &R,
    alloc: Global,
    model: &Model,
    proof: &Proof,
    tries: &List<Trie>,
    said: &str,
) -> Result<(), Fail> {
    let spot = place_of(alloc, model, said)?;
    let mult = mult_of(alloc, model, said)?;
    let cuts = cuts_of(alloc, said)?;
    let cuts = cuts.as_slice();
    let near = near_of(alloc, model, said)?;
    if !place_fits(model, &spot) || !mult_fits(model, &mult) || !cuts_fit(cuts, &mult) {
        return Err(Fail::new("a place that does not fit"));
    }
    match priced(alloc, model, &spot.boxes, cuts, &mult) {
        Err(_) => Err(Fail::new("an open side")),
        Ok(priced) => check_row(
            rt,
            alloc,
            &Row {
                model,
                spot: &spot,
                mult: &mult,
                weights: mult.cuts.as_slice(),
                priced: &priced,
                near: &near,
                cuts,
                tables: proof.tables.as_slice(),
            },
            tries.as_slice(),
            said,
        ),
    }
}

/// The same of the first node of a certificate.
fn check_cert<R: Abort>(
    rt: &R,
    alloc: Global,
    model: &Model,
    cert: &Cert,
    said: &str,
) -> Result<(), Fail> {
    match cert.nodes.as_slice().first() {
        None => Err(Fail::new("a certificate without nodes")),
        Some(node) => match &node.form {
            NodeForm::List(proof, tries) => check_proof(rt, alloc, model, proof, tries, said),
            _ => Err(Fail::new("a node that lists no walks")),
        },
    }
}

/// The same of a text.
fn check_text<R: Abort>(rt: &R, alloc: Global, text: &str) -> Result<(), Fail> {
    let first = block_of(alloc, text)?;
    let second = block_of(alloc, first.said)?;
    if first.model.len() >= 10_000 || second.model.len() >= 10_000 {
        return Err(Fail::new("a text is too long"));
    }
    let model = read_model(alloc, first.model.as_slice())?;
    let cert = read_cert(alloc, &model, second.model.as_slice())?;
    check_cert(rt, alloc, &model, &cert, second.said)
}

#[test]
fn trees(rt: HostRuntime) -> Result<(), Fail> {
    for text in ROWS.split("\n\n") {
        check_text(&rt, rt.alloc(), text)?;
    }
    Ok(())
}
