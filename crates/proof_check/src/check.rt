ghost use Rattle.std.specs.Prelude.{◌≡◌, ◌≢◌, ◌↔◌, ◌<◌, false, All, IfErr, IfOk, IsTrue, MatchOption, OnOk, length, map};
ghost use Rattle.rank1_cuts.specs.Fit.{CutFits};
ghost use Rattle.route_model.specs.Places.{SpotFits};
ghost use Rattle.proof_check.specs.Checked.{IsCheckedOf, IsReady};
ghost use Rattle.route_labels.specs.Fit.{FieldFits};
ghost use Rattle.route_labels.specs.Meaning.{setting_of};
ghost use Rattle.cert_rules.specs.Meaning.{near_lists, table_of};
ghost use Rattle.proof_check.specs.Demands.{AreExtended, IsGraphFault, IsMet, IsProofFault, IsSound, Sides, TellsOf, demands, demands_of};
ghost use Rattle.proof_check.specs.Keeps.{ListKeeps, ProofKeeps};

use crate::checked::Checked;
use crate::cover::is_extended;
use crate::error::ProofError;
use crate::near::near_of;
use crate::proved::Proved;
use crate::root::{has_roots, threshold};
use crate::side::prices;
use crate::sink::is_least;
use crate::way::Way;
use certificate::Proof;
use path_graph::{List, NoMemory};
use route_labels::{Field, Form, ProofTable};
use route_model::{Model, Priced, Spot};
use std::alloc::Global;

/// Checks a proof at a place, with both lists of each table where `whole` is asked for.
///
/// The demands are looked at in their order, and the fault is that of the first that is not met. The time grows with the
/// arcs on from each label times the labels where they lead, and in a half pair with the pairs of labels at the ends of
/// each arc.
pub fn check_proof(
    alloc: Global,
    model: &Model,
    spot: &Spot,
    proof: &Proof,
    whole: bool,
) -> Result<Checked, ProofError>
    requires spot { SpotFits model.now spot.now }
    requires keeps { ProofKeeps model.now proof.now }
    ensures sound { OnOk result (IsSound model.now spot.now proof.now whole) }
    ensures checked { IfOk result (IsCheckedOf model.now spot.now proof.now) }
    ensures fault { IfErr result (IsProofFault model.now spot.now proof.now whole) }
    ensures refused { IfErr result (λ e. e ≢ ProofError.Memory → ¬ (IsSound model.now spot.now proof.now whole)) }
{
    match prepared(alloc, model, spot, proof) {
        Err(fault) => Err(fault),
        Ok(checked) => judged(alloc, model, spot, proof, checked, whole),
    }
}

/// What is made of a proof before its tables are looked at; `Side` where a cut does not fit, or a multiplier needs an open
/// side.
fn prepared(alloc: Global, model: &Model, spot: &Spot, proof: &Proof) -> Result<Checked, ProofError>
    requires spot { SpotFits model.now spot.now }
    requires keeps { ProofKeeps model.now proof.now }
    ensures cuts { IfOk result (λ c. All CutFits proof.now.cuts) }
    ensures checked { IfOk result (IsCheckedOf model.now spot.now proof.now) }
    ensures side { IfErr result (TellsOf (IsMet model.now spot.now proof.now false Sides) ProofError.Side) }
{
    match prices(alloc, model, spot, proof) {
        Err(fault) => Err(fault),
        Ok(priced) => match with_lists(alloc, model, proof, priced) {
            Ok(checked) => Ok(checked),
            Err(_) => Err(ProofError::Memory),
        },
    }
}

/// The prices with the near lists and the leasts of a proof.
fn with_lists(
    alloc: Global,
    model: &Model,
    proof: &Proof,
    priced: Priced,
) -> Result<Checked, NoMemory>
    requires { ProofKeeps model.now proof.now }
    ensures priced { IfOk result (λ c. c.priced ≡ priced) }
    ensures near { IfOk result (λ c. c.near ≡ near_lists model.now proof.now.near) }
    ensures leasts { IfOk result (λ c. c.leasts ≡ map (λ t. t.least) proof.now.tables) }
{
    let near = near_of(alloc, model, proof.near.as_slice())?;
    let leasts = leasts_of(alloc, proof.tables.as_slice())?;
    Ok(Checked {
        priced,
        near,
        leasts,
    })
}

/// The leasts of tables, in their order.
fn leasts_of(alloc: Global, tables: &[ProofTable]) -> Result<List<Option<i128>>, NoMemory>
    ensures { IfOk result (λ leasts. leasts ≡ map (λ t. t.least) tables.now) }
{
    let mut leasts = Vec::new(alloc);
    for table in tables {
        leasts.push(table.least)?;
    }
    Ok(List::from_vec(leasts))
}

/// The proof where no demand on its tables is left, or else the first fault.
fn judged(
    alloc: Global,
    model: &Model,
    spot: &Spot,
    proof: &Proof,
    checked: Checked,
    whole: bool,
) -> Result<Checked, ProofError>
    requires spot { SpotFits model.now spot.now }
    requires keeps { ProofKeeps model.now proof.now }
    requires cuts { All CutFits proof.now.cuts }
    requires checked { IsCheckedOf model.now spot.now proof.now checked }
    ensures same { IfOk result (λ c. c ≡ checked) }
    ensures met { OnOk result (All (IsMet model.now spot.now proof.now whole) (demands (length model.now.graphs))) }
    ensures fault { IfErr result (IsProofFault model.now spot.now proof.now whole) }
{
    let at = Proved {
        model,
        spot,
        proof,
        checked: &checked,
    };
    match first_fault(alloc, &at, whole) {
        Err(_) => Err(ProofError::Memory),
        Ok(Some(fault)) => Err(fault),
        Ok(None) => Ok(checked),
    }
}

/// The first fault of the tables, graph by graph.
fn first_fault(alloc: Global, at: &Proved, whole: bool) -> Result<Option<ProofError>, NoMemory>
    requires { IsReady at.now }
    ensures { IfOk result (λ fault. MatchOption fault
        (All (IsMet at.now.model.now at.now.spot.now at.now.proof.now whole) (demands (length at.now.model.now.graphs)))
        (IsProofFault at.now.model.now at.now.spot.now at.now.proof.now whole)) }
{
    let model = at.model;
    for g in 0..model.graphs.len() {
        match graph_fault(alloc, at, g as u32, whole)? {
            Some(fault) => return Ok(Some(fault)),
            None => {}
        }
    }
    Ok(None)
}

/// The first fault of the table of a graph.
fn graph_fault(
    alloc: Global,
    at: &Proved,
    g: u32,
    whole: bool,
) -> Result<Option<ProofError>, NoMemory>
    requires ready { IsReady at.now }
    requires graph { g < length at.now.model.now.graphs }
    ensures { IfOk result (λ fault. MatchOption fault
        (All (IsMet at.now.model.now at.now.spot.now at.now.proof.now whole) (demands_of g))
        (IsGraphFault at.now.model.now at.now.spot.now at.now.proof.now whole g)) }
{
    if !has_roots(at, g, whole) {
        return Ok(Some(ProofError::Root));
    }
    let field = at.field(g);
    let table = at.table(g);
    if !are_extended(alloc, &field, table)? {
        return Ok(Some(ProofError::Cover));
    }
    if !is_least(&field, table) {
        return Ok(Some(ProofError::Sink));
    }
    Ok(None)
}

/// Whether each list of a table has the dominators that its extensions need.
fn are_extended(alloc: Global, field: &Field, table: &ProofTable) -> Result<bool, NoMemory>
    requires field { FieldFits field.now }
    requires fore { ListKeeps (length field.now.cuts.now) table.now.fore }
    requires back { ListKeeps (length field.now.cuts.now) table.now.back }
    ensures { IfOk result (λ holds. IsTrue holds ↔ AreExtended (setting_of field.now) (table_of table.now)) }
{
    let threshold = threshold(table.form);
    let ahead = Way {
        field: *field,
        backward: false,
        threshold,
    };
    if !is_extended(alloc, &ahead, table.fore.as_slice())? {
        return Ok(false);
    }
    if table.form == Form::Full {
        return Ok(true);
    }
    let back = Way {
        field: *field,
        backward: true,
        threshold,
    };
    is_extended(alloc, &back, table.back.as_slice())
}
