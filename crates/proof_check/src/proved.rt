use crate::checked::Checked;
use certificate::Proof;
use route_labels::{Field, ProofTable};
use route_model::{Model, Spot};

/// A place with a proof that was checked there.
#[derive(Clone, Copy)]
pub struct Proved<'a> {
    pub model: &'a Model,
    pub spot: &'a Spot,
    pub proof: &'a Proof,
    pub checked: &'a Checked,
}

impl<'a> Proved<'a> {
    ghost use Rattle.std.specs.Prelude.{◌≡◌, ◌<◌, All, length};
    ghost use Rattle.route_labels.specs.Fit.{FieldFits};
    ghost use Rattle.route_labels.specs.Meaning.{setting_of};
    ghost use Rattle.cert_rules.specs.Meaning.{table_of};
    ghost use Rattle.proof_check.specs.Checked.{IsReady, setting_in, table_in};
    ghost use Rattle.proof_check.specs.Keeps.{ListKeeps};

    /// What the labels of a graph are made from.
    pub fn field(&self, g: u32) -> Field<'a>
        requires ready { IsReady self.now }
        requires graph { g < length self.now.model.now.graphs }
        ensures fits { FieldFits result }
        ensures setting { setting_of result ≡ setting_in self.now g }
    {
        let proof = self.proof;
        let checked = self.checked;
        Field {
            model: self.model,
            graph: g,
            spot: self.spot,
            priced: &checked.priced,
            near: &checked.near,
            cuts: proof.cuts.as_slice(),
            y: proof.mult.cuts.as_slice(),
        }
    }

    /// The table of a graph.
    pub fn table(&self, g: u32) -> &'a ProofTable
        requires ready { IsReady self.now }
        requires there { g < length self.now.proof.now.tables }
        ensures table { table_of result.now ≡ table_in self.now g }
        ensures fore { ListKeeps (length self.now.proof.now.cuts) result.now.fore }
        ensures back { ListKeeps (length self.now.proof.now.cuts) result.now.back }
    {
        let proof = self.proof;
        proof.tables.at(g as usize)
    }
}
