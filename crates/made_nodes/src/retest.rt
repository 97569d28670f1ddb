ghost use Rattle.std.specs.Prelude.{◌≡◌, ◌^◌, ◌-ℤ◌, ◌↔◌, pos, IfOk, IsTrue};
ghost use Rattle.path_graph.specs.Within.{IsWithin};
ghost use Rattle.multipliers.specs.Quantities.{scaled};
ghost use Rattle.made_nodes.specs.Closing.{IsClosedForm, IsClosing};
ghost use Rattle.made_nodes.specs.Made.{StaysOpen};

use crate::node::MadeNode;
use crate::zeros::no_multipliers;
use certificate::NodeForm;
use path_graph::NoMemory;
use route_model::wide::{minus, product};
use route_model::{Model, SCALE};
use std::alloc::Global;

/// 65,536 × (z - 1): a bound above it closes.
pub fn closing_bound(z: i64) -> i128
    ensures scaled { result ≡ scaled (z -ℤ pos 1) }
    ensures range { IsWithin (2 ^ 80) result }
{
    minus(product(SCALE, z), i128::from(SCALE))
}

impl MadeNode {
    /// Whether its bound leaves open, against z, what it opens.
    pub fn stays_open(&self, z: i64) -> bool
        ensures { IsTrue result ↔ StaysOpen z self.now }
    {
        match self.form {
            NodeForm::Split(_, _) => self.bound <= closing_bound(z),
            NodeForm::Close(_) => true,
            NodeForm::Fix(_, _) => self.bound <= closing_bound(z),
            NodeForm::List(_, _) => self.bound <= closing_bound(z),
            NodeForm::CountSplit(_, _) => self.bound <= closing_bound(z),
            NodeForm::CountClose(_) => true,
            NodeForm::Point => true,
        }
    }
}

/// The form that closes an item in place of one whose bound closes it.
fn closed_form(alloc: Global, model: &Model, form: NodeForm) -> Result<NodeForm, NoMemory>
    ensures { IfOk result (IsClosedForm model.now form) }
{
    match form {
        NodeForm::Split(_, None) => Ok(NodeForm::Point),
        NodeForm::Split(_, Some(proof)) => Ok(NodeForm::Close(proof)),
        NodeForm::Close(proof) => Ok(NodeForm::Close(proof)),
        NodeForm::Fix(proof, _) => Ok(NodeForm::Close(proof)),
        NodeForm::List(proof, _) => Ok(NodeForm::Close(proof)),
        NodeForm::CountSplit(_, _) => Ok(NodeForm::CountClose(no_multipliers(alloc, model)?)),
        NodeForm::CountClose(mult) => Ok(NodeForm::CountClose(mult)),
        NodeForm::Point => Ok(NodeForm::Point),
    }
}

/// A node that closes the item of a node whose bound does so against z: by the proof that the node carries, or for a split
/// of counts by multipliers that are all 0.
///
/// A node that opens no item stays as it is. A split without proof, which no search makes, gives any node.
pub fn closing(alloc: Global, model: &Model, node: MadeNode) -> Result<MadeNode, NoMemory>
    ensures { IfOk result (IsClosing model.now node) }
{
    let MadeNode { form, bound } = node;
    let form = closed_form(alloc, model, form)?;
    Ok(MadeNode { form, bound })
}
