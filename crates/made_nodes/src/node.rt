ghost use Rattle.std.specs.Prelude.{◌≡◌};
ghost use Rattle.made_nodes.specs.Made.{child_count};

use certificate::NodeForm;

/// A node that a search made, with the bound by which it is tested again.
///
/// The bound is at the scale of 65,536 to a unit of cost. Of a split, a fix or a list it is that of the node's proof, of a
/// split of counts that of multipliers which are all 0. Of a node that opens no item it says nothing.
#[derive(Debug, Drop)]
pub struct MadeNode {
    pub form: NodeForm,
    pub bound: i128,
}

impl MadeNode {
    /// How many items it opens.
    pub fn child_count(&self) -> usize
        ensures { result ≡ child_count self.now.form }
    {
        match self.form {
            NodeForm::Split(_, _) => 2,
            NodeForm::Close(_) => 0,
            NodeForm::Fix(_, _) => 1,
            NodeForm::List(_, _) => 1,
            NodeForm::CountSplit(_, _) => 2,
            NodeForm::CountClose(_) => 0,
            NodeForm::Point => 0,
        }
    }
}
