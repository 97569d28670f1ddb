use certificate::{Proof, Trie};
use label_core::Table;
use path_graph::List;
use route_labels::Label;
use route_model::Spot;

/// Why no node is made at a place: the table of a graph reached the limit of labels (`true` tells that of rests), or the prefix
/// trees of a place whose variables are fixed reached it.
#[derive(Drop)]
pub enum LabelWall {
    Table(u32, bool, Spot, Proof, Table<Label>),
    List(Spot, Proof, i64, List<Trie>),
}
