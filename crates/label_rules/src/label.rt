use path_graph::{SetBits, Values};

/// The label of a partial walk or of a rest: its vertex, its values there, the packing sets that it remembers, the states
/// of the cuts, 0 from the number of cuts on, and its reduced cost so far, times 65,536.
///
/// A partial walk begins at the source and its label stands at its end; a rest ends at the sink and its label stands at its
/// beginning.
#[derive(Clone, Copy, Debug, PartialEq, Eq)]
pub struct Label {
    pub vertex: u32,
    pub values: Values,
    pub memory: SetBits,
    pub states: [u8; 64],
    pub cost: i128,
}
