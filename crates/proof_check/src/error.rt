/// Why a proof is not valid at a place, in the order in which its demands are looked at.
///
/// The sides come first; then graph by graph the roots of its table, its covers and its least.
#[derive(Clone, Copy, Debug, PartialEq, Eq)]
pub enum ProofError {
    /// A cut does not fit, or a multiplier needs a side that is open.
    Side,
    /// A graph has no table, or not both lists where these are asked for; or a threshold is below the source; or no label
    /// dominates a root.
    Root,
    /// A label lies outside its windows, or a state is not below its denominator; or an extension that needs a dominator
    /// has none.
    Cover,
    /// A label at the sink, or in a half pair a join, costs less than the least, or there is one and no least.
    Sink,
    Memory,
}
