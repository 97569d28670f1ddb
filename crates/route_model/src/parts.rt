use path_graph::{Graph, List};

/// An integer variable: its box, both ends allowed, and what each unit costs.
#[derive(Clone, Copy, Debug, PartialEq, Eq)]
pub struct Var {
    pub low: i64,
    pub high: i64,
    pub cost: i64,
}

/// A term of a row: a variable, by number, and its coefficient.
#[derive(Clone, Copy, Debug, PartialEq, Eq)]
pub struct RowTerm {
    pub var: u32,
    pub coef: i64,
}

/// A linear row: the sum of its terms lies within its sides. A side that is not there is open.
#[derive(Debug, Drop)]
pub struct Row {
    pub low: Option<i64>,
    pub high: Option<i64>,
    pub terms: List<RowTerm>,
}

/// A model: integer variables, rows, path graphs, and packing sets of vertices.
///
/// `maps[g][a]` has the variables that arc `a` of graph `g` maps, in ascending order.
/// The packing sets are numbered from 0 to `sets - 1`; each vertex names its own.
/// The form is that of Pessoa, Sadykov, Uchoa and Vanderbeck 2020.
#[derive(Drop)]
pub struct Model {
    pub vars: List<Var>,
    pub rows: List<Row>,
    pub sets: u16,
    pub graphs: List<Graph>,
    pub maps: List<List<List<u32>>>,
}

impl std::marker::Model for Model {
    ghost use Rattle.route_model.specs.Parts.{ModelParts};

    ghost Value = { ModelParts };

    ghost use Rattle.route_model.specs.Fit.{IsModel};

    ghost view = { λ m. record { vars = m.vars; rows = m.rows; sets = m.sets; graphs = m.graphs; maps = m.maps } };

    ghost invariant = { λ m. IsModel (record { vars = m.vars; rows = m.rows; sets = m.sets; graphs = m.graphs; maps = m.maps }) };
}

/// Why a model can't be built of parts that fit.
#[derive(Clone, Copy, Debug, PartialEq, Eq)]
pub enum BuildFault {
    /// The sum of absolute cost × high over the variables is above 2^40.
    CostRange,
    Memory,
}
