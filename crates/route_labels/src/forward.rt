ghost use Rattle.std.specs.Prelude.{◌≡◌};
ghost use Rattle.std.proofs.Props.{props};
ghost use Rattle.route_labels.specs.Fit.{FieldFits, PartsAgree};

use crate::dominance::dominates_forward;
use crate::extensions::extend_forward;
use crate::field::{Field, graph_of};
use crate::roots::forward_root;
use crate::tests_of::is_forward_label;
use label_rules::Label;
use label_space::Space;
use path_graph::level;

/// The labels of the partial walks of a field: a lawful space, whose choices are the arcs out of a vertex in their order.
///
/// With a threshold it leaves out the extensions whose first main value is above it, and those into the sink. A cell is a
/// vertex, and the level is the number of vertices times the sum of the main values, plus the rank of the vertex.
///
/// Labels with dominance are those of Desrochers and Soumis (1988); bounded labelling in both directions is that of Righini
/// and Salani (2006).
#[derive(Clone, Copy)]
pub struct Forward<'a> {
    pub field: Field<'a>,
    pub top: Option<i32>,
    pub ghost agree: { PartsAgree field } by { Prim.hlevel props },
}

impl<'a> Forward<'a> {
    /// The space of the labels of a field. It takes no memory.
    pub fn new(field: Field<'a>, top: Option<i32>) -> Forward<'a>
        requires { FieldFits field }
        ensures field { result.field ≡ field.entry }
        ensures threshold { result.top ≡ top }
    {
        let _graph = field.path_graph();
        Forward { field, top }
    }
}

impl<'a> Space for Forward<'a> {
    type Label = Label;

    ghost use Rattle.route_labels.specs.Rules.{forward_rules};
    ghost use Rattle.route_labels.specs.Lawful.{forward_lawful};

    ghost rules = { λ s. forward_rules s.field s.top };

    fn fits(&self, l: &Label) -> bool {
        is_forward_label(&self.field, l)
    }

    fn root(&self) -> Label {
        forward_root(&self.field)
    }

    fn cells(&self) -> u32 {
        graph_of(&self.field).vertex_count()
    }

    fn cell(&self, l: &Label) -> u32 {
        l.vertex
    }

    fn degree(&self, l: &Label) -> u32 {
        graph_of(&self.field).out_count(l.vertex)
    }

    fn level(&self, l: &Label) -> i64 {
        level(graph_of(&self.field), l.vertex, &l.values)
    }

    fn extend(&self, l: &Label, k: u32) -> Option<Label> {
        let arc = graph_of(&self.field).out_arc(l.vertex, k);
        extend_forward(&self.field, self.top, l, arc)
    }

    fn dominates(&self, a: &Label, b: &Label) -> bool {
        dominates_forward(&self.field, a, b)
    }

    fn same(&self, a: &Label, b: &Label) -> bool {
        *a == *b
    }

    ghost lawful = { λ s. forward_lawful s.field s.top s.agree };
}
