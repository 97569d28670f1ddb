ghost use Rattle.std.specs.Prelude.{◌≡◌};
ghost use Rattle.std.proofs.Props.{props};
ghost use Rattle.route_labels.specs.Fit.{FieldFits, PartsAgree};

use crate::dominance::dominates_backward;
use crate::extensions::extend_backward;
use crate::field::{Field, graph_of};
use crate::limits::negated;
use crate::roots::backward_root;
use crate::tests_of::is_backward_label;
use label_rules::Label;
use label_space::Space;
use path_graph::level;

/// The labels of the rests of a field: a lawful space, whose choices are the arcs into a vertex in their order.
///
/// With a threshold it leaves out the extensions whose first main value is not above it, and those into the source. A cell
/// is a vertex, and the level is that of the forward labels, negated: it too rises over each arc.
#[derive(Clone, Copy)]
pub struct Backward<'a> {
    pub field: Field<'a>,
    pub above: Option<i32>,
    pub ghost agree: { PartsAgree field } by { Prim.hlevel props },
}

impl<'a> Backward<'a> {
    /// The space of the labels of a field. It takes no memory.
    pub fn new(field: Field<'a>, above: Option<i32>) -> Backward<'a>
        requires { FieldFits field }
        ensures field { result.field ≡ field.entry }
        ensures threshold { result.above ≡ above }
    {
        let _graph = field.path_graph();
        Backward { field, above }
    }
}

impl<'a> Space for Backward<'a> {
    type Label = Label;

    ghost use Rattle.route_labels.specs.Rules.{backward_rules};
    ghost use Rattle.route_labels.specs.Lawful.{backward_lawful};

    ghost rules = { λ s. backward_rules s.field s.above };

    fn fits(&self, l: &Label) -> bool {
        is_backward_label(&self.field, l)
    }

    fn root(&self) -> Label {
        backward_root(&self.field)
    }

    fn cells(&self) -> u32 {
        graph_of(&self.field).vertex_count()
    }

    fn cell(&self, l: &Label) -> u32 {
        l.vertex
    }

    fn degree(&self, l: &Label) -> u32 {
        graph_of(&self.field).in_count(l.vertex)
    }

    fn level(&self, l: &Label) -> i64 {
        negated(level(graph_of(&self.field), l.vertex, &l.values))
    }

    fn extend(&self, l: &Label, k: u32) -> Option<Label> {
        let arc = graph_of(&self.field).in_arc(l.vertex, k);
        extend_backward(&self.field, self.above, l, arc)
    }

    fn dominates(&self, a: &Label, b: &Label) -> bool {
        dominates_backward(&self.field, a, b)
    }

    fn same(&self, a: &Label, b: &Label) -> bool {
        *a == *b
    }

    ghost lawful = { λ s. backward_lawful s.field s.above s.agree };
}
