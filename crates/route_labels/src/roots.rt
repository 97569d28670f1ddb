ghost use Rattle.std.specs.Prelude.{◌≡◌};
ghost use Rattle.label_rules.specs.Labels.{Forward, Backward, root};
ghost use Rattle.route_labels.specs.Fit.{PartsAgree};
ghost use Rattle.route_labels.specs.Meaning.{setting_of};

use crate::field::{Field, graph_of, start_of};
use label_rules::Label;
use path_graph::{SetBits, end_values, root_values};

/// The label of the partial walk without arcs: at the source, with the cost of the start.
pub(crate) fn forward_root(field: &Field) -> Label
    requires { PartsAgree field.now }
    ensures { result ≡ root Forward (setting_of field.now) }
{
    let graph = graph_of(field);
    Label {
        vertex: graph.ends().source,
        values: root_values(graph),
        memory: SetBits::empty(),
        states: [0; 64],
        cost: start_of(field),
    }
}

/// The label of the rest without arcs: at the sink, with cost 0.
pub(crate) fn backward_root(field: &Field) -> Label
    requires { PartsAgree field.now }
    ensures { result ≡ root Backward (setting_of field.now) }
{
    let graph = graph_of(field);
    Label {
        vertex: graph.ends().sink,
        values: end_values(graph),
        memory: SetBits::empty(),
        states: [0; 64],
        cost: 0,
    }
}
