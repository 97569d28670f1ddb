ghost use Rattle.label_rules.specs.Admitted.{AdmittedLaw, ElementaryLaw, ElementaryPrefixLaw};

/// A walk is admitted exactly where its own label is defined.
pub fn admitted_walks_have_labels()
    ensures { AdmittedLaw }
{}

/// A feasible walk over open arcs that visits no packing set twice is admitted, whatever sets are near; and the label of each
/// prefix of such arcs from the source is defined.
pub fn elementary_walks_are_admitted()
    ensures walks { ElementaryLaw }
    ensures prefixes { ElementaryPrefixLaw }
{}
