//! Whether labels may be joined, and whether tables fit a listing.

ghost use Rattle.std.specs.Prelude.{◌≡◌, ◌↔◌, ◌<◌, ◌^◌, All, IfSome, IsTrue, length};
ghost use Rattle.path_graph.specs.Within.{IsWithin};
ghost use Rattle.concatenate.specs.Fit.{MayJoin};
ghost use Rattle.route_labels.specs.Fit.{FieldFits};
ghost use Rattle.route_labels.specs.Meaning.{setting_of};

use label_rules::ProofTable;
use label_space::Space;
use route_labels::{Field, Forward, Label};

/// Whether a label may be joined.
fn may_join(field: Field, label: &Label) -> bool
    requires { FieldFits field }
    ensures { IsTrue result → MayJoin (setting_of field.entry) label.now }
{
    let space = Forward::new(field, None);
    if !space.fits(label) {
        return false;
    }
    is_near(label.cost)
}

/// Whether a number is within 2^112 of 0.
fn is_near(cost: i128) -> bool
    ensures { IsTrue result ↔ IsWithin (2 ^ 112) cost }
{
    -(1 << 112) <= cost && cost <= 1 << 112
}

/// Whether all labels of a list may be joined.
pub fn may_all_join(field: Field, labels: &[Label]) -> bool
    requires { FieldFits field }
    ensures { IsTrue result → All (MayJoin (setting_of field.entry)) labels.now }
{
    for label in labels {
        if !may_join(field, label) {
            return false;
        }
    }
    true
}

/// Whether a least is within 2^112 of 0, if there is one.
fn is_least_near(least: Option<i128>) -> bool
    ensures { IsTrue result → IfSome least (IsWithin (2 ^ 112)) }
{
    match least {
        None => true,
        Some(least) => is_near(least),
    }
}

/// Whether all leasts are.
pub fn leasts_near(tables: &[ProofTable]) -> bool
    ensures { IsTrue result → All (λ table. IfSome table.least (IsWithin (2 ^ 112))) tables.now }
{
    tables.iter().all(|table| is_least_near(table.least))
}
