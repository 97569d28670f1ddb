ghost use Rattle.std.specs.Prelude.{◌≡◌, Some};
ghost use Rattle.concatenate.specs.Costs.{IsLeastWith, lesser_of};
ghost use Rattle.pricing.specs.Tables.{IsSinkCost};

use route_labels::Label;

/// The least cost of a label at the sink; none where none stands there.
pub(crate) fn least_at(labels: &[Label], sink: u32) -> Option<i128>
    ensures { IsLeastWith (IsSinkCost sink labels.now) result }
{
    let mut least = None;
    for label in labels {
        if label.vertex == sink {
            least = lesser(least, label);
        }
    }
    least
}

/// The lesser of a cost that may be missing and that of a label.
fn lesser(least: Option<i128>, label: &Label) -> Option<i128>
    ensures { result ≡ lesser_of least (Some label.now.cost) }
{
    let cost = label.cost;
    match least {
        None => Some(cost),
        Some(least) => Some(if least <= cost { least } else { cost }),
    }
}
