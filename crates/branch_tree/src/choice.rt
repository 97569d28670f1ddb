ghost use Rattle.std.specs.Prelude.{◌≡◌, ◌↔◌, ℕ, ◌<◌, ◌-◌, ◌^◌, pos, ◌≤ℤ◌, ◌<ℤ◌, All, IfSome, IsNone, MatchOption, length, ◌⊎◌};
ghost use Rattle.route_model.specs.declared.places.Spot.{Spot};
ghost use Rattle.route_model.specs.Parts.{ModelParts};
ghost use Rattle.route_model.specs.PlaceParts.{SplitFits};
ghost use Rattle.route_model.specs.Places.{IsSpotOf};
ghost use Rattle.branch_tree.specs.Splits.{ArePoints, HasNumber, IsPoint, IsSplitOf, Parts};

use route_model::{Boxes, Quantity, SCALE, Span, Split};

/// How far a path count must be from a whole number to be split before the variables: 1/50.
const LEAST_PATH_FRACTION: i64 = SCALE / 50;

/// A box that is no point, by its place in a list: where its value parts it, and how far the value is from a whole
/// number.
#[derive(Clone, Copy)]
struct Candidate {
    place: u32,
    at: i64,
    distance: i64,
}

/// The next split of a place, by the values that a linear program gave to the variables and the path counts; none
/// exactly where every box is a point.
///
/// Values and counts are in units of 1/65,536. The path count that is furthest from a whole number comes first where
/// that is more than 1/50, since few models bound their path counts from below and the bound gains most there; then the
/// variable that is nearest to a half. A value outside its box is taken to the end of the box. The time is linear in the
/// boxes.
#[tactic(auto, using(crate::proofs::SplitLemmas::split_fits))]
pub fn choose_split(boxes: &Boxes, values: &[i64], counts: &[i64]) -> Option<Split>
    requires vars { All HasNumber boxes.now.vars }
    requires paths { All HasNumber boxes.now.paths }
    requires values { length values.now ≡ length boxes.now.vars }
    requires counts { length counts.now ≡ length boxes.now.paths }
    requires few_vars { length boxes.now.vars < 2 ^ 32 - 1 }
    requires few_paths { length boxes.now.paths < 2 ^ 32 - 1 }
    ensures none { IsNone result ↔ ArePoints boxes.now }
    ensures split { IfSome result (IsSplitOf boxes.now) }
    ensures place { IfSome result (λ split. (m : ModelParts) (spot : Spot) → spot.boxes ≡ boxes.now
        → IsSpotOf m spot → SplitFits m spot split) }
{
    let path = furthest(boxes.paths.as_slice(), counts);
    let var = furthest(boxes.vars.as_slice(), values);
    let Some(path) = path else {
        return match var {
            Some(var) => Some(var_split(var)),
            None => None,
        };
    };
    if path.distance > LEAST_PATH_FRACTION {
        return Some(path_split(path));
    }
    match var {
        Some(var) if var.distance > 0 => Some(var_split(var)),
        _ => Some(path_split(path)),
    }
}

/// The split of a variable.
fn var_split(candidate: Candidate) -> Split
    ensures quantity { result.quantity ≡ Quantity.Var candidate.place }
    ensures at { result.at ≡ candidate.at }
{
    Split {
        quantity: Quantity::Var(candidate.place),
        at: candidate.at,
    }
}

/// The split of a path count.
fn path_split(candidate: Candidate) -> Split
    ensures quantity { result.quantity ≡ Quantity.Paths candidate.place }
    ensures at { result.at ≡ candidate.at }
{
    Split {
        quantity: Quantity::Paths(candidate.place),
        at: candidate.at,
    }
}

/// Of the boxes that are no points, the first whose value is furthest from a whole number.
fn furthest(spans: &[Span], values: &[i64]) -> Option<Candidate>
    requires spans { All HasNumber spans.now }
    requires values { length values.now ≡ length spans.now }
    requires few { length spans.now < 2 ^ 32 - 1 }
    ensures { MatchOption result (All IsPoint spans.now) (λ c. Parts spans.now c.place c.at) }
{
    let mut best: Option<Candidate> = None;
    for (place, span) in spans.iter().enumerate() {
        if span.low < span.high {
            best = Some(better(best, candidate_at(place, *span, values[place])));
        }
    }
    best
}

/// The candidate of a box that is no point.
fn candidate_at(place: usize, span: Span, value: i64) -> Candidate
    requires place { place < 2 ^ 32 }
    requires span { span.low <ℤ span.high }
    ensures place { result.place ≡ place }
    ensures low { span.low ≤ℤ result.at }
    ensures high { result.at <ℤ span.high }
{
    Candidate {
        place: place as u32,
        at: part_at(span, value),
        distance: distance(value),
    }
}

/// The candidate that is further from a whole number, the earlier one of two that are equally far.
fn better(best: Option<Candidate>, next: Candidate) -> Candidate
    ensures { MatchOption best (result ≡ next) (λ c. (result ≡ c) ⊎ (result ≡ next)) }
{
    match best {
        Some(best) if best.distance >= next.distance => best,
        _ => next,
    }
}

/// Where a value parts a box: the whole number below it, and neither part is empty.
fn part_at(span: Span, value: i64) -> i64
    requires { span.low <ℤ span.high }
    ensures low { span.low ≤ℤ result }
    ensures high { result <ℤ span.high }
{
    value.div_euclid(SCALE).clamp(span.low, span.high - 1)
}

/// How far a value is from the nearest whole number.
fn distance(value: i64) -> i64 {
    let above = value.rem_euclid(SCALE);
    above.min(SCALE - above)
}
