ghost use Rattle.std.specs.Prelude.{◌≡◌, ◌≢◌, ℕ, ◌<◌, ◌≤◌, Contains, length, slice_index_or};
ghost use Rattle.label_rules.specs.declared.label.Label.{Label};

use route_labels::Label;

/// The part of a list from its first label at a vertex to its last one there.
///
/// Where the labels of each vertex stand together, as those of a table do, it has no others.
pub(crate) fn part_at(labels: &[Label], vertex: u32) -> &[Label]
    ensures all { (l : Label) → Contains labels.now l → l.vertex ≡ vertex → Contains result.now l }
    ensures among { (l : Label) → Contains result.now l → Contains labels.now l }
{
    let first = first_at(labels, vertex);
    let end = end_at(labels, vertex, first);
    &labels[first..end]
}

/// The place of the first label at a vertex, or the length.
fn first_at(labels: &[Label], vertex: u32) -> usize
    ensures within { result ≤ length labels.now }
    ensures before { (k : ℕ) (d : Label) → k < result → (slice_index_or labels.now k d).vertex ≢ vertex }
{
    for (i, label) in labels.iter().enumerate() {
        if label.vertex == vertex {
            return i;
        }
    }
    labels.len()
}

/// The place behind the last label at a vertex, from a place on.
fn end_at(labels: &[Label], vertex: u32, first: usize) -> usize
    requires { first ≤ length labels.now }
    ensures within { result ≤ length labels.now }
    ensures after { first ≤ result }
    ensures behind { (k : ℕ) (d : Label) → result ≤ k → k < length labels.now → (slice_index_or labels.now k d).vertex ≢ vertex }
{
    let mut end = labels.len();
    while first < end && labels[end - 1].vertex != vertex {
        end -= 1;
    }
    end
}
