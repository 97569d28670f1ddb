//! Values of places, from bounds.

ghost use Rattle.std.specs.Prelude.{◌≡◌, ◌^◌, ◌<ℤ◌, pos, Some};
ghost use Rattle.proof_rules.specs.OpenTrees.{raised as raised_by, rounded_up as up_of};

/// A bound divided by 65,536, rounded up.
fn rounded_up(bound: i128) -> i128
    ensures { result ≡ up_of bound }
{
    let size = bound.unsigned_abs();
    if bound >= 0 {
        ((size + 65_535) / 65_536) as i128
    } else {
        -((size / 65_536) as i128)
    }
}

/// The greater of a value and of a bound that is rounded up.
pub(crate) fn raised(value: i64, bound: i128) -> i64
    requires { up_of bound <ℤ pos (2 ^ 63) }
    ensures { result ≡ raised_by value (Some bound) }
{
    let up = rounded_up(bound);
    if up <= i128::from(value) {
        value
    } else {
        up as i64
    }
}
