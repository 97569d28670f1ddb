ghost use Rattle.std.specs.Prelude.{◌≡◌, ◌≤◌, pos, ◌*ℤ◌, ◌+ℤ◌, FitsSigned};
ghost use Rattle.std.specs.Int.{w64, int_min, int_max};
ghost use Rattle.path_graph.specs.Within.{IsWithin};

/// A value of a variable as a signed number.
pub fn signed_value(total: u128) -> i64
    requires { total ≤ 1000000 }
    ensures { result ≡ pos total }
{
    total as i64
}

/// A product of a cost or coefficient and a value.
pub fn product(factor: i64, value: i64) -> i64
    requires factor { IsWithin 1000000000 factor }
    requires value { IsWithin 1000000 value }
    ensures { result ≡ factor *ℤ value }
{
    factor * value
}

/// A sum that fits.
pub fn sum_of(total: i64, more: i64) -> i64
    requires { FitsSigned w64 (total +ℤ more) }
    ensures { result ≡ total +ℤ more }
{
    total + more
}

/// The least and the greatest of a product while the second factor goes from one number to another: each lies at an
/// end.
pub fn product_ends(factor: i64, from: i64, to: i64) -> (i64, i64)
    requires factor { IsWithin 1000000000 factor }
    requires from { IsWithin 1000000 from }
    requires to { IsWithin 1000000 to }
    ensures least { result.0 ≡ int_min (factor *ℤ from) (factor *ℤ to) }
    ensures greatest { result.1 ≡ int_max (factor *ℤ from) (factor *ℤ to) }
{
    let at_from = product(factor, from);
    let at_to = product(factor, to);
    (at_from.min(at_to), at_from.max(at_to))
}
