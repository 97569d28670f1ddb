//! Steps of arithmetic at 128 bits, each with its exact value.

ghost use Rattle.std.specs.Prelude.{◌≡◌, ◌+ℤ◌, ◌-ℤ◌, ◌*ℤ◌, FitsSigned};
ghost use Rattle.std.specs.Int.{w128};

/// A product of two numbers, which always fits.
pub fn product(factor: i64, value: i64) -> i128
    ensures { result ≡ factor *ℤ value }
{
    i128::from(factor) * i128::from(value)
}

/// A sum that fits.
pub fn plus(total: i128, more: i128) -> i128
    requires { FitsSigned w128 (total +ℤ more) }
    ensures { result ≡ total +ℤ more }
{
    total + more
}

/// A difference that fits.
pub fn minus(total: i128, less: i128) -> i128
    requires { FitsSigned w128 (total -ℤ less) }
    ensures { result ≡ total -ℤ less }
{
    total - less
}
