//! Arithmetic in fixed point: numbers of 64 bits, with products and sums of 128.
//!
//! Every function is total: it asks nothing of its numbers. A product of two numbers of 64 bits fits 128 bits, sums
//! stop at the ends of 128 bits, and each number that is kept is taken to the nearest one that may be stored.

ghost use Rattle.std.specs.Prelude.{◌≡◌, ◌^◌, ◌*ℤ◌, ◌≤ℤ◌, pos, ◌↔◌, IsTrue};
ghost use Rattle.path_graph.specs.Within.{IsWithin};

/// Fractional bits of the inverse.
const INVERSE_BITS: u32 = 36;
/// One, in the inverse.
pub const INVERSE_UNIT: i64 = 1 << 36;
/// One, in values of variables and in ends of spans: 24 fractional bits.
pub const VALUE_UNIT: i64 = 1 << 24;
/// One, in prices and reduced costs: 30 fractional bits.
pub const PRICE_UNIT: i64 = 1 << 30;

/// The greatest magnitude of a stored number.
const STORED_LIMIT: i128 = 1 << 60;
/// The greatest magnitude of an entry of the inverse.
const ENTRY_LIMIT: i128 = 1 << 56;

/// The nearest number that may be stored.
pub fn clamped(wide: i128) -> i64
    ensures range { IsWithin (2 ^ 60) result }
    ensures kept { IsWithin (2 ^ 60) wide → result ≡ wide }
{
    wide.clamp(-STORED_LIMIT, STORED_LIMIT) as i64
}

/// The nearest number that an entry of the inverse may have.
pub(crate) fn clamped_entry(wide: i128) -> i64
    ensures range { IsWithin (2 ^ 56) result }
    ensures kept { IsWithin (2 ^ 56) wide → result ≡ wide }
{
    wide.clamp(-ENTRY_LIMIT, ENTRY_LIMIT) as i64
}

/// Whether an entry of the inverse is within its limit and not at it, so that it was not clamped.
pub(crate) fn is_unclamped(entry: i64) -> bool {
    i128::from(magnitude(entry)) < ENTRY_LIMIT
}

/// The product of two numbers. It always fits.
pub fn product(first: i64, second: i64) -> i128
    ensures { result ≡ first *ℤ second }
{
    i128::from(first) * i128::from(second)
}

/// A number over 2^36, rounded: the fractional bits of the inverse are dropped.
pub(crate) fn drop_inverse_bits(wide: i128) -> i128 {
    wide.saturating_add(1 << 35) >> INVERSE_BITS
}

/// A stored number and a wide one together.
pub fn clamped_sum(stored: i64, wide: i128) -> i64
    ensures { IsWithin (2 ^ 60) result }
{
    clamped(wide.saturating_add(i128::from(stored)))
}

/// A quotient, rounded towards 0; 0 for a divisor of 0.
pub fn quotient(wide: i128, divisor: i64) -> i64
    ensures { IsWithin (2 ^ 60) result }
{
    clamped(wide.checked_div(i128::from(divisor)).unwrap_or(0))
}

/// A quotient with the fractional bits of the inverse more than its numbers have; 0 for a divisor of 0.
pub fn inverse_quotient(value: i64, divisor: i64) -> i64
    ensures { IsWithin (2 ^ 60) result }
{
    quotient(product(value, INVERSE_UNIT), divisor)
}

/// The magnitude of a number.
pub fn magnitude(value: i64) -> i64
    ensures { pos 0 ≤ℤ result }
{
    value.saturating_abs()
}

/// The greatest common divisor of two magnitudes up to 2^20, by Euclid's algorithm.
pub fn common_divisor(first: i64, second: i64) -> i64 {
    let mut greater = magnitude(first);
    let mut less = magnitude(second);
    for _ in 0..64 {
        match greater.checked_rem(less) {
            Some(rest) => {
                greater = less;
                less = rest;
            }
            None => break,
        }
    }
    greater
}
