//! Arithmetic in fixed point on 64 bits, sums over rows and sparse columns, and the inverse of a basis.
#![tactic(auto)]

mod inverse;
mod lists;
mod numbers;
mod rows;

pub use inverse::Inverse;
pub use lists::{flag_at, number_at, set_flag, set_number};
pub use numbers::{
    INVERSE_UNIT, PRICE_UNIT, VALUE_UNIT, clamped, clamped_sum, common_divisor, inverse_quotient,
    magnitude, product, quotient,
};
pub use rows::{Term, inverse_product, sparse_product, squared_length, subtract_column};
